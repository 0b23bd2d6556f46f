// The checks of encode, in document 01's order. The cut makes the first of them too.
// Ported from link/spach/arq.rs (chrismoos/136-bts 7c60b63bf4, Apache-2.0) and changed: see NOTICE.
ghost use Rattle.std.specs.Prelude.{◌≡◌, ◌≤◌, take, drop};
ghost use Rattle.field.specs.Bits.{bits_of};
ghost use Rattle.field.specs.Spans.{Run};
ghost use Rattle.field.specs.Layout.{any_set};
ghost use Rattle.spach.specs.Refusal.{number_of, by_number, gives};
ghost use Rattle.arq.specs.Frame.{room};
ghost use Rattle.arq.specs.Encode.{header_checked, begin_checked, continue_checked, by_kind};

use super::{ArqFrame, ArqHeader, FrameKind};
use rach::MobileIdentity;
use spach::{Channel, SpachError};

// Pch 3; echo over 127 11.
pub fn check_header(header: ArqHeader) -> Result<(), SpachError>
    ensures { by_number number_of result ≡ header_checked header (gives tt) }
{
    if header.channel == Channel::Pch {
        return Err(SpachError::UnsupportedUsage);
    }
    if 127 < header.partial_echo {
        return Err(SpachError::PartialEcho);
    }
    Ok(())
}

// How many data bits a Begin has room for.
pub fn room_of(identity: MobileIdentity) -> usize
    ensures exact { result ≡ room identity }
    ensures most { result ≤ 55 }
{
    75 - identity.parts().width
}

// Whether one of the n data bits at bit offset o is set past the message's last, which is the end-th.
pub fn filler_set(octets: &[u8], o: usize, n: usize, end: usize) -> bool
    requires { Run octets.now o n }
    ensures { result ≡ any_set (drop end (take n (drop o (bits_of octets.now)))) }
{
    end < n && field::any_set(octets, o + end, n - end)
}

// Identity 2; bit count over the room 13; filler 7. A Continue has other fields, and other checks.
fn check_begin(frame: ArqFrame) -> Result<(), SpachError>
    ensures { by_number number_of result ≡ begin_checked frame (gives tt) }
{
    spach::check_identity(frame.identity)?;
    let bits = usize::from(frame.begin_bits);
    if room_of(frame.identity) < bits {
        return Err(SpachError::Payload);
    }
    if filler_set(
        &frame.begin_data,
        0,
        bits,
        8 * usize::from(frame.message_octets),
    ) {
        return Err(SpachError::Filler);
    }
    Ok(())
}

// Number over 25 12.
fn check_continue(frame: ArqFrame) -> Result<(), SpachError>
    ensures { by_number number_of result ≡ continue_checked frame (gives tt) }
{
    if 25 < frame.frame_number {
        return Err(SpachError::FrameNumber);
    }
    Ok(())
}

// All checks of encode.
pub fn check_encode(frame: ArqFrame) -> Result<(), SpachError>
    ensures { by_number number_of result ≡ header_checked frame.header (by_kind frame.kind (begin_checked frame (gives tt)) (continue_checked frame (gives tt))) }
{
    check_header(frame.header)?;
    match frame.kind {
        FrameKind::Begin => check_begin(frame),
        FrameKind::Continue => check_continue(frame),
    }
}
