// The cut: a message as a Begin and its Continues.
// Ported from link/spach/arq.rs (chrismoos/136-bts 7c60b63bf4, Apache-2.0) and changed: see NOTICE.
ghost use Rattle.std.specs.Prelude.{◌≡◌, suc, ◌+◌, ◌*◌, ◌≤◌, ◌<◌, length};
ghost use Rattle.spach.specs.Refusal.{number_of, by_number, gives};
ghost use Rattle.arq.specs.Cut.{continues, cut_checked, cut_frame, count_of, frame_of};

use super::{ArqFrame, ArqHeader, CONTINUE_DATA_BITS, check, frame};
use rach::MobileIdentity;
use spach::SpachError;

// Header, identity and message go together from here on. A struct of them is no plainer: it holds the message by reference,
// so its maker would have to promise each field, beside the checks.

// Over 255 octets 1; Pch 3; echo over 127 11; identity 2.
fn check_cut(header: ArqHeader, identity: MobileIdentity, message: &[u8]) -> Result<(), SpachError>
    ensures { by_number number_of result ≡ cut_checked header identity message.now (gives tt) }
{
    if 255 < message.len() {
        return Err(SpachError::Length);
    }
    check::check_header(header)?;
    spach::check_identity(identity)
}

// A Begin, and as many Continues as what it has no room for needs.
pub fn frames_of(identity: MobileIdentity, octets: u8) -> usize
    ensures { result ≡ 1 + continues identity octets }
{
    let rest = (8 * usize::from(octets)).saturating_sub(check::room_of(identity));
    1 + rest.div_ceil(CONTINUE_DATA_BITS)
}

// The message's Begin: as many of the first bits as it has room for.
fn begin_of(header: ArqHeader, identity: MobileIdentity, message: &[u8]) -> ArqFrame
    requires { length message.now ≤ 255 }
    ensures { result ≡ cut_frame header identity message.now 0 }
{
    let bits = check::room_of(identity).min(8 * message.len());
    let data = frame::data_octets(message, 0, bits);
    frame::a_begin(header, identity, message.len() as u8, bits as u8, data)
}

// Its Continue k: the 79 bits after those of the frames before it.
fn continue_of(header: ArqHeader, identity: MobileIdentity, message: &[u8], k: usize) -> ArqFrame
    requires short { length message.now ≤ 255 }
    requires counted { k < continues identity (length message.now) }
    ensures { result ≡ cut_frame header identity message.now (suc k) }
{
    let start = check::room_of(identity) + CONTINUE_DATA_BITS * k;
    let bits = CONTINUE_DATA_BITS.min(8 * message.len() - start);
    let data = frame::data_octets(message, start, bits);
    frame::a_continue(header, identity.parts().identity_type, k as u8, data)
}

// How many frames a message needs.
pub fn fragment_count(
    header: ArqHeader,
    identity: MobileIdentity,
    message: &[u8],
) -> Result<usize, SpachError>
    ensures { by_number number_of result ≡ count_of header identity message.now }
{
    check_cut(header, identity, message)?;
    Ok(frames_of(identity, message.len() as u8))
}

// Frame k of a message, k from 0.
pub fn fragment(
    header: ArqHeader,
    identity: MobileIdentity,
    message: &[u8],
    k: usize,
) -> Result<ArqFrame, SpachError>
    ensures { by_number number_of result ≡ frame_of header identity message.now k }
{
    check_cut(header, identity, message)?;
    if frames_of(identity, message.len() as u8) <= k {
        return Err(SpachError::FrameNumber);
    }
    Ok(if k == 0 {
        begin_of(header, identity, message)
    } else {
        continue_of(header, identity, message, k - 1)
    })
}
