// Frames as they are given out: unread bits are zero, and so are the fields that only the other kind has.
// Ported from link/spach/arq.rs (chrismoos/136-bts 7c60b63bf4, Apache-2.0) and changed: see NOTICE.
ghost use Rattle.std.specs.Prelude.{◌≡◌, ◌*◌, ◌≤◌, take, drop};
ghost use Rattle.field.specs.Bits.{bits_of, octets as octets_of};
ghost use Rattle.field.specs.Spans.{Run};
ghost use Rattle.field.specs.Layout.{up_to};
ghost use Rattle.arq.specs.Frame.{a_begin_of, a_continue_of};

use super::{ArqFrame, ArqHeader, FrameKind};
use rach::MobileIdentity;

pub fn a_begin(
    header: ArqHeader,
    identity: MobileIdentity,
    message_octets: u8,
    begin_bits: u8,
    begin_data: [u8; 7],
) -> ArqFrame
    ensures { result ≡ a_begin_of header identity message_octets begin_bits begin_data }
{
    ArqFrame {
        kind: FrameKind::Begin,
        header,
        identity,
        message_octets,
        begin_data,
        begin_bits,
        identity_type: 0,
        frame_number: 0,
        continue_data: [0u8; 10],
    }
}

pub fn a_continue(
    header: ArqHeader,
    identity_type: u8,
    frame_number: u8,
    continue_data: [u8; 10],
) -> ArqFrame
    ensures { result ≡ a_continue_of header identity_type frame_number continue_data }
{
    ArqFrame {
        kind: FrameKind::Continue,
        header,
        identity: MobileIdentity::Tmsi20(0),
        message_octets: 0,
        begin_data: [0u8; 7],
        begin_bits: 0,
        identity_type,
        frame_number,
        continue_data,
    }
}

// The n bits at offset o of a frame or a message as a frame's data in N octets, zero filled.
pub fn data_octets<const N: usize>(octets: &[u8], o: usize, n: usize) -> [u8; N]
    requires run { Run octets.now o n }
    requires fits { n ≤ 8 * N }
    requires short { N ≤ 4096 }
    ensures { result ≡ octets_of N (up_to (8 * N) (take n (drop o (bits_of octets.now)))) }
{
    let mut data = [0u8; N];
    field::copy_bits(&mut data, 0, octets, o, n);
    data
}
