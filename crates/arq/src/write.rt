// The frame's parts, each written at its place: header A, header B, a Begin's address, the rest, the data.
// Ported from link/spach/arq.rs (chrismoos/136-bts 7c60b63bf4, Apache-2.0) and changed: see NOTICE.
ghost use Rattle.std.specs.Prelude.{◌≡◌, [], ◌∷◌, ◌++◌, ◌+◌, ◌*◌, ◌≤◌, ◌<◌, take};
ghost use Rattle.field.specs.Bits.{bit, value, bits_of, put, splice};
ghost use Rattle.field.specs.Spans.{Packs, Run};
ghost use Rattle.field.specs.Layout.{layout};
ghost use Rattle.spach.specs.Header.{header_a, header_b, address};
ghost use Rattle.arq.specs.Frame.{mode_of, kind_of, rest_of, room, begin_frame, continue_frame};

use super::{ArqFrame, ArqHeader, CONTINUE_DATA_BITS, FrameKind, ResponseMode};
use rach::MobileIdentity;
use spach::{Channel, HeaderFlags};

// The standard's bit. Contracts read no `as` of an enum, so it is a match.
fn mode(m: ResponseMode) -> u64
    ensures exact { result ≡ mode_of m }
    ensures bit { result < 2 }
{
    match m {
        ResponseMode::Contention => 0,
        ResponseMode::Reservation => 1,
    }
}

// Header A's seven bits as one number.
fn header_a_number(channel: Channel, flags: HeaderFlags) -> u64
    ensures { result ≡ value (layout (header_a channel flags)) }
{
    let usage = u64::from(channel.usage());
    let pch = u64::from(flags.pch_continuation);
    let bcch = u64::from(flags.bcch_change);
    let modifier = u64::from(flags.paging_frame_modifier);
    (((usage * 2 + pch) * 2 + bcch) * 2 + modifier) * 2
}

// Header B's seven bits as one number. Of the type only the low two bits are written.
fn header_b_number(kind: FrameKind, identity_type: u8, flags: HeaderFlags) -> u64
    ensures { result ≡ value (layout (header_b (kind_of kind) identity_type flags)) }
{
    let kind = kind.number();
    let two = u64::from(identity_type % 4);
    let response = u64::from(flags.reservation_response);
    ((kind * 4 + two) * 2) * 2 + response
}

// What follows header B and, in a Begin, the address, eleven bits, as one number. Of the echo only the low seven bits are written.
fn rest_number(header: ArqHeader) -> u64
    ensures { result ≡ value (layout (rest_of header)) }
{
    let echo = u64::from(header.partial_echo % 128);
    let polling = u64::from(header.polling);
    let m = mode(header.response_mode);
    ((echo * 4) * 2 + polling) * 2 + m
}

// The octets with the low w bits of v at bit offset o.
fn with_field(mut f: [u8; 14], o: usize, w: usize, v: u64) -> [u8; 14]
    requires { (1 ≤ w) × (w ≤ 50) × (o + w ≤ 112) }
    ensures { Packs result 14 (put o w v (bits_of f)) }
{
    field::write_field(&mut f, o, w, v);
    f
}

fn with_header_a(f: [u8; 14], header: ArqHeader) -> [u8; 14]
    ensures { Packs result 14 (splice 0 (layout (header_a header.channel header.flags)) (bits_of f)) }
{
    with_field(f, 0, 7, header_a_number(header.channel, header.flags))
}

fn with_header_b(f: [u8; 14], header: ArqHeader, kind: FrameKind, identity_type: u8) -> [u8; 14]
    ensures { Packs result 14 (splice 7 (layout (header_b (kind_of kind) identity_type header.flags)) (bits_of f)) }
{
    with_field(f, 7, 7, header_b_number(kind, identity_type, header.flags))
}

// The encrypted bit, which is zero, and the identity.
fn with_address(f: [u8; 14], identity: MobileIdentity) -> [u8; 14]
    ensures { Packs result 14 (splice 14 (layout (address identity)) (bits_of f)) }
{
    let p = identity.parts();
    let g = with_field(f, 14, 1, 0);
    with_field(g, 15, p.width, p.value)
}

// The rest at bit offset o: what both kinds have, then a last field of w bits.
fn with_rest(f: [u8; 14], o: usize, header: ArqHeader, w: usize, last: u64) -> [u8; 14]
    requires { (1 ≤ w) × (w ≤ 50) × (o + 11 + w ≤ 112) }
    ensures { Packs result 14 (splice o (layout (rest_of header ++ (w, last) ∷ [])) (bits_of f)) }
{
    let g = with_field(f, o, 11, rest_number(header));
    with_field(g, o + 11, w, last)
}

// The first n bits of the data at bit offset o.
fn with_data(mut f: [u8; 14], o: usize, payload: &[u8], n: usize) -> [u8; 14]
    requires { Run payload.now 0 n × (o + n ≤ 112) }
    ensures { Packs result 14 (splice o (take n (bits_of payload.now)) (bits_of f)) }
{
    field::copy_bits(&mut f, o, payload, 0, n);
    f
}

// The octets of a Begin whose data has room.
pub fn begin(frame: ArqFrame) -> [u8; 14]
    requires { frame.begin_bits ≤ room frame.identity }
    ensures { result ≡ (begin_frame frame).octets }
{
    let p = frame.identity.parts();
    let a = with_header_a([0u8; 14], frame.header);
    let b = with_header_b(a, frame.header, FrameKind::Begin, p.identity_type);
    let c = with_address(b, frame.identity);
    let d = with_rest(
        c,
        15 + p.width,
        frame.header,
        8,
        u64::from(frame.message_octets),
    );
    with_data(
        d,
        34 + p.width,
        &frame.begin_data,
        usize::from(frame.begin_bits),
    )
}

// The octets of a Continue.
pub fn continue_frame(frame: ArqFrame) -> [u8; 14]
    ensures { result ≡ (continue_frame frame).octets }
{
    let a = with_header_a([0u8; 14], frame.header);
    let b = with_header_b(a, frame.header, FrameKind::Continue, frame.identity_type);
    let c = with_rest(b, 14, frame.header, 5, u64::from(frame.frame_number));
    with_data(c, 30, &frame.continue_data, CONTINUE_DATA_BITS)
}
