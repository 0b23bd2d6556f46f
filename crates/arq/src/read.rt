// Decode, in document 01's order: header A, kind, address, the rest, the data.
// Ported from link/spach/arq.rs (chrismoos/136-bts 7c60b63bf4, Apache-2.0) and changed: see NOTICE.
ghost use Rattle.std.specs.Prelude.{◌≡◌, not, ◌+◌, ◌≤◌, eqb, take, drop};
ghost use Rattle.field.specs.Bits.{bits_of, octets as octets_of};
ghost use Rattle.field.specs.Spans.{Run};
ghost use Rattle.field.specs.Layout.{up_to};
ghost use Rattle.spach.specs.Refusal.{number_of, by_number};
ghost use Rattle.arq.specs.Frame.{room};
ghost use Rattle.arq.specs.Decode.{mode_at, decode_of};
ghost use Rattle.arq.specs.Parts.{header_at, decode_begin, decode_continue, decode_kind, decode_usage};

use super::{
    ArqFrame, ArqHeader, BEGIN, CONTINUE, CONTINUE_DATA_BITS, INFORMATION_BITS, ResponseMode,
    check, frame,
};
use spach::{Address, Channel, HeaderA, HeaderFlags, Reader, SpachError};

// What the standard's bit says. A field that was read is a number, and every number says one: so it is no `TryFrom`.
fn mode_of(bit: u64) -> ResponseMode
    ensures { result ≡ mode_at (not (eqb bit 0)) }
{
    if bit != 0 {
        ResponseMode::Reservation
    } else {
        ResponseMode::Contention
    }
}

// The rest at bit offset o, which both kinds have, taken as one number.
fn read_header(octets: &[u8], a: HeaderA, response: bool, o: usize) -> ArqHeader
    requires { Run octets.now o 11 }
    ensures { result ≡ header_at a response o (bits_of octets.now) }
{
    let bits = field::read_field(octets, o, 11);
    ArqHeader {
        channel: a.channel,
        flags: HeaderFlags {
            reservation_response: response,
            ..a.flags
        },
        partial_echo: (bits / 16 % 128) as u8,
        polling: bits / 2 % 2 != 0,
        response_mode: mode_of(bits % 2),
    }
}

// A Begin after its address.
fn decode_begin(octets: &[u8; 14], a: HeaderA, address: Address) -> Result<ArqFrame, SpachError>
    requires ends { address.reader.offset + 19 + room address.identity ≡ 109 }
    requires early { address.reader.offset ≤ 65 }
    ensures { by_number number_of result ≡ decode_begin a (bits_of octets.now) address }
{
    let o = address.reader.offset;
    if field::read_field(octets, o + 7, 2) != 0 {
        return Err(SpachError::Reserved);
    }
    let n = field::read_field(octets, o + 11, 8) as u8;
    let room = check::room_of(address.identity);
    if check::filler_set(octets, o + 19, room, 8 * usize::from(n)) {
        return Err(SpachError::Filler);
    }
    let header = read_header(octets, a, address.reservation_response, o);
    let data = frame::data_octets(octets, o + 19, room);
    Ok(frame::a_begin(header, address.identity, n, room as u8, data))
}

// A Continue's data, as eight octets and two. The compiler holds these as two numbers; ten octets, which `copy_bits` writes
// eight at a time, it holds in memory, where the second write waits for the first.
fn continue_data(octets: &[u8; 14]) -> [u8; 10]
    ensures { result ≡ octets_of 10 (up_to 80 (take 79 (drop 30 (bits_of octets.now)))) }
{
    let front: [u8; 8] = frame::data_octets(octets, 30, 64);
    let rest: [u8; 2] = frame::data_octets(octets, 94, CONTINUE_DATA_BITS - 64);
    let mut data = [0u8; 10];
    data[..8].copy_from_slice(&front);
    data[8..].copy_from_slice(&rest);
    data
}

// A Continue after its kind. The bit after its identity type is skipped.
fn decode_continue(octets: &[u8; 14], a: HeaderA) -> Result<ArqFrame, SpachError>
    ensures { by_number number_of result ≡ decode_continue a (bits_of octets.now) }
{
    if field::read_field(octets, 21, 2) != 0 {
        return Err(SpachError::Reserved);
    }
    let k = field::read_field(octets, 25, 5);
    if 25 < k {
        return Err(SpachError::FrameNumber);
    }
    let identity_type = field::read_field(octets, 10, 2);
    let response = field::read_field(octets, 13, 1);
    let header = read_header(octets, a, response != 0, 14);
    Ok(frame::a_continue(header, identity_type as u8, k as u8, continue_data(octets)))
}

// By kind: Begin 5, Continue 6.
fn decode_kind(octets: &[u8; 14], a: HeaderA) -> Result<ArqFrame, SpachError>
    ensures { by_number number_of result ≡ decode_kind a (bits_of octets.now) }
{
    match field::read_field(octets, 7, 3) {
        BEGIN => {
            let address = spach::read_address(octets, Reader { offset: 10 })?;
            decode_begin(octets, a, address)
        }
        CONTINUE => decode_continue(octets, a),
        _ => Err(SpachError::UnsupportedFrame),
    }
}

// Pch 3, after the fourth flag.
fn decode_usage(octets: &[u8; 14], a: HeaderA) -> Result<ArqFrame, SpachError>
    ensures { by_number number_of result ≡ decode_usage a (bits_of octets.now) }
{
    if a.channel == Channel::Pch {
        return Err(SpachError::UnsupportedUsage);
    }
    decode_kind(octets, a)
}

// The frame that these octets are, of any length, or a refusal.
pub fn decode(octets: &[u8]) -> Result<ArqFrame, SpachError>
    ensures { by_number number_of result ≡ decode_of octets.now }
{
    let Ok(octets) = <&[u8; 14]>::try_from(octets) else {
        return Err(SpachError::Length);
    };
    if field::read_field(octets, INFORMATION_BITS, 3) != 0 {
        return Err(SpachError::Padding);
    }
    let a = spach::read_header_a(octets, Reader { offset: 0 })?;
    decode_usage(octets, a)
}
