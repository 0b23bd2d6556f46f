// Calls on frames. The round is the echo of what is cut, and names the octet that is told of each frame.
ghost use Rattle.std.specs.Prelude.{◌<◌, length};

use crate::number;
use arq::{ArqFrame, FrameKind};
use script_codec::operands;
use script_wire::Operands;
use spach::Reader;

fn octet(octets: &[u8], index: u64) -> u64
    requires { index < length octets.now }
{
    u64::from(octets[index as usize])
}

// An octet of the frame as it is encoded.
pub fn told_encoded(frame: &ArqFrame, round: u64) -> u64 {
    match frame.encode() {
        Ok(packed) => octet(&packed.octets, round % 14),
        Err(error) => number(error),
    }
}

// The exclusive or of echo, octet count or number, and an octet of the data.
pub fn told(frame: &ArqFrame, round: u64) -> u64 {
    let (number, octet) = match frame.kind {
        FrameKind::Begin => (frame.message_octets, octet(&frame.begin_data, round % 7)),
        FrameKind::Continue => (frame.frame_number, octet(&frame.continue_data, round % 10)),
    };
    u64::from(frame.header.partial_echo) ^ u64::from(number) ^ octet
}

// The frame operand is read once, and encoded under every echo in turn; nothing, if it names no frame. A kind above 1,
// which a script's operand may not have, is a Continue here.
pub fn encode(operand: &[u8]) -> u64 {
    if operand.len() < 36 {
        return 0;
    }
    let mut octets = [0; 36];
    octets.copy_from_slice(&operand[..36]);
    octets[0] = octets[0].min(1);
    let Ok(mut frame) = operands::frame(&mut Operands::new(&octets)) else {
        return 0;
    };
    let mut sum: u64 = 0;
    for echo in 0..128 {
        frame.header.partial_echo = echo;
        sum = sum.wrapping_add(told_encoded(&frame, u64::from(echo)));
    }
    sum
}

pub fn decode(frame: &[u8], round: u64) -> u64 {
    match arq::read::decode(frame) {
        Ok(frame) => told(&frame, round),
        Err(error) => number(error),
    }
}

// Header A at bit 0 of a frame: the exclusive or of usage, flags and the offset after it.
pub fn header_a(frame: &[u8]) -> u64 {
    if frame.len() != 14 {
        return 0;
    }
    match spach::read_header_a(frame, Reader { offset: 0 }) {
        Ok(header) => {
            let flags = script_leaf::headers::flags_octet(header.flags);
            u64::from(header.channel.usage() ^ flags) ^ header.reader.offset as u64
        }
        Err(error) => number(error),
    }
}

// The address at bit 10 of a frame: the exclusive or of the identity's value, the reservation response and the offset
// after it.
pub fn address(frame: &[u8]) -> u64 {
    if frame.len() != 14 {
        return 0;
    }
    match spach::read_address(frame, Reader { offset: 10 }) {
        Ok(address) => {
            let response = u64::from(address.reservation_response);
            address.identity.parts().value ^ response ^ address.reader.offset as u64
        }
        Err(error) => number(error),
    }
}

// What is told of all frames of the message. The operand is header and identity; nothing, if it names none.
pub fn cut<F>(operand: &[u8], message: &[u8], round: u64, told: F) -> u64
where
    F: Fn(&ArqFrame, u64) -> u64,
    requires { F.IsAlwaysCallable told }
{
    if operand.len() < 14 {
        return 0;
    }
    let mut operands = Operands::new(operand);
    let Ok(mut header) = operands::header(&mut operands) else {
        return 0;
    };
    let Ok(identity) = operands.identity() else {
        return 0;
    };
    header.partial_echo = (round % 128) as u8;
    let count = match arq::cut::fragment_count(header, identity, message) {
        Ok(count) => count,
        Err(error) => return number(error),
    };
    let mut sum: u64 = 0;
    for k in 0..count {
        sum = sum.wrapping_add(match arq::cut::fragment(header, identity, message, k) {
            Ok(frame) => told(&frame, round),
            Err(error) => number(error),
        });
    }
    sum
}
