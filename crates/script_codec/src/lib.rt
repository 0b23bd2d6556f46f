// The operations on frames, and on a message and its cut.
#![tactic(auto)]

pub mod operands;

ghost use Rattle.std.specs.Prelude.{◌≡◌, length, replicate};

use arq::ArqFrame;
use script_wire::run::{Machine, Operation, Unknown, put};
use script_wire::{Answer, Operands, Values};

#[derive(Clone, Copy, Debug, PartialEq, Eq)]
pub enum Op {
    Encode,
    Decode,
    Message,
    Count,
    Frame,
}

impl TryFrom<u8> for Op {
    ghost use Rattle.script_wire.specs.Table.{Names};
    ghost use Rattle.script_codec.specs.Table.{row_of};

    type Error = Unknown;

    ghost try_from_gives = { Names row_of };

    fn try_from(octet: u8) -> Result<Op, Unknown> {
        match octet {
            0x0c => Ok(Op::Encode),
            0x0d => Ok(Op::Decode),
            0x0e => Ok(Op::Message),
            0x0f => Ok(Op::Count),
            0x10 => Ok(Op::Frame),
            _ => Err(Unknown),
        }
    }
}

impl Operation for Op {
    ghost use Rattle.script_codec.specs.Table.{row_of};

    ghost row_of = { row_of };

    fn shape(self) -> (usize, usize) {
        match self {
            Op::Encode => (36, 15),
            Op::Decode => (33, 37),
            Op::Message => (9, 1),
            Op::Count => (16, 2),
            Op::Frame => (18, 37),
        }
    }
}

// Kind and mode are in the protocol's order. (One array: octets that are pushed one by one are stored so, and a copy of them
// all waits for each.)
fn frame_values(frame: ArqFrame) -> Values<36> {
    let header = frame.header;
    let mut octets = [0u8; 36];
    octets[0] = frame.kind as u8;
    octets[1] = header.channel.usage();
    octets[2] = script_leaf::headers::flags_octet(header.flags);
    octets[3] = header.partial_echo;
    octets[4] = u8::from(header.polling);
    octets[5] = header.response_mode as u8;
    let parts = frame.identity.parts();
    octets[6] = parts.identity_type;
    octets[7..15].copy_from_slice(&parts.value.to_be_bytes());
    octets[15] = frame.message_octets;
    octets[16] = frame.begin_bits;
    octets[17..24].copy_from_slice(&frame.begin_data);
    octets[24] = frame.identity_type;
    octets[25] = frame.frame_number;
    octets[26..].copy_from_slice(&frame.continue_data);
    Values::from(octets)
}

fn encode(mut operands: Operands<'_>) -> Answer<14>
    requires { length operands ≡ 36 }
{
    let packed = operands::frame(&mut operands)?.encode()?;
    Ok(Values::from(packed.octets))
}

fn decode(mut operands: Operands<'_>) -> Answer<36>
    requires { length operands ≡ 33 }
{
    Ok(frame_values(arq::read::decode(operands.frame()?)?))
}

// As many octets as the protocol has room for; an operation says how many of them are a message.
#[derive(Clone, Copy, Debug, PartialEq, Eq)]
pub struct Message {
    octets: [u8; 304],
}

impl Message {
    // Of zeros.
    pub fn new() -> Message
        ensures { result.octets ≡ replicate 304 0 }
    {
        Message { octets: [0; 304] }
    }

    fn count(&self, mut operands: Operands<'_>) -> Answer<1>
        requires { length operands ≡ 16 }
    {
        let header = operands::header(&mut operands)?;
        let identity = operands.identity()?;
        let length = operands.length()?;
        let count = arq::cut::fragment_count(header, identity, &self.octets[..length])?;
        Ok(Values::from([script_wire::low(count)]))
    }

    fn frame(&self, mut operands: Operands<'_>) -> Answer<36>
        requires { length operands ≡ 18 }
    {
        let header = operands::header(&mut operands)?;
        let identity = operands.identity()?;
        let length = operands.length()?;
        let k = usize::from(operands.two());
        let frame = arq::cut::fragment(header, identity, &self.octets[..length], k)?;
        Ok(frame_values(frame))
    }
}

impl Machine for Message {
    type Op = Op;

    // A match: each operation has operands and an answer of its own.
    fn run(&mut self, op: Op, operands: Operands<'_>, answers: &mut [u8]) -> usize {
        match op {
            Op::Encode => put(answers, encode(operands)),
            Op::Decode => put(answers, decode(operands)),
            Op::Message => put(answers, script_store::fill(&mut self.octets, operands)),
            Op::Count => put(answers, self.count(operands)),
            Op::Frame => put(answers, self.frame(operands)),
        }
    }
}
