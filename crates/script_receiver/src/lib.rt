// The operations on a receiver.
#![tactic(auto)]

pub mod values;

ghost use Rattle.std.specs.Prelude.{◌≡◌, ◌≤◌, length, None};

use receiver::ArqReassembler;
use script_wire::run::{Machine, Operation, Unknown, put};
use script_wire::{Answer, NO_CALL, Operands, Values, keep};

#[derive(Clone, Copy, Debug, PartialEq, Eq)]
pub enum Op {
    New,
    Push,
    Reset,
    Status,
    Complete,
}

impl TryFrom<u8> for Op {
    ghost use Rattle.script_wire.specs.Table.{Names};
    ghost use Rattle.script_receiver.specs.Table.{row_of};

    type Error = Unknown;

    ghost try_from_gives = { Names row_of };

    fn try_from(octet: u8) -> Result<Op, Unknown> {
        match octet {
            0x11 => Ok(Op::New),
            0x12 => Ok(Op::Push),
            0x13 => Ok(Op::Reset),
            0x14 => Ok(Op::Status),
            0x15 => Ok(Op::Complete),
            _ => Err(Unknown),
        }
    }
}

impl Operation for Op {
    ghost use Rattle.script_receiver.specs.Table.{row_of};

    ghost row_of = { row_of };

    fn shape(self) -> (usize, usize) {
        match self {
            Op::New => (9, 1),
            Op::Push => (36, 327),
            Op::Reset => (0, 1),
            Op::Status => (0, 7),
            Op::Complete => (0, 2),
        }
    }
}

// A buffer whose first octets, so many as there is room, are the filling.
pub fn filled(room: usize, filling: u8) -> [u8; 304]
    requires { room ≤ 304 }
{
    let mut buffer = [0; 304];
    buffer[..room].fill(filling);
    buffer
}

// A script's receiver, if it has one.
#[derive(Clone, Copy)]
pub struct Receiver {
    held: Option<ArqReassembler>,
}

impl Receiver {
    pub fn new() -> Receiver
        ensures { result.held ≡ None }
    {
        Receiver { held: None }
    }

    // A refusal leaves none.
    fn make(&mut self, mut operands: Operands<'_>) -> Answer<0>
        requires { length operands ≡ 9 }
    {
        let identity = operands.identity()?;
        self.held = None;
        self.held = Some(ArqReassembler::try_new(identity)?);
        Ok(Values::new())
    }

    // The whole buffer after the reception.
    fn push(&mut self, mut operands: Operands<'_>) -> Answer<326>
        requires { length operands ≡ 36 }
    {
        let held = self.held.ok_or(NO_CALL)?;
        let octets = operands.frame()?;
        let room = operands.length()?;
        let mut buffer = filled(room, operands.octet());
        let reception = keep(&mut self.held, held.push(octets, &mut buffer[..room]))?;
        let mut values = Values::new();
        values::put_reception(&mut values, reception);
        values.extend(&buffer);
        Ok(values)
    }

    fn reset(&mut self) -> Answer<0> {
        self.held = Some(self.held.ok_or(NO_CALL)?.reset());
        Ok(Values::new())
    }

    fn status(&self) -> Answer<6> {
        let mut values = Values::new();
        values::put_status(&mut values, self.held.ok_or(NO_CALL)?.status());
        Ok(values)
    }

    fn complete(&self) -> Answer<1> {
        Ok(Values::flag(self.held.ok_or(NO_CALL)?.complete()))
    }
}

impl Machine for Receiver {
    type Op = Op;

    // A match: each operation has operands and an answer of its own.
    fn run(&mut self, op: Op, operands: Operands<'_>, answers: &mut [u8]) -> usize {
        match op {
            Op::New => put(answers, self.make(operands)),
            Op::Push => put(answers, self.push(operands)),
            Op::Reset => put(answers, self.reset()),
            Op::Status => put(answers, self.status()),
            Op::Complete => put(answers, self.complete()),
        }
    }
}
