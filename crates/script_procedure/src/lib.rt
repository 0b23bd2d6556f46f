// The operations on a procedure.
#![tactic(auto)]

pub mod values;

ghost use Rattle.std.specs.Prelude.{◌≡◌, ◌≤◌, length, drop, IfSome, None};
ghost use Rattle.procedure.specs.Procedure.{Sound};
ghost use Rattle.script_procedure.specs.Table.{row_of};

use procedure::ArqProcedure;
use script_inactivity::{put_timer, status_result};
use script_receiver::filled;
use script_receiver::values::put_status;
use script_wire::run::{Machine, Operation, Unknown, put};
use script_wire::{Answer, NO_CALL, Operands, Values, keep};
use std::marker::Model;

#[derive(Clone, Copy, Debug, PartialEq, Eq)]
pub enum Op {
    New,
    Reset,
    Active,
    Receive,
    Advance,
    Sent,
    State,
}

impl TryFrom<u8> for Op {
    ghost use Rattle.script_wire.specs.Table.{Names};
    ghost use Rattle.script_procedure.specs.Table.{row_of};

    type Error = Unknown;

    ghost try_from_gives = { Names row_of };

    fn try_from(octet: u8) -> Result<Op, Unknown> {
        match octet {
            0x20 => Ok(Op::New),
            0x21 => Ok(Op::Reset),
            0x22 => Ok(Op::Active),
            0x23 => Ok(Op::Receive),
            0x24 => Ok(Op::Advance),
            0x25 => Ok(Op::Sent),
            0x26 => Ok(Op::State),
            _ => Err(Unknown),
        }
    }
}

impl Operation for Op {
    ghost use Rattle.script_procedure.specs.Table.{row_of};

    ghost row_of = { row_of };

    fn shape(self) -> (usize, usize) {
        match self {
            Op::New => (17, 1),
            Op::Reset => (0, 1),
            Op::Active => (0, 2),
            Op::Receive => (44, 336),
            Op::Advance => (8, 19),
            Op::Sent => (25, 2),
            Op::State => (0, 42),
        }
    }
}

// A script's procedure, if it has one: a Sound one, since the constructor and the calls made it.
#[derive(Clone, Copy, Debug, PartialEq, Eq)]
pub struct Procedure {
    held: Option<ArqProcedure>,
}

impl Model for Procedure {
    ghost use Rattle.std.specs.Prelude.{IfSome};
    ghost use Rattle.procedure.specs.Procedure.{Sound};
    ghost use Rattle.script_procedure.specs.Held.{Held};

    ghost Value = { Held };

    ghost view = { λ m. record { held = m.held } };

    ghost invariant = { λ m. IfSome m.held Sound };

    ghost inverse = { λ m. record { held = m.held } };
}

impl Procedure {
    pub fn new() -> Procedure
        ensures { result.held ≡ None }
    {
        Procedure { held: None }
    }

    // A refusal leaves none.
    fn make(&mut self, mut operands: Operands<'_>) -> Answer<0>
        requires { length operands ≡ 17 }
        ensures { IfSome self.old.held Sound → IfSome self.new.held Sound }
    {
        let identity = operands.identity()?;
        self.held = None;
        self.held = Some(ArqProcedure::try_new(identity, operands.eight())?);
        Ok(Values::new())
    }

    fn reset(&mut self) -> Answer<0>
        ensures { IfSome self.old.held Sound → IfSome self.new.held Sound }
    {
        let held = self.held.ok_or(NO_CALL)?;
        keep(&mut self.held, held.reset())?;
        Ok(Values::new())
    }

    fn active(&self) -> Answer<1> {
        Ok(Values::flag(self.held.ok_or(NO_CALL)?.active()))
    }

    // The whole buffer after the event.
    fn receive(&mut self, mut operands: Operands<'_>) -> Answer<335>
        requires { length operands ≡ 44 }
        ensures { IfSome self.old.held Sound → IfSome self.new.held Sound }
    {
        let held = self.held.ok_or(NO_CALL)?;
        let block = operands.eight();
        let octets = operands.frame()?;
        let room = operands.length()?;
        let mut buffer = filled(room, operands.octet());
        let event = keep(
            &mut self.held,
            held.receive(block, octets, &mut buffer[..room]),
        )?;
        let mut values = Values::new();
        values::put_receive(&mut values, event);
        values.extend(&buffer);
        Ok(values)
    }

    fn advance(&mut self, mut operands: Operands<'_>) -> Answer<18>
        requires { length operands ≡ 8 }
        ensures { IfSome self.old.held Sound → IfSome self.new.held Sound }
    {
        let held = self.held.ok_or(NO_CALL)?;
        let event = keep(&mut self.held, held.advance(operands.eight()))?;
        Ok(values::timer_values(event))
    }

    // Events are in the protocol's order.
    fn sent(&mut self, mut operands: Operands<'_>) -> Answer<1>
        requires { length operands ≡ 25 }
        ensures { IfSome self.old.held Sound → IfSome self.new.held Sound }
    {
        let held = self.held.ok_or(NO_CALL)?;
        let block = operands.eight();
        let transmission = values::transmission(&mut operands)?;
        let res = status_result(&mut operands)?;
        let event = keep(&mut self.held, held.status_sent(block, transmission, res))?;
        Ok(Values::from([event as u8]))
    }

    fn state(&self) -> Answer<41> {
        let held = self.held.ok_or(NO_CALL)?;
        let receiver = held.receiver();
        let mut values = Values::new();
        put_timer(&mut values, held.inactivity());
        put_status(&mut values, receiver.status());
        values.push(u8::from(receiver.complete()));
        Ok(values)
    }
}

impl Machine for Procedure {
    type Op = Op;

    // A match: each operation has operands and an answer of its own.
    fn run(&mut self, op: Op, operands: Operands<'_>, answers: &mut [u8]) -> usize
        requires operands { length operands ≡ (row_of op).1 }
        requires room { (row_of op).2 ≤ length answers.old }
        ensures some { 1 ≤ result }
        ensures most { result ≤ (row_of op).2 }
        ensures rest { drop result answers.new ≡ drop result answers.old }
        ensures sound { IfSome self.old.held Sound → IfSome self.new.held Sound }
    {
        match op {
            Op::New => put(answers, self.make(operands)),
            Op::Reset => put(answers, self.reset()),
            Op::Active => put(answers, self.active()),
            Op::Receive => put(answers, self.receive(operands)),
            Op::Advance => put(answers, self.advance(operands)),
            Op::Sent => put(answers, self.sent(operands)),
            Op::State => put(answers, self.state()),
        }
    }
}
