// The port's side of the differential test: runs a script of operations and answers in octets.
#![tactic(auto)]

ghost use Rattle.std.specs.Prelude.{◌≡◌, ◌≤◌, length, drop};

use script_codec::Message;
use script_inactivity::Timer;
use script_leaf::Leaf;
use script_procedure::Procedure;
use script_receiver::Receiver;
use script_store::Store;
use script_wire::Operands;
use script_wire::run::{Machine, Operation, Unknown};

#[derive(Clone, Copy, Debug, PartialEq, Eq)]
pub enum Op {
    Leaf(script_leaf::Op),
    Store(script_store::Op),
    Message(script_codec::Op),
    Receiver(script_receiver::Op),
    Timer(script_inactivity::Op),
    Procedure(script_procedure::Op),
}

impl TryFrom<u8> for Op {
    ghost use Rattle.script_wire.specs.Table.{Names};
    ghost use Rattle.script.specs.Table.{row_of};

    type Error = Unknown;

    ghost try_from_gives = { Names row_of };

    fn try_from(octet: u8) -> Result<Op, Unknown> {
        match octet {
            ..0x07 => Ok(Op::Leaf(script_leaf::Op::try_from(octet)?)),
            ..0x0c => Ok(Op::Store(script_store::Op::try_from(octet)?)),
            ..0x11 => Ok(Op::Message(script_codec::Op::try_from(octet)?)),
            ..0x16 => Ok(Op::Receiver(script_receiver::Op::try_from(octet)?)),
            ..0x20 => Ok(Op::Timer(script_inactivity::Op::try_from(octet)?)),
            _ => Ok(Op::Procedure(script_procedure::Op::try_from(octet)?)),
        }
    }
}

impl Operation for Op {
    ghost use Rattle.script.specs.Table.{row_of};

    ghost row_of = { row_of };

    fn shape(self) -> (usize, usize) {
        match self {
            Op::Leaf(op) => op.shape(),
            Op::Store(op) => op.shape(),
            Op::Message(op) => op.shape(),
            Op::Receiver(op) => op.shape(),
            Op::Timer(op) => op.shape(),
            Op::Procedure(op) => op.shape(),
        }
    }
}

// A store and a message of zeros at first, without a receiver, a timer or a procedure. Each is apart from the others.
#[derive(Clone, Copy)]
struct Script {
    leaf: Leaf,
    store: Store,
    message: Message,
    receiver: Receiver,
    timer: Timer,
    procedure: Procedure,
}

impl Machine for Script {
    type Op = Op;

    // A match: each operation has operands and an answer of its own.
    fn run(&mut self, op: Op, operands: Operands<'_>, answers: &mut [u8]) -> usize {
        match op {
            Op::Leaf(op) => self.leaf.run(op, operands, answers),
            Op::Store(op) => self.store.run(op, operands, answers),
            Op::Message(op) => self.message.run(op, operands, answers),
            Op::Receiver(op) => self.receiver.run(op, operands, answers),
            Op::Timer(op) => self.timer.run(op, operands, answers),
            Op::Procedure(op) => self.procedure.run(op, operands, answers),
        }
    }
}

// The protocol's call: how many octets it wrote; it writes no other octet of the buffer.
pub fn script_run(script: &[u8], answers: &mut [u8]) -> usize
    ensures { (result ≤ length answers.old) × (drop result answers.new ≡ drop result answers.old) }
{
    let mut machine = Script {
        leaf: Leaf,
        store: Store::new(),
        message: Message::new(),
        receiver: Receiver::new(),
        timer: Timer::new(),
        procedure: Procedure::new(),
    };
    script_wire::run::run(&mut machine, script, answers)
}
