// The loop over a script.
ghost use Rattle.std.specs.Prelude.{◌≡◌, ℕ, ◌+◌, ◌≤◌, ◌<◌, length, drop};

use crate::{Answer, Operands, Refused};

// No operation has this octet.
#[derive(Clone, Copy, Debug, PartialEq, Eq)]
pub struct Unknown;

// An operation, by its octet. Its row of the protocol's table has that octet, and how many octets operands and longest
// answer have. Each crate writes its own: the gate refuses an impl that a macro of the repository writes.
pub trait Operation: TryFrom<u8, Error = Unknown> + Copy {
    ghost row_of: { Self → ℕ × ℕ × ℕ };

    // Octets of operands, and of the longest answer.
    fn shape(self) -> (usize, usize)
        ensures operands { result.0 ≡ (row_of self).1 }
        ensures longest { result.1 ≡ (row_of self).2 };
}

// What a script runs on.
pub trait Machine {
    type Op: Operation;

    // How many octets were answered; all others stay.
    fn run(&mut self, op: Self::Op, operands: Operands<'_>, answers: &mut [u8]) -> usize
        requires operands { length operands ≡ (Self.Op.row_of op).1 }
        requires room { (Self.Op.row_of op).2 ≤ length answers.old }
        ensures some { 1 ≤ result }
        ensures most { result ≤ (Self.Op.row_of op).2 }
        ensures rest { drop result answers.new ≡ drop result answers.old };
}

// How a script ends: at its end, at an operation that lacks operands, at one that is unknown, for want of room.
#[derive(Clone, Copy, Debug, PartialEq, Eq)]
enum End {
    Over = 0xe0,
    Cut = 0xe1,
    Unknown = 0xe2,
    Full = 0xe3,
}

// Puts an answer; how many octets it has. All others stay.
pub fn put<const N: usize>(answers: &mut [u8], answer: Answer<N>) -> usize
    requires { N < length answers.old }
    ensures some { 1 ≤ result }
    ensures most { result ≤ 1 + N }
    ensures rest { drop result answers.new ≡ drop result answers.old }
{
    match answer {
        Ok(values) => {
            answers[0] = 0;
            let octets = values.as_slice();
            let end = 1 + octets.len();
            answers[1..end].copy_from_slice(octets);
            end
        }
        Err(Refused(number)) => {
            answers[0] = number;
            1
        }
    }
}

// How many octets were answered, the end octet with them; all others stay. Nothing is written to a buffer of length 0. An
// operation says how many octets it answered, and they are counted, since the number is the call's result.
pub fn run<M: Machine>(machine: &mut M, script: &[u8], answers: &mut [u8]) -> usize
    ensures within { result ≤ length answers.old }
    ensures rest { drop result answers.new ≡ drop result answers.old }
{
    if answers.is_empty() {
        return 0;
    }
    let mut left = script;
    let mut to: usize = 0;
    let end = loop {
        let Some((octet, rest)) = left.split_first() else {
            break End::Over;
        };
        let Ok(op) = M::Op::try_from(*octet) else {
            break End::Unknown;
        };
        let (operands, longest) = op.shape();
        let Some((operands, rest)) = rest.split_at_checked(operands) else {
            break End::Cut;
        };
        if answers.len() - to <= longest {
            break End::Full;
        }
        left = rest;
        to += machine.run(op, Operands::new(operands), &mut answers[to..]);
    };
    answers[to] = end as u8;
    to + 1
}
