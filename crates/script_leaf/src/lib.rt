// The operations that need nothing kept: on identities, header A and address.
#![tactic(auto)]

pub mod headers;
mod identities;

use script_wire::Operands;
use script_wire::run::{Machine, Operation, Unknown, put};

#[derive(Clone, Copy, Debug, PartialEq, Eq)]
pub enum Op {
    Parts,
    Check,
    Equal,
    Accept,
    HeaderA,
    Address,
}

impl TryFrom<u8> for Op {
    ghost use Rattle.script_wire.specs.Table.{Names};
    ghost use Rattle.script_leaf.specs.Table.{row_of};

    type Error = Unknown;

    ghost try_from_gives = { Names row_of };

    fn try_from(octet: u8) -> Result<Op, Unknown> {
        match octet {
            0x01 => Ok(Op::Parts),
            0x02 => Ok(Op::Check),
            0x03 => Ok(Op::Equal),
            0x04 => Ok(Op::Accept),
            0x05 => Ok(Op::HeaderA),
            0x06 => Ok(Op::Address),
            _ => Err(Unknown),
        }
    }
}

impl Operation for Op {
    ghost use Rattle.script_leaf.specs.Table.{row_of};

    ghost row_of = { row_of };

    fn shape(self) -> (usize, usize) {
        match self {
            Op::Parts => (9, 11),
            Op::Check => (9, 1),
            Op::Equal => (18, 2),
            Op::Accept => (9, 10),
            Op::HeaderA => (15, 4),
            Op::Address => (15, 12),
        }
    }
}

// Keeps nothing.
#[derive(Clone, Copy, Debug, PartialEq, Eq)]
pub struct Leaf;

impl Machine for Leaf {
    type Op = Op;

    // A match: each operation has operands and an answer of its own.
    fn run(&mut self, op: Op, operands: Operands<'_>, answers: &mut [u8]) -> usize {
        match op {
            Op::Parts => put(answers, identities::parts(operands)),
            Op::Check => put(answers, identities::check(operands)),
            Op::Equal => put(answers, identities::equal(operands)),
            Op::Accept => put(answers, identities::accept(operands)),
            Op::HeaderA => put(answers, headers::header_a(operands)),
            Op::Address => put(answers, headers::address(operands)),
        }
    }
}
