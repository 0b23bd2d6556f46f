// The operations on the store of 64 octets.
#![tactic(auto)]

ghost use Rattle.std.specs.Prelude.{◌≡◌, ◌+◌, ◌≤◌, length, replicate, IfOk, OnErr};

use script_wire::run::{Machine, Operation, Unknown, put};
use script_wire::{Answer, NO_CALL, Operands, Refused, Values};
use spach::{Reader, SpachError};

#[derive(Clone, Copy, Debug, PartialEq, Eq)]
pub enum Op {
    Take,
    Put,
    Fill,
    Dump,
    Copy,
}

impl TryFrom<u8> for Op {
    ghost use Rattle.script_wire.specs.Table.{Names};
    ghost use Rattle.script_store.specs.Table.{row_of};

    type Error = Unknown;

    ghost try_from_gives = { Names row_of };

    fn try_from(octet: u8) -> Result<Op, Unknown> {
        match octet {
            0x07 => Ok(Op::Take),
            0x08 => Ok(Op::Put),
            0x09 => Ok(Op::Fill),
            0x0a => Ok(Op::Dump),
            0x0b => Ok(Op::Copy),
            _ => Err(Unknown),
        }
    }
}

impl Operation for Op {
    ghost use Rattle.script_store.specs.Table.{row_of};

    ghost row_of = { row_of };

    fn shape(self) -> (usize, usize) {
        match self {
            Op::Take => (3, 11),
            Op::Put => (11, 1),
            Op::Fill => (9, 1),
            Op::Dump => (0, 65),
            Op::Copy => (6, 1),
        }
    }
}

// The offset and width of a field of the store: no call if the width is not 1 to 50, refused if it runs past the end.
fn field_at(operands: &mut Operands<'_>) -> Result<(usize, usize), Refused>
    requires { 3 ≤ length operands.old }
    ensures left { length operands.old ≡ length operands.new + 3 }
    ensures placed { IfOk result (λ f. (1 ≤ f.1) × (f.1 ≤ 50) × (f.0 + f.1 ≤ 512)) }
{
    let offset = usize::from(operands.two());
    let width = usize::from(operands.octet());
    if width < 1 || 50 < width {
        return Err(NO_CALL);
    }
    if 512 < offset + width {
        return Err(SpachError::Length.into());
    }
    Ok((offset, width))
}

// FILL and MESSAGE: octets 8k to 8k + 7 of the memory.
pub fn fill(memory: &mut [u8], mut operands: Operands<'_>) -> Answer<0>
    requires { length operands ≡ 9 }
    ensures { OnErr result (memory.new ≡ memory.old) }
{
    let at = 8 * usize::from(operands.octet());
    if memory.len() < at + 8 {
        return Err(NO_CALL);
    }
    memory[at..at + 8].copy_from_slice(&operands.octets::<8>());
    Ok(Values::new())
}

// The protocol's size.
#[derive(Clone, Copy, Debug, PartialEq, Eq)]
pub struct Store {
    octets: [u8; 64],
}

impl Store {
    // Of zeros.
    pub fn new() -> Store
        ensures { result.octets ≡ replicate 64 0 }
    {
        Store { octets: [0; 64] }
    }

    fn take(&self, mut operands: Operands<'_>) -> Answer<10>
        requires { length operands ≡ 3 }
    {
        let (offset, width) = field_at(&mut operands)?;
        let (value, reader) = Reader { offset }.take(&self.octets, width);
        let mut values = Values::new();
        values.number(value);
        values.extend(&(reader.offset as u16).to_be_bytes());
        Ok(values)
    }

    fn put(&mut self, mut operands: Operands<'_>) -> Answer<0>
        requires { length operands ≡ 11 }
    {
        let (offset, width) = field_at(&mut operands)?;
        field::write_field(&mut self.octets, offset, width, operands.eight());
        Ok(Values::new())
    }

    // The bits as they were: the two runs may overlap.
    fn copy(&mut self, mut operands: Operands<'_>) -> Answer<0>
        requires { length operands ≡ 6 }
    {
        let to = usize::from(operands.two());
        let from = usize::from(operands.two());
        let count = usize::from(operands.two());
        if 512 < to + count || 512 < from + count {
            return Err(SpachError::Length.into());
        }
        let old = self.octets;
        field::copy_bits(&mut self.octets, to, &old, from, count);
        Ok(Values::new())
    }
}

impl Machine for Store {
    type Op = Op;

    // A match: each operation has operands and an answer of its own.
    fn run(&mut self, op: Op, operands: Operands<'_>, answers: &mut [u8]) -> usize {
        match op {
            Op::Take => put(answers, self.take(operands)),
            Op::Put => put(answers, self.put(operands)),
            Op::Fill => put(answers, fill(&mut self.octets, operands)),
            Op::Dump => put(answers, Ok(Values::from(self.octets))),
            Op::Copy => put(answers, self.copy(operands)),
        }
    }
}
