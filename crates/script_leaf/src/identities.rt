// PARTS, CHECK, EQUAL and ACCEPT.
ghost use Rattle.std.specs.Prelude.{◌≡◌, length};

use script_wire::{Answer, Operands, Values};

pub fn parts(mut operands: Operands<'_>) -> Answer<10>
    requires { length operands ≡ 9 }
{
    let parts = operands.identity()?.parts();
    let mut values = Values::new();
    values.push(parts.identity_type);
    values.push(script_wire::low(parts.width));
    values.number(parts.value);
    Ok(values)
}

pub fn check(mut operands: Operands<'_>) -> Answer<0>
    requires { length operands ≡ 9 }
{
    spach::check_identity(operands.identity()?)?;
    Ok(Values::new())
}

pub fn equal(mut operands: Operands<'_>) -> Answer<1>
    requires { length operands ≡ 18 }
{
    let one = operands.identity()?;
    let other = operands.identity()?;
    Ok(Values::flag(one == other))
}

pub fn accept(mut operands: Operands<'_>) -> Answer<9>
    requires { length operands ≡ 9 }
{
    let identity_type = operands.octet();
    let identity = spach::accept_identity(identity_type, operands.eight())?;
    let mut values = Values::new();
    values.identity(identity);
    Ok(values)
}
