// HEADER_A and ADDRESS.
ghost use Rattle.std.specs.Prelude.{◌≡◌, length};

use script_wire::{Answer, NO_CALL, Operands, Values};
use spach::{HeaderFlags, Reader};

// The flags in one octet, the protocol's.
pub fn flags_octet(flags: HeaderFlags) -> u8 {
    u8::from(flags.pch_continuation) << 3
        | u8::from(flags.bcch_change) << 2
        | u8::from(flags.paging_frame_modifier) << 1
        | u8::from(flags.reservation_response)
}

pub(crate) fn header_a(mut operands: Operands<'_>) -> Answer<3>
    requires { length operands ≡ 15 }
{
    let offset = usize::from(operands.octet());
    if 105 < offset {
        return Err(NO_CALL);
    }
    let header = spach::read_header_a(operands.slice(14), Reader { offset })?;
    Ok(Values::from([
        header.channel.usage(),
        flags_octet(header.flags),
        script_wire::low(header.reader.offset),
    ]))
}

pub(crate) fn address(mut operands: Operands<'_>) -> Answer<11>
    requires { length operands ≡ 15 }
{
    let offset = usize::from(operands.octet());
    if 57 < offset {
        return Err(NO_CALL);
    }
    let address = spach::read_address(operands.slice(14), Reader { offset })?;
    let mut values = Values::new();
    values.identity(address.identity);
    values.push(u8::from(address.reservation_response));
    values.push(script_wire::low(address.reader.offset));
    Ok(values)
}
