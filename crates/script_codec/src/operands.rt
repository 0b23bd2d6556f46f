// Headers and frames as operands.
ghost use Rattle.std.specs.Prelude.{◌≡◌, ◌+◌, ◌≤◌, length, OnOk};

use arq::{ArqFrame, ArqHeader, FrameKind, ResponseMode};
use script_wire::{NO_CALL, Operands, Refused};
use spach::{Channel, HeaderFlags};

// The channel of a usage.
pub fn channel(operands: &mut Operands<'_>) -> Result<Channel, Refused>
    requires { 1 ≤ length operands.old }
    ensures { length operands.old ≡ length operands.new + 1 }
{
    Channel::try_from(u64::from(operands.octet())).map_err(|_| NO_CALL)
}

fn flags(operands: &mut Operands<'_>) -> Result<HeaderFlags, Refused>
    requires { 1 ≤ length operands.old }
    ensures { length operands.old ≡ length operands.new + 1 }
{
    let octet = operands.octet();
    if 15 < octet {
        return Err(NO_CALL);
    }
    Ok(HeaderFlags {
        pch_continuation: octet & 8 != 0,
        bcch_change: octet & 4 != 0,
        paging_frame_modifier: octet & 2 != 0,
        reservation_response: octet & 1 != 0,
    })
}

// As a frame and a transmission have it.
pub fn response_mode(operands: &mut Operands<'_>) -> Result<ResponseMode, Refused>
    requires { 1 ≤ length operands.old }
    ensures { length operands.old ≡ length operands.new + 1 }
{
    operands.either(ResponseMode::Contention, ResponseMode::Reservation)
}

pub fn header(operands: &mut Operands<'_>) -> Result<ArqHeader, Refused>
    requires { 5 ≤ length operands.old }
    ensures { OnOk result (length operands.old ≡ length operands.new + 5) }
{
    Ok(ArqHeader {
        channel: channel(operands)?,
        flags: flags(operands)?,
        partial_echo: operands.octet(),
        polling: operands.flag()?,
        response_mode: response_mode(operands)?,
    })
}

pub fn frame(operands: &mut Operands<'_>) -> Result<ArqFrame, Refused>
    requires { 36 ≤ length operands.old }
    ensures { OnOk result (length operands.old ≡ length operands.new + 36) }
{
    Ok(ArqFrame {
        kind: operands.either(FrameKind::Begin, FrameKind::Continue)?,
        header: header(operands)?,
        identity: operands.identity()?,
        message_octets: operands.octet(),
        begin_bits: operands.octet(),
        begin_data: operands.octets(),
        identity_type: operands.octet(),
        frame_number: operands.octet(),
        continue_data: operands.octets(),
    })
}
