// Transmissions and events as operands and as values of an answer: zeros for what there is not.
ghost use Rattle.std.specs.Prelude.{◌≡◌, ◌+◌, ◌≤◌, length, OnOk};

use inactivity::TransactionToken;
use procedure::{ReceiveEvent, StatusKind, StatusTransmission, TimerEvent};
use receiver::{ArqStatus, StatusRequest};
use script_receiver::values::{put_message, put_status};
use script_wire::{Operands, Refused, Values};

pub fn transmission(operands: &mut Operands<'_>) -> Result<StatusTransmission, Refused>
    requires { 16 ≤ length operands.old }
    ensures { OnOk result (length operands.old ≡ length operands.new + 16) }
{
    let status = ArqStatus {
        partial_echo: operands.octet(),
        received_frames: operands.four(),
    };
    let response_mode = script_codec::operands::response_mode(operands)?;
    Ok(StatusTransmission {
        request: StatusRequest {
            status,
            response_mode,
        },
        token: TransactionToken(operands.eight()),
        kind: operands.either(StatusKind::Solicited, StatusKind::Unsolicited)?,
        complete_at_poll: operands.flag()?,
    })
}

// Mode and kind are in the protocol's order.
fn put_transmission<const N: usize>(
    values: &mut Values<N>,
    transmission: Option<StatusTransmission>,
)
    requires { length values.old + 17 ≤ N }
    ensures { length values.new ≡ length values.old + 17 }
{
    let Some(transmission) = transmission else {
        return values.extend(&[0; 17]);
    };
    let request = transmission.request;
    put_status(values, Some(request.status));
    values.push(request.response_mode as u8);
    values.number(transmission.token.0);
    values.push(transmission.kind as u8);
    values.push(u8::from(transmission.complete_at_poll));
}

pub fn put_receive<const N: usize>(values: &mut Values<N>, event: ReceiveEvent)
    requires { length values.old + 31 ≤ N }
    ensures { length values.new ≡ length values.old + 31 }
{
    let ReceiveEvent::Accepted { message, status } = event else {
        return values.extend(&[0; 31]);
    };
    values.push(1);
    put_message(values, message);
    put_transmission(values, status);
}

pub fn timer_values(event: TimerEvent) -> Values<18>
    ensures { length result ≡ 18 }
{
    let (kind, status) = match event {
        TimerEvent::None => (0, None),
        TimerEvent::SendStatus(status) => (1, Some(status)),
        TimerEvent::Terminated => (2, None),
    };
    let mut values = Values::new();
    values.push(kind);
    put_transmission(&mut values, status);
    values
}
