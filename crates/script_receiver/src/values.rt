// Receptions as values of an answer: zeros for what there is not. Each has values of its own, so that a method that puts them
// or zeros, by a closure, would say no more.
ghost use Rattle.std.specs.Prelude.{◌≡◌, ◌+◌, ◌≤◌, length};

use receiver::{ArqStatus, Reception, SingleMessage, StatusRequest};
use script_wire::Values;

pub fn put_message<const N: usize>(values: &mut Values<N>, message: Option<SingleMessage>)
    requires { length values.old + 13 ≤ N }
    ensures { length values.new ≡ length values.old + 13 }
{
    let Some(message) = message else {
        return values.extend(&[0; 13]);
    };
    values.push(1);
    values.push(message.channel.usage());
    values.push(script_leaf::headers::flags_octet(message.flags));
    values.identity(message.identity);
    values.push(script_wire::low(message.length));
}

pub fn put_status<const N: usize>(values: &mut Values<N>, status: Option<ArqStatus>)
    requires { length values.old + 6 ≤ N }
    ensures { length values.new ≡ length values.old + 6 }
{
    let Some(status) = status else {
        return values.extend(&[0; 6]);
    };
    values.push(1);
    values.push(status.partial_echo);
    values.extend(&status.received_frames.to_be_bytes());
}

// The mode is in the protocol's order; an octet of padding is last.
fn put_request<const N: usize>(values: &mut Values<N>, request: Option<StatusRequest>)
    requires { length values.old + 8 ≤ N }
    ensures { length values.new ≡ length values.old + 8 }
{
    let Some(request) = request else {
        return values.extend(&[0; 8]);
    };
    put_status(values, Some(request.status));
    values.push(request.response_mode as u8);
    values.push(0);
}

pub fn put_reception<const N: usize>(values: &mut Values<N>, reception: Reception)
    requires { length values.old + 22 ≤ N }
    ensures { length values.new ≡ length values.old + 22 }
{
    let Reception::Accepted {
        message,
        status_request,
    } = reception
    else {
        return values.extend(&[0; 22]);
    };
    values.push(1);
    put_message(values, message);
    put_request(values, status_request);
}
