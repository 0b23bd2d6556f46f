// What a push makes of the frame that it heard.
// Ported from link/spach/arq/receiver.rs (chrismoos/136-bts 7c60b63bf4, Apache-2.0) and changed: see NOTICE.
ghost use Rattle.std.specs.Prelude.{◌≡◌, ◌≤◌, length};
ghost use Rattle.receiver.specs.Receiver.{finish, push_frame, pushed};

use super::{ArqReassembler, Reception, Transaction, message};
use arq::{ArqFrame, FrameKind};
use rach::MobileIdentity;
use spach::SpachError;

// After an accepted frame: its status if polled; the message, once, when it is complete.
#[tactic(auto, unfolding(crate::specs::Receiver::finish))]
fn finish(
    frame: ArqFrame,
    identity: MobileIdentity,
    mut t: Transaction,
    buffer: &mut [u8],
) -> (ArqReassembler, Result<Reception, SpachError>)
    requires { 255 ≤ length buffer.old }
    ensures { pushed result buffer.new ≡ finish frame identity t buffer.old }
{
    let status_request = t.status_request(frame.header);
    let message = if t.is_due(identity) {
        let delivered = message::deliver(identity, &t, buffer);
        t.delivered = true;
        Some(delivered)
    } else {
        None
    };
    let after = ArqReassembler {
        identity,
        transaction: Some(t),
    };
    (
        after,
        Ok(Reception::Accepted {
            message,
            status_request,
        }),
    )
}

// A frame that was heard: foreign ones are Ignored, and a refusal changes nothing. Room for 255 octets is asked for here and
// below, and no `[u8; 255]` taken: what is said of the octets behind it is said of the whole buffer.
#[tactic(auto, using(rach::proofs::Laws::eq_same), unfolding(crate::specs::Receiver::push_frame))]
pub fn push_frame(
    s: ArqReassembler,
    frame: ArqFrame,
    buffer: &mut [u8],
) -> (ArqReassembler, Result<Reception, SpachError>)
    requires { 255 ≤ length buffer.old }
    ensures { pushed result buffer.new ≡ push_frame s buffer.old frame }
{
    let accepted = match (frame.kind, s.transaction) {
        (FrameKind::Begin, _) if frame.identity == s.identity => Ok(Transaction::begun_by(frame)),
        (FrameKind::Continue, Some(t)) if t.owns(s.identity, frame) => {
            t.continued_by(s.identity, frame)
        }
        _ => return (s, Ok(Reception::Ignored)),
    };
    match accepted {
        Ok(t) => finish(frame, s.identity, t, buffer),
        Err(error) => (s, Err(error)),
    }
}
