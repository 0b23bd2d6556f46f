// The line of a frame, field by field.
ghost use Rattle.std.specs.Prelude.{◌≡◌, ◌++◌, ◌+◌, ◌*◌, ◌≤◌, length};
ghost use Rattle.arrayvec.specs.ArrayVec.{array_vec_len};
ghost use Rattle.spach.specs.Refusal.{by_number, number_of};
ghost use Rattle.receiver.specs.Receiver.{pushed as out_of};
ghost use Rattle.listing.specs.Line.{answer_text, held_text, delivery_of, delivery_text, Inside, line_of};

use super::text::{put, put_decimal};
use arrayvec::ArrayVec;
use hex_lines::put_digits;
use receiver::{ArqReassembler, ArqStatus, Reception, SingleMessage};
use spach::{Numbered, SpachError};

// What an answer delivers.
pub fn delivery_of(answer: Result<Reception, SpachError>) -> Option<SingleMessage>
    ensures { result ≡ delivery_of (by_number number_of answer) }
{
    match answer {
        Ok(Reception::Accepted { message, .. }) => message,
        _ => None,
    }
}

// `ignored`, `heard`, `message`, or `refused-` and the number.
fn put_answer<const N: usize>(text: &mut ArrayVec<u8, N>, answer: Result<Reception, SpachError>)
    requires { array_vec_len text.old + 28 ≤ N }
    ensures items { text.new.items ≡ text.old.items ++ answer_text (by_number number_of answer) }
    ensures len { array_vec_len text.new ≤ array_vec_len text.old + 28 }
{
    match answer {
        Ok(Reception::Ignored) => put(text, b"ignored"),
        Ok(Reception::Accepted { message: None, .. }) => put(text, b"heard"),
        Ok(
            Reception::Accepted {
                message: Some(_),
                ..
            },
        ) => put(text, b"message"),
        Err(error) => {
            put(text, b"refused-");
            put_decimal(text, u64::from(error.number()));
        }
    }
}

// Echo and map, as held.
fn put_held<const N: usize>(text: &mut ArrayVec<u8, N>, status: Option<ArqStatus>)
    requires { array_vec_len text.old + 29 ≤ N }
    ensures items { text.new.items ≡ text.old.items ++ held_text status }
    ensures len { array_vec_len text.new ≤ array_vec_len text.old + 29 }
{
    match status {
        None => put(text, b"- 00000000"),
        Some(held) => {
            put_decimal(text, u64::from(held.partial_echo));
            text.push(b' ');
            put_digits(text, &held.received_frames.to_be_bytes());
        }
    }
}

// The message delivered, at the front of the buffer, in hex or as `empty`; `-` if there is none.
fn put_delivery<const N: usize>(
    text: &mut ArrayVec<u8, N>,
    delivery: Option<SingleMessage>,
    buffer: &[u8],
)
    requires inside { Inside delivery (length buffer.now) }
    requires room { array_vec_len text.old + 2 * length buffer.now + 5 ≤ N }
    ensures items { text.new.items ≡ text.old.items ++ delivery_text delivery buffer.now }
    ensures len { array_vec_len text.new ≤ array_vec_len text.old + 2 * length buffer.now + 5 }
{
    match delivery {
        None => text.push(b'-'),
        Some(message) if message.length == 0 => put(text, b"empty"),
        Some(message) => put_digits(text, &buffer[..message.length]),
    }
}

// The whole line: what the push of a frame came to, its receiver's status, and the message at the front of its buffer.
pub fn put_line<const N: usize>(
    text: &mut ArrayVec<u8, N>,
    frame: u64,
    receiver: ArqReassembler,
    answer: Result<Reception, SpachError>,
    buffer: &[u8],
)
    requires inside { Inside (delivery_of (by_number number_of answer)) (length buffer.now) }
    requires room { array_vec_len text.old + 2 * length buffer.now + 86 ≤ N }
    ensures items { text.new.items ≡ text.old.items ++ line_of frame (out_of (receiver, answer) buffer.now) }
    ensures len { array_vec_len text.new ≤ array_vec_len text.old + 2 * length buffer.now + 86 }
{
    put_decimal(text, frame);
    text.push(b' ');
    put_answer(text, answer);
    text.push(b' ');
    put_held(text, receiver.status());
    text.push(b' ');
    put_delivery(text, delivery_of(answer), buffer);
    text.push(b'\n');
}
