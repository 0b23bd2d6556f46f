// The listing that `arq-show` prints: a receiver of one identity, frames of 14 octets pushed to it in turn, a line for each.
#![tactic(auto)]

mod last;
mod line;
pub mod show;
mod text;

ghost use Rattle.std.specs.Prelude.{◌≡◌, ◌++◌, ◌+◌, ◌*◌, ◌/◌, ◌≤◌, length};
ghost use Rattle.spach.specs.Refusal.{number_of, by_number};
ghost use Rattle.receiver.specs.Receiver.{new_of, push_of, status_answer};
ghost use Rattle.receiver.specs.Demand3.{runs};
ghost use Rattle.arrayvec.specs.ArrayVec.{array_vec_len};
ghost use Rattle.field.specs.Bits.{bits_of, field};
ghost use Rattle.io.specs.Counts.{IsPrefixLen};
ghost use Rattle.listing.specs.Text.{Wrote};
ghost use Rattle.listing.specs.Line.{line_of};
ghost use Rattle.listing.specs.Session.{open_of, Ready, push_with, frames_of, out_of, step_of, after_of, lines_of, new_session};

use arrayvec::ArrayVec;
use line::{delivery_of, put_line};
use receiver::ArqReassembler;
use spach::SpachError;

// The receiver, and how many frames were pushed and messages delivered. That the receiver is one of the constructor's and
// the counts fit is `Ready` in two contracts, no ghost field: `step_of` would then carry proofs.
#[derive(Clone, Copy, Debug, PartialEq, Eq)]
pub struct Session {
    pub receiver: ArqReassembler,
    pub frames: u64,
    pub messages: u64,
}

// The identity's value: octets 1 to 8, the upper first.
fn value_of(octets: &[u8]) -> u64
    requires { 9 ≤ length octets.now }
    ensures { result ≡ field 8 64 (bits_of octets.now) }
{
    u64::from_be_bytes(<[u8; 8]>::try_from(&octets[1..9]).unwrap())
}

// A receiver for the identity in nine octets, type and value; a refusal 2 where they are fewer or no identity.
#[tactic(auto, unfolding(crate::specs::Session::open_of))]
pub fn open(octets: &[u8]) -> Result<ArqReassembler, SpachError>
    ensures { by_number number_of result ≡ open_of octets.now }
{
    if octets.len() < 9 {
        return Err(SpachError::Identity);
    }
    let identity = spach::accept_identity(octets[0], value_of(octets))?;
    ArqReassembler::try_new(identity)
}

impl Session {
    // Before the first frame.
    pub fn new(receiver: ArqReassembler) -> Self
        ensures { result ≡ new_session receiver }
    {
        Session {
            receiver,
            frames: 0,
            messages: 0,
        }
    }

    // Pushes a frame with a buffer of its own, and appends its line. The longest has 556 octets: number 20, answer 10,
    // echo 3, map 8, message 510, four spaces and the newline; 600 are asked.
    pub fn show_frame<const N: usize>(self, octets: &[u8], text: &mut ArrayVec<u8, N>) -> Self
        requires ready { Ready self 1 }
        requires room { array_vec_len text.old + 600 ≤ N }
        ensures session { result ≡ step_of self (push_with octets.now) }
        ensures items { text.new.items ≡ text.old.items ++ line_of (self.frames + 1) (out_of self (push_with octets.now)) }
        ensures len { array_vec_len text.new ≤ array_vec_len text.old + 600 }
    {
        let mut buffer = [0u8; 255];
        let (receiver, answer) = self.receiver.push(octets, &mut buffer);
        let frames = self.frames + 1;
        put_line(text, frames, receiver, answer, &buffer);
        let delivered = delivery_of(answer).is_some();
        Session {
            receiver,
            frames,
            messages: self.messages + u64::from(delivered),
        }
    }

    // Pushes the frames of 14 octets in turn, and appends their lines.
    pub fn show_frames<const N: usize>(mut self, octets: &[u8], text: &mut ArrayVec<u8, N>) -> Self
        requires ready { Ready self (length octets.now / 14) }
        requires room { array_vec_len text.old + 600 * (length octets.now / 14) ≤ N }
        ensures session { result ≡ after_of self (frames_of octets.now) }
        ensures state { result.receiver ≡ runs new_of push_of status_answer self.receiver (frames_of octets.now) }
        ensures items { text.new.items ≡ text.old.items ++ lines_of self (frames_of octets.now) }
    {
        for frame in octets.chunks_exact(14) {
            self = self.show_frame(frame, text);
        }
        self
    }
}

// The same into a lent text, the line from `to` on; the place after it.
pub fn show_frame(session: Session, octets: &[u8], text: &mut [u8], to: usize) -> (Session, usize)
    requires ready { Ready session 1 }
    requires room { to + 600 ≤ length text.old }
    ensures session { result.0 ≡ step_of session (push_with octets.now) }
    ensures wrote { Wrote text.old text.new to result.1 (line_of (session.frames + 1) (out_of session (push_with octets.now))) }
    ensures most { result.1 ≤ to + 600 }
{
    let mut line = ArrayVec::<u8, 600>::new();
    let after = session.show_frame(octets, &mut line);
    let end = to + line.len();
    text[to..end].copy_from_slice(&line);
    (after, end)
}

// The same of frames in turn, their lines from the front of a lent text on.
pub fn show_frames(mut session: Session, octets: &[u8], text: &mut [u8]) -> (Session, usize)
    requires ready { Ready session (length octets.now / 14) }
    requires room { 600 * (length octets.now / 14) ≤ length text.old }
    ensures session { result.0 ≡ after_of session (frames_of octets.now) }
    ensures state { result.0.receiver ≡ runs new_of push_of status_answer session.receiver (frames_of octets.now) }
    ensures wrote { Wrote text.old text.new 0 result.1 (lines_of session (frames_of octets.now)) }
    ensures inside { IsPrefixLen result.1 text.new }
{
    let mut to = 0;
    for next in octets.chunks_exact(14) {
        let (after, end) = show_frame(session, next, text, to);
        session = after;
        to = end;
    }
    (session, to)
}
