// Lists what a reader gives, a chunk at a time.
ghost use Rattle.std.specs.Prelude.{◌≤◌, ◌<◌, length, OnErr, OnOk};
ghost use Rattle.std.specs.Io.KnownBytes.{Consumes, IsAtEnd};
ghost use Rattle.receiver.specs.Valid.{Valid};
ghost use Rattle.listing.specs.Session.{new_session, rest_of, listing_of, Reads, ReadsAll, Prints};

use super::Session;
use super::last::put_last;
use arrayvec::ArrayVec;
use receiver::ArqReassembler;
use std::io;
use std::io::{Read, Write};

// Reads until the room is full, `left` octets are read, the input ends or a read fails. Callers count what is left, which they
// answer; std's `take` holds the input while it counts.
fn read_some<'a, R: Read>(
    input: &mut R,
    room: &'a mut [u8],
    left: u64,
) -> (&'a [u8], io::Result<()>)
    ensures inside { length result.0.now ≤ length room.old }
    ensures most { length result.0.now ≤ left }
    ensures short { OnErr result.1 (length result.0.now < length room.old) }
    ensures bytes { Consumes (R.remaining input.old) (R.remaining input.new) result.0.now }
    ensures end { OnOk result.1 (length result.0.now < length room.old → length result.0.now < left → IsAtEnd (R.remaining input.new)) }
{
    let most = left.min(room.len() as u64) as usize;
    reading::filled(input, &mut room[..most])
}

// Where reading failed: that the listing does not go on says so itself.
fn say_failed<W: Write>(output: &mut W) {
    let _ = output.write_all(b"file: standard input: cannot be read\n");
}

// Prints the lines after the first, of 64 frames at a time. A listing that could not be read to its end says so in place of
// its last lines; a write that fails is passed over until then. The loop ends in its middle, where a chunk is not full.
fn show_all<R: Read, W: Write>(
    input: &mut R,
    output: &mut W,
    receiver: ArqReassembler,
    limit: u64,
) -> (u64, io::Result<()>)
    requires { Valid receiver }
    ensures reads { Reads limit result.0 (R.remaining input.old) (R.remaining input.new) }
    ensures prints { OnOk result.1 (Prints (rest_of (new_session receiver)) limit (R.remaining input.old) (W.contents output.old) (W.contents output.new)) }
{
    let mut session = Session::new(receiver);
    let mut left = limit;
    let mut said = Ok(());
    let mut room = [0u8; 896];
    let mut text = ArrayVec::<u8, 38400>::new();
    loop {
        let (octets, read) = read_some(input, &mut room, left);
        left -= octets.len() as u64;
        text.clear();
        session = session.show_frames(octets, &mut text);
        said = said.and(output.write_all(&text));
        if let Err(error) = read {
            say_failed(output);
            return (left, Err(error));
        }
        if octets.len() < 896 {
            text.clear();
            put_last(&mut text, session, octets.len() as u64 % 14);
            return (left, said.and(output.write_all(&text)));
        }
    }
}

// Lists an input of at most `limit` octets, to its end. Answers how many of them were not read, and whether all was read
// and printed.
pub fn show_told<R: Read, W: Write>(
    input: &mut R,
    output: &mut W,
    limit: u64,
) -> (u64, io::Result<()>)
    ensures reads { ReadsAll limit result.0 (R.remaining input.old) (R.remaining input.new) }
    ensures prints { OnOk result.1 (Prints listing_of limit (R.remaining input.old) (W.contents output.old) (W.contents output.new)) }
{
    let mut room = [0u8; 9];
    let (octets, read) = read_some(input, &mut room, limit);
    let left = limit - octets.len() as u64;
    if let Err(error) = read {
        say_failed(output);
        return (left, Err(error));
    }
    let Ok(receiver) = super::open(octets) else {
        return (left, output.write_all(b"identity\n"));
    };
    let said = output.write_all(b"frame answer echo map text\n");
    let (left, listed) = show_all(input, output, receiver, left);
    (left, said.and(listed))
}

// The same for whoever can do nothing about it.
pub fn show<R: Read, W: Write>(input: &mut R, output: &mut W, limit: u64) -> u64
    ensures { ReadsAll limit result (R.remaining input.old) (R.remaining input.new) }
{
    let (left, _) = show_told(input, output, limit);
    left
}

// Reads on and prints nothing, until `left` octets are read or the input ends: the loop ends where a read gives none.
pub fn skip<R: Read>(input: &mut R, mut left: u64) {
    let mut room = [0u8; 64];
    loop {
        let (octets, _) = read_some(input, &mut room, left);
        if octets.is_empty() {
            return;
        }
        left -= octets.len() as u64;
    }
}
