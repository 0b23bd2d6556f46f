// Reads octets into a lent buffer, so that an end is told from a failure.
#![tactic(auto)]

ghost use Rattle.std.specs.Prelude.{◌≢◌, ◌≤◌, ◌<◌, length, take, IfErr, OnErr, OnOk};
ghost use Rattle.std.specs.Io.{ReadsAtMost};
ghost use Rattle.std.specs.IoError.{error_kind};
ghost use Rattle.std.specs.Io.KnownBytes.{Consumes, IsAtEnd, ReadConsumes};
ghost use Rattle.io.specs.Counts.{IsPrefixLen};

use std::io;
use std::io::{ErrorKind, Read};

// One read. A read that a signal interrupts is made again; any other error is a failure.
fn read_once<R: Read>(input: &mut R, room: &mut [u8]) -> io::Result<usize>
    ensures bound { ReadsAtMost result room.new }
    ensures bytes { ReadConsumes (R.remaining input.old) (R.remaining input.new) result room.new }
    ensures retried { IfErr result (λ e. error_kind e ≢ ErrorKind.Interrupted) }
{
    for _ in 0..u64::MAX {
        match input.read(room) {
            Err(error) if error.kind() == ErrorKind::Interrupted => {}
            read => return read,
        }
    }
    Err(io::Error::from(ErrorKind::Other))
}

// Reads until the room is full, the input ends or a read fails. How many octets were read, to the front of the room, and
// the failure, if any. (std's `read_exact` does not say how much it read before a failure, and `read_to_end` takes a heap.)
pub fn fill<R: Read>(input: &mut R, room: &mut [u8]) -> (usize, io::Result<()>)
    ensures inside { IsPrefixLen result.0 room.new }
    ensures short { OnErr result.1 (result.0 < length room.new) }
    ensures bytes { Consumes (R.remaining input.old) (R.remaining input.new) (take result.0 room.new) }
    ensures retried { IfErr result.1 (λ e. error_kind e ≢ ErrorKind.Interrupted) }
    ensures end { OnOk result.1 (result.0 < length room.new → IsAtEnd (R.remaining input.new)) }
{
    let mut count = 0;
    while count < room.len() {
        match read_once(input, &mut room[count..]) {
            Ok(0) => break,
            Ok(n) => count += n,
            Err(error) => return (count, Err(error)),
        }
    }
    (count, Ok(()))
}

// The same, and lends what was read. (What is lent keeps the room, of which a caller knows nothing afterwards.)
pub fn filled<'a, R: Read>(input: &mut R, room: &'a mut [u8]) -> (&'a [u8], io::Result<()>)
    ensures inside { length result.0.now ≤ length room.old }
    ensures short { OnErr result.1 (length result.0.now < length room.old) }
    ensures bytes { Consumes (R.remaining input.old) (R.remaining input.new) result.0.now }
    ensures retried { IfErr result.1 (λ e. error_kind e ≢ ErrorKind.Interrupted) }
    ensures end { OnOk result.1 (length result.0.now < length room.old → IsAtEnd (R.remaining input.new)) }
{
    let (count, read) = fill(input, room);
    (&room[..count], read)
}
