// Octets in lower-case hex, 32 to a line.
#![tactic(auto)]

ghost use Rattle.std.specs.Prelude.{◌≡◌, ◌++◌, ◌+◌, ◌*◌, ◌≤◌, length, take, drop, OnOk};
ghost use Rattle.arrayvec.specs.ArrayVec.{array_vec_len};
ghost use Rattle.hex.specs.Hex.{encode_lower};
ghost use Rattle.hex_lines.specs.Hex.{text_of};
ghost use Rattle.hex_lines.specs.Replay.{Replays};

use arrayvec::ArrayVec;
use std::io;
use std::io::{Read, Write};

// Appends each octet's two digits.
pub fn put_digits<const N: usize>(text: &mut ArrayVec<u8, N>, octets: &[u8])
    requires { array_vec_len text.old + 2 * length octets.now ≤ N }
    ensures items { text.new.items ≡ text.old.items ++ encode_lower octets.now }
    ensures len { array_vec_len text.new ≡ array_vec_len text.old + 2 * length octets.now }
{
    for octet in octets {
        let mut digits = [0u8; 2];
        hex::encode_to_slice([*octet], &mut digits).unwrap();
        text.try_extend_from_slice(&digits).unwrap();
    }
}

// Appends the octets' text.
pub fn put_lines<const N: usize>(text: &mut ArrayVec<u8, N>, octets: &[u8])
    requires { array_vec_len text.old + 3 * length octets.now ≤ N }
    ensures { text.new.items ≡ text.old.items ++ text_of octets.now }
{
    for line in octets.chunks(32) {
        put_digits(text, line);
        text.push(b'\n');
    }
}

// The octets' text, at the front of a lent text; how long it is. What follows stays.
pub fn hex(octets: &[u8], text: &mut [u8]) -> usize
    requires { 3 * length octets.now ≤ length text.old }
    ensures most { result ≤ 3 * length octets.now }
    ensures text { take result text.new ≡ text_of octets.now }
    ensures rest { drop result text.new ≡ drop result text.old }
{
    let mut to = 0;
    for part in octets.chunks(32) {
        let mut line = ArrayVec::<u8, 65>::new();
        put_digits(&mut line, part);
        line.push(b'\n');
        let end = to + line.len();
        text[to..end].copy_from_slice(&line);
        to = end;
    }
    to
}

// Runs the script that the source gives, and prints the answers in hex. `run` is lent the script and room for its
// answers, and says how many it put there.
pub fn replay<R: Read, W: Write, F: FnOnce(&[u8], &mut [u8]) -> usize>(
    source: &mut R,
    output: &mut W,
    run: F,
) -> io::Result<()>
    requires callable { F.IsAlwaysCallable run }
    requires inside { (script : _) (answers : _) (count : _) (after : _) → F.post run script answers count after → count ≤ length answers.now }
    ensures { OnOk result (Replays (F.post run) (R.remaining source.old) (R.remaining source.new) (W.contents output.old) (W.contents output.new)) }
{
    let mut room = [0u8; 65537];
    let (script, _) = reading::filled(source, &mut room);
    if script.len() > 65536 {
        return output.write_all(b"too long\n");
    }
    let mut answers = [0u8; 65536];
    let count = run(script, &mut answers);
    let mut text = ArrayVec::<u8, 196608>::new();
    put_lines(&mut text, &answers[..count]);
    output.write_all(&text)
}
