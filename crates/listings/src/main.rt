// Lists the stored inputs on standard input: for each its length in two octets, then its octets.
#![tactic(auto)]

use std::io::{Read, Write};

// Lists the next input. Answers whether there was one.
fn list_next<R: Read, W: Write>(input: &mut R, output: &mut W) -> bool {
    let mut room = [0u8; 2];
    let (&[high, low], _) = reading::filled(input, &mut room) else {
        return false;
    };
    let length = u16::from_be_bytes([high, low]);
    let left = listing::show::show(input, output, u64::from(length));
    listing::show::skip(input, left);
    true
}

fn main(rt: HostRuntime) {
    let mut input = rt.stdin();
    let mut output = rt.stdout();
    for _ in 0..u64::MAX {
        if !list_next(&mut input, &mut output) {
            break;
        }
    }
}
