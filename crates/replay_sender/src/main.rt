// Runs the sender script on standard input on memory of zeros, and prints the answers in hex, 32 octets to a line.
#![tactic(auto)]

use std::io;

fn main(rt: HostRuntime) -> io::Result<()> {
    hex_lines::replay(&mut rt.stdin(), &mut rt.stdout(), |script, answers| {
        let mut octets = [0u8; 32672];
        let mut words = [0u64; 3460];
        script_sender::sender_run(script, answers, &mut octets, &mut words)
    })
}
