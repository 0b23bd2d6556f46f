// Runs the script on standard input, and prints the answers in hex, 32 octets to a line.
#![tactic(auto)]

use std::io;

fn main(rt: HostRuntime) -> io::Result<()> {
    hex_lines::replay(&mut rt.stdin(), &mut rt.stdout(), script::script_run)
}
