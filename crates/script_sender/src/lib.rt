// The port's side of the sender's comparison: a script of operations on a sender, answered in octets.
#![tactic(auto)]

mod machine;
mod ops;
mod sums;
mod values;

ghost use Rattle.std.specs.Prelude.{◌≡◌, ◌≤◌, length, drop};

use machine::Lender;

// The memory that is handed in.
pub const OCTETS: usize = 32672;

pub const WORDS: usize = 3460;

// The protocol's call: how many octets it wrote; it writes no other octet of the answers. With a memory of another size it
// writes nothing.
pub fn sender_run(script: &[u8], answers: &mut [u8], octets: &mut [u8], words: &mut [u64]) -> usize
    ensures within { result ≤ length answers.old }
    ensures rest { drop result answers.new ≡ drop result answers.old }
{
    let Ok(octets) = <&mut [u8; OCTETS]>::try_from(octets) else {
        return 0;
    };
    let Ok(words) = <&mut [u64; WORDS]>::try_from(words) else {
        return 0;
    };
    script_wire::run::run(&mut Lender::new(octets, words), script, answers)
}
