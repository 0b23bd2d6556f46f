// The port as the oracle links it: one library that exports what its driver and its timing program call. C says by a number
// which call is timed.
#![tactic(auto)]

ghost use Rattle.std.specs.Prelude.{◌≡◌, ◌≤◌, length, drop};

#[unsafe(no_mangle)]
pub extern "C" fn script_run(script: &[u8], answers: &mut [u8]) -> usize
    ensures { (result ≤ length answers.old) × (drop result answers.new ≡ drop result answers.old) }
{
    script::script_run(script, answers)
}

#[unsafe(no_mangle)]
pub extern "C" fn sender_run(
    script: &[u8],
    answers: &mut [u8],
    octets: &mut [u8],
    words: &mut [u64],
) -> usize
    ensures { result ≤ length answers.old }
{
    script_sender::sender_run(script, answers, octets, words)
}

#[unsafe(no_mangle)]
pub extern "C" fn time_calls(
    call: u8,
    dst: &mut [u8],
    src: &[u8],
    operands: &[u8],
    round: u64,
) -> u64 {
    script_timing::time_calls(call, dst, src, operands, round)
}

#[unsafe(no_mangle)]
pub extern "C" fn time_sender(
    call: u8,
    live: u64,
    rounds: u64,
    store: &mut [u8],
    words: &mut [u64],
) -> u64 {
    sender_timing::time_sender(call, live, rounds, store, words)
}
