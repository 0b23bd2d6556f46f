// Lists what a receiver makes of the frames on standard input: identity type, value, then 14-octet frames.
#![tactic(auto)]

fn main(rt: HostRuntime) {
    // The listing says itself where it could not be read on; whoever takes it misses what could not be written.
    let _ = listing::show::show_told(&mut rt.stdin(), &mut rt.stdout(), u64::MAX);
}
