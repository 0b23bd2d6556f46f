// Tokens are numbers of a rising counter that stops at 2^64 - 1.
#![tactic(auto)]

ghost use Rattle.std.specs.Prelude.{◌≡◌};
ghost use Rattle.token.specs.Token.{number_after, fewer_than};

// The number after n.
pub fn number_after(n: u64) -> u64
    ensures { result ≡ number_after n }
{
    n.saturating_add(1)
}

// Whether fewer than k tokens are left.
pub fn fewer_than(k: u64, next: u64) -> bool
    ensures { result ≡ fewer_than k next }
{
    u64::MAX - next < k
}
