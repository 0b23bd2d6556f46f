// The echoes and their holds, which outlive the transfers: so the search for a free one looks at the times and not at the transfers.
// Ported from runtime/spach_arq.rs (chrismoos/136-bts 7c60b63bf4, Apache-2.0) and changed: see NOTICE.
ghost use Rattle.std.specs.Prelude.{◌≡◌, ◌+◌, ◌++◌, ◌<◌, IfSome, length, position, replicate};
ghost use Rattle.transfer.specs.Echo.{free, free_echo, hold};
ghost use Rattle.transfer.specs.Lists.{any};

use super::constants::ECHO_VALUES;
use std::marker::Model;

// Until when each echo is held, and where the next search starts.
#[derive(Clone, Copy, Debug, PartialEq, Eq)]
pub struct Echoes {
    until_ms: [u64; ECHO_VALUES],
    next: usize,
}

impl Model for Echoes {
    ghost use Rattle.std.specs.Prelude.{◌≡◌, ◌<◌, length};
    ghost use Rattle.transfer.specs.State as state;

    ghost Value = { state.Echoes };

    ghost view = { λ e. record { echo_until_ms = e.until_ms; next_echo = e.next } };

    ghost invariant = { λ e. (length e.until_ms ≡ 128) × (e.next < 128) };

    ghost inverse = { λ e. record { until_ms = e.echo_until_ms; next = e.next_echo } };
}

impl Echoes {
    // Every echo is free.
    pub fn new() -> Echoes
        ensures { result ≡ record { echo_until_ms = replicate 128 0; next_echo = 0 } }
    {
        Echoes {
            until_ms: [0; ECHO_VALUES],
            next: 0,
        }
    }

    // Until when each is held.
    pub fn until_ms(&self) -> &[u64]
        ensures { result.now ≡ self.now.echo_until_ms }
    {
        &self.until_ms
    }

    // Where the next search starts.
    pub fn next_echo(&self) -> usize
        ensures value { result ≡ self.now.next_echo }
        ensures fits { result < 128 }
    {
        self.next
    }

    // Some echo is free.
    pub fn any_free(&self, at: u64) -> bool
        ensures { result ≡ any (free at) self.now.echo_until_ms }
    {
        self.until_ms.iter().any(|until| *until <= at)
    }

    // The first free echo from where the search starts on, going round.
    #[tactic(auto, unfolding(crate::specs::Echo::free_echo))]
    pub fn free_echo(&self, at: u64) -> Option<u8>
        ensures echo { result ≡ free_echo self.now at }
        ensures within { IfSome result (λ e. e < 128) }
    {
        let (before, from_next) = self.until_ms.split_at(self.next);
        let offset = offset_of_free(from_next, before, at)?;
        Some(((self.next + offset) % ECHO_VALUES) as u8)
    }

    // The echo is held until then, and the next search starts behind it.
    pub fn hold(&mut self, echo: u8, until: u64)
        requires { echo < 128 }
        ensures { self.new ≡ hold self.old echo until }
    {
        let echo = usize::from(echo);
        self.until_ms[echo] = until;
        self.next = (echo + 1) % ECHO_VALUES;
    }
}

// The place of the first that is free by then, of these and then those.
fn offset_of_free(these: &[u64], those: &[u64], at: u64) -> Option<usize>
    ensures first { result ≡ position (free at) (these.now ++ those.now) }
    ensures within { IfSome result (λ k. k < length these.now + length those.now) }
{
    these
        .iter()
        .chain(those.iter())
        .position(|until| *until <= at)
}
