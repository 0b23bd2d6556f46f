// What every call with a clock asks first.
// Ported from runtime/spach_arq.rs (chrismoos/136-bts 7c60b63bf4, Apache-2.0) and changed: see NOTICE.
ghost use Rattle.std.specs.Prelude.{◌≡◌, ◌+◌, ◌≤◌, MatchResult, OnOk, length};
ghost use Rattle.token.specs.Token.{stop};
ghost use Rattle.spach.specs.Refusal.{gives, refuses};
ghost use Rattle.transfer.specs.Numbers.{refusal_of};
ghost use Rattle.transfer.specs.State.{short, ticked, admitted};
ghost use Rattle.sender.specs.View.{lent};

use super::Sender;
use spach::SpachError;
use token::fewer_than;
use transfer::constants::{CALL_TOKENS, STORE_OCTETS, STORE_WORDS};
use transfer::{Clock, Error};

// Fewer than 32,640 octets or fewer than 3,456 words.
pub fn is_short(store: &[u8], words: &[u64]) -> bool
    ensures { result ≡ short (lent store.now words.now) }
{
    store.len() < STORE_OCTETS || words.len() < STORE_WORDS
}

impl Sender {
    // Either clock gone back 22; else both move.
    pub(crate) fn tick(&mut self, block: u64, now_ms: u64) -> Result<(), Error>
        ensures said { MatchResult result (λ _. ticked self.old block now_ms ≡ gives self.new)
            (λ e. (ticked self.old block now_ms ≡ refuses (refusal_of e)) × (self.new ≡ self.old)) }
        ensures tokens { self.new.next_token ≡ self.old.next_token }
    {
        let clock = self.table.clock;
        if block < clock.last_block || now_ms < clock.last_ms {
            return Err(Error::Clock);
        }
        self.table.clock = Clock {
            last_block: block,
            last_ms: now_ms,
        };
        Ok(())
    }

    // 16, 18, 22; else the clock moves.
    pub(crate) fn admit(
        &mut self,
        block: u64,
        now_ms: u64,
        store: &[u8],
        words: &[u64],
    ) -> Result<(), Error>
        ensures said { MatchResult result (λ _. admitted self.old (lent store.now words.now) block now_ms ≡ gives self.new)
            (λ e. (admitted self.old (lent store.now words.now) block now_ms ≡ refuses (refusal_of e)) × (self.new ≡ self.old)) }
        ensures tokens { OnOk result (512 + self.new.next_token ≤ stop) }
        ensures room { OnOk result ((32640 ≤ length store.now) × (3456 ≤ length words.now)) }
    {
        if is_short(store, words) {
            return Err(SpachError::Room.into());
        }
        if fewer_than(CALL_TOKENS, self.table.next_token) {
            return Err(SpachError::Tokens.into());
        }
        self.tick(block, now_ms)
    }
}
