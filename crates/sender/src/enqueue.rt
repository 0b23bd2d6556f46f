// A request granted or refused, and what it leaves if it is granted.
// Ported from runtime/spach_arq.rs (chrismoos/136-bts 7c60b63bf4, Apache-2.0) and changed: see NOTICE.
ghost use Rattle.std.specs.Prelude.{◌≡◌, false, not, List, ℕ, ◌≤◌, ◌<◌, eqb, get_or, length, position};
ghost use Rattle.transfer.specs.Lists.{any};
ghost use Rattle.token.specs.Token.{stop};
ghost use Rattle.spach.specs.Refusal.{gives, by_number};
ghost use Rattle.transfer.specs.Enqueue as definition;
ghost use Rattle.transfer.specs.Numbers.{refusal_of};
ghost use Rattle.transfer.specs.Transfer.{begun as begins};
ghost use Rattle.sender.specs.View.{lent, wrote};

use super::Sender;
use super::table::Table;
use arq::cut::fragment_count;
use spach::SpachError;
use token::number_after;
use transfer::constants::ECHO_VALUES;
use transfer::frame::header_of;
use transfer::settling::begun;
use transfer::store::store_message;
use transfer::{Error, Grant, Parcel, Request, Transfer, TransferToken};

impl Table {
    ghost use Rattle.sender.specs.View.{view_of};

    // The refusals in their order.
    #[tactic(auto, using(crate::proofs::Granted::count_low), unfolding(transfer::specs::Enqueue::grant_of))]
    pub(crate) fn grant(&self, request: Request, message: &[u8]) -> Result<Grant, Error>
        ensures { by_number refusal_of result ≡ definition.grant_of (view_of self.now) request message.now }
    {
        let capacity = self.limits.capacity;
        if capacity <= self.events.len() {
            return Err(Error::Capacity);
        }
        if request.deadline_ms <= self.clock.last_ms {
            return Err(Error::Deadline);
        }
        if message.is_empty() {
            return Err(SpachError::Length.into());
        }
        if !self.contains(request.identity) && capacity <= self.transfers.len() {
            return Err(Error::Capacity);
        }
        let header = header_of(request.channel, 0, false);
        let frames = fragment_count(header, request.identity, message)?;
        self.allocate_echo(request.deadline_ms, frames as u8)
    }

    // Before the first block 21; deadline plus guard over 64 bits 23; no echo free 21.
    fn allocate_echo(&self, deadline_ms: u64, frames: u8) -> Result<Grant, Error>
        ensures { by_number refusal_of result ≡ definition.allocated self.now.limits self.now.clock self.now.echoes deadline_ms frames }
    {
        if self.clock.last_block < self.limits.startup_until_block {
            return Err(Error::EchoExhausted);
        }
        if deadline_ms.checked_add(self.limits.echo_guard_ms).is_none() {
            return Err(Error::Deadline);
        }
        match self.echoes.free_echo(self.clock.last_ms) {
            None => Err(Error::EchoExhausted),
            Some(echo) => Ok(Grant { frames, echo }),
        }
    }
}

// The transfer of a request: its owner and its first generation are one number.
fn newcomer(request: Request, message: &[u8], grant: Grant, n: usize, token: u64) -> Transfer
    requires { (length message.now ≤ 255) × (grant.frames ≤ 27) × (n < 128) }
    ensures { result ≡ begins (definition.parcel_of request message.now grant.frames n token) grant.echo token }
{
    let parcel = Parcel {
        identity: request.identity,
        completion: request.completion,
        deadline_ms: request.deadline_ms,
        owner: TransferToken(token),
        channel: request.channel,
        octets: message.len() as u8,
        frames: grant.frames,
        n: n as u8,
    };
    begun(parcel, grant.echo, token)
}

// The first place that is not taken.
fn first_free(taken: &[bool]) -> Option<usize>
    ensures { result ≡ position not taken.now }
{
    taken.iter().position(|taken| !*taken)
}

impl Sender {
    // Which places in the lent store the live transfers have.
    fn places(&self) -> [bool; ECHO_VALUES]
        ensures { (k : ℕ) → k < 128 → get_or result k false ≡ any (λ x. eqb x.parcel.n k) self.now.transfers }
    {
        let mut taken = [false; ECHO_VALUES];
        for x in self.table.transfers.iter() {
            taken[usize::from(x.parcel.n)] = true;
        }
        taken
    }

    // The lowest place that no live transfer has.
    fn lowest_place(&self) -> usize
        ensures { result ≡ definition.lowest_n self.now.transfers }
    {
        first_free(&self.places()).unwrap_or(ECHO_VALUES)
    }

    // The echo is held, a transfer to the same identity replaced, the message stored, and its transfer put at the back.
    pub(crate) fn accept(
        &mut self,
        request: Request,
        message: &[u8],
        grant: Grant,
        store: &mut [u8],
    ) -> TransferToken
        requires granted { definition.grant_of self.old request message.now ≡ gives grant }
        requires room { 32640 ≤ length store.old }
        requires tokens { self.old.next_token < stop }
        ensures { (words : List ℕ) → wrote (self.new, Ok result) (lent store.new words) ≡ definition.accepts self.old (lent store.old words) request message.now grant }
    {
        let until = request.deadline_ms + self.table.limits.echo_guard_ms;
        self.table.echoes.hold(grant.echo, until);
        self.replace(request.identity);
        let n = self.lowest_place();
        store_message(store, n, message);
        let token = self.table.next_token;
        self.table
            .transfers
            .push(newcomer(request, message, grant, n, token));
        self.table.next_token = number_after(token);
        TransferToken(token)
    }
}
