// The sender: up to 128 transfers, in the order in which they are served, and the events of those that ended. A call with a
// clock is lent the messages' octets (`store`) and the frames' submissions (`words`): which of the two it may write to stands in
// its parameters, so they are not one struct, and `block` and `now_ms` stand beside them as in the Rust.
// Ported from runtime/spach_arq.rs (chrismoos/136-bts 7c60b63bf4, Apache-2.0) and changed: see NOTICE.
#![tactic(auto)]

mod cancel;
mod clock;
mod enqueue;
mod list;
mod prepare;
mod refresh;
mod status;
mod submit;
mod table;
mod walk;

ghost use Rattle.std.specs.Prelude.{◌≡◌};
ghost use Rattle.spach.specs.Refusal.{by_number, left};
ghost use Rattle.transfer.specs.State.{new_of, says};
ghost use Rattle.transfer.specs.Advance.{advance_of};
ghost use Rattle.transfer.specs.Enqueue.{enqueue_of};
ghost use Rattle.transfer.specs.Prepare.{prepare_of, has_echo_of, interrupt_of, prepare_prioritized_of};
ghost use Rattle.transfer.specs.Numbers.{refusal_of, next_of};
ghost use Rattle.transfer.specs.Submitted.{submitted_of, submitted_message_of, transmitted_of};
ghost use Rattle.transfer.specs.Status.{status_of};
ghost use Rattle.transfer.specs.Cancel.{cancel_of, cancel_transaction_of, cancel_all_of};
ghost use Rattle.transfer.specs.Refresh.{refresh_waiting_of};
ghost use Rattle.transfer.specs.Queries.{can_enqueue_of, identity_for_echo_of, radio_active_of, ready_of, contains_of, pop_event_of, pending_of};
ghost use Rattle.sender.specs.View.{lent, wrote};

use clock::is_short;
pub use list::{Blank, FixedList};
use rach::MobileIdentity;
use receiver::ArqStatus;
use spach::SpachError;
use std::marker::Model;
pub use table::Table;
use transfer::constants::ECHO_VALUES;
use transfer::effects::went_out;
use transfer::queue::full;
use transfer::{Error, Event, FrameToken, Limits, PreparedFrame, Request, TransferToken};

// A sender that the constructor and the calls made. Contracts see it as a `View`.
#[derive(Clone, Copy)]
pub struct Sender {
    table: Table,
}

impl Model for Sender {
    ghost use Rattle.transfer.specs.State.{View};
    ghost use Rattle.transfer.specs.Invariant.{Sound};

    ghost Value = { View };

    ghost use Rattle.sender.specs.View.{view_of, table_of};

    ghost view = { λ s. view_of s.table };

    ghost invariant = { λ s. Sound (view_of s.table) };

    ghost inverse = { λ v. record { table = table_of v } };
}

impl Sender {
    ghost use Rattle.sender.specs.View.{view_of};

    // In the Rust `try_new` and `after_restart`: nobody starts without saying from which block on echoes may be used.
    #[tactic(auto, unfolding(transfer::specs::State::new_of))]
    pub fn try_new(
        capacity: usize,
        echo_guard_ms: u64,
        startup_until_block: u64,
        first: u64,
    ) -> Result<Sender, Error>
        ensures { by_number refusal_of result ≡ new_of capacity echo_guard_ms startup_until_block first }
    {
        if capacity == 0 || ECHO_VALUES < capacity {
            return Err(Error::Limits);
        }
        let limits = Limits {
            capacity,
            startup_until_block,
            echo_guard_ms,
        };
        Ok(Sender {
            table: Table::fresh(limits, first),
        })
    }

    // A second one of the same state. (`clone` answers a Result: it may run out of memory in general; this can't.)
    pub fn copy(&self) -> Sender
        ensures { result ≡ self.now }
    {
        *self
    }

    // What it is made of, to be shown.
    pub fn table(&self) -> &Table
        ensures { view_of result.now ≡ self.now }
    {
        &self.table
    }

    #[tactic(auto, unfolding(transfer::specs::Queries::can_enqueue_of))]
    pub fn can_enqueue(&self, block: u64, now_ms: u64) -> bool
        ensures { result ≡ can_enqueue_of self.now block now_ms }
    {
        let limits = self.table.limits;
        limits.startup_until_block <= block
            && self.table.transfers.len() < limits.capacity
            && self.table.events.len() < limits.capacity
            && self.table.echoes.any_free(now_ms)
    }

    #[tactic(auto, unfolding(transfer::specs::Enqueue::enqueue_of))]
    pub fn enqueue(
        mut self,
        request: Request,
        message: &[u8],
        block: u64,
        now_ms: u64,
        store: &mut [u8],
        words: &[u64],
    ) -> (Self, Result<TransferToken, Error>)
        ensures { wrote result (lent store.new words.now) ≡ enqueue_of self (lent store.old words.now) request message.now block now_ms }
    {
        if let Err(error) = self.admit(block, now_ms, store, words) {
            return (self, Err(error));
        }
        match self.table.grant(request, message) {
            Ok(grant) => {
                let owner = self.accept(request, message, grant, store);
                (self, Ok(owner))
            }
            Err(error) => (self, Err(error)),
        }
    }

    #[tactic(auto, unfolding(transfer::specs::Advance::advance_of, transfer::specs::Advance::walked))]
    pub fn advance(
        mut self,
        block: u64,
        now_ms: u64,
        store: &[u8],
        words: &[u64],
    ) -> (Self, Result<(), Error>)
        ensures { left refusal_of result ≡ advance_of self (lent store.now words.now) block now_ms }
    {
        if let Err(error) = self.admit(block, now_ms, store, words) {
            return (self, Err(error));
        }
        self.walk(None);
        (self, Ok(()))
    }

    #[tactic(auto, unfolding(transfer::specs::Prepare::prepare_of, transfer::specs::Advance::walked))]
    pub fn prepare(
        mut self,
        block: u64,
        now_ms: u64,
        store: &[u8],
        words: &[u64],
    ) -> (Self, Result<Option<PreparedFrame>, Error>)
        ensures { left refusal_of result ≡ prepare_of self (lent store.now words.now) block now_ms }
    {
        if let Err(error) = self.admit(block, now_ms, store, words) {
            return (self, Err(error));
        }
        self.walk(None);
        let prepared = self.choose(store);
        (self, prepared)
    }

    pub fn has_echo(&self, echo: u8) -> bool
        ensures { result ≡ has_echo_of self.now echo }
    {
        self.table.transfers.iter().any(|x| x.echo == echo)
    }

    // Whether a transfer has this echo; its restart is then asked for.
    #[tactic(auto, using(crate::proofs::Asked::interrupt_found, crate::proofs::Asked::interrupt_none), unfolding(transfer::specs::Prepare::interrupt_of))]
    pub fn interrupt(
        mut self,
        echo: u8,
        block: u64,
        now_ms: u64,
        store: &[u8],
        words: &[u64],
    ) -> (Self, Result<bool, Error>)
        ensures { left refusal_of result ≡ interrupt_of self (lent store.now words.now) echo block now_ms }
    {
        if let Err(error) = self.admit(block, now_ms, store, words) {
            return (self, Err(error));
        }
        let Some(place) = self.table.place_of_echo(echo) else {
            return (self, Ok(false));
        };
        self.walk(Some(place));
        (self, Ok(true))
    }

    #[tactic(auto, unfolding(transfer::specs::Prepare::prepare_prioritized_of, transfer::specs::Advance::walked))]
    pub fn prepare_prioritized(
        mut self,
        echo: u8,
        block: u64,
        now_ms: u64,
        store: &[u8],
        words: &[u64],
    ) -> (Self, Result<Option<PreparedFrame>, Error>)
        ensures { left refusal_of result ≡ prepare_prioritized_of self (lent store.now words.now) echo block now_ms }
    {
        if let Err(error) = self.admit(block, now_ms, store, words) {
            return (self, Err(error));
        }
        self.walk(None);
        let prepared = self.prioritize(echo, store);
        (self, prepared)
    }

    // It takes no token, so it does not ask for 18.
    #[tactic(auto, unfolding(transfer::specs::Submitted::submitted_of))]
    pub fn submitted(
        mut self,
        token: FrameToken,
        block: u64,
        now_ms: u64,
        store: &[u8],
        words: &mut [u64],
    ) -> (Self, Result<(), Error>)
        ensures { wrote result (lent store.now words.new) ≡ submitted_of self (lent store.now words.old) token block now_ms }
    {
        if is_short(store, words) {
            return (self, Err(SpachError::Room.into()));
        }
        if let Err(error) = self.tick(block, now_ms) {
            return (self, Err(error));
        }
        let submitted = self.hand_in(token, words);
        (self, submitted)
    }

    // By the token's generation alone.
    #[tactic(auto, unfolding(transfer::specs::Submitted::submitted_message_of))]
    pub fn submitted_message(&self, token: FrameToken) -> Option<u64>
        ensures { result ≡ submitted_message_of self.now token }
    {
        let place = self.table.place_of_generation(token.generation)?;
        let x = self.table.transfers[place];
        if full(x.parcel.frames, went_out(x.sets)) {
            Some(x.parcel.completion)
        } else {
            None
        }
    }

    // Whether the frame was in flight, and whether all frames are transmitted with it (01: `completed`).
    #[tactic(auto, unfolding(transfer::specs::Submitted::transmitted_of))]
    pub fn transmitted(
        mut self,
        token: FrameToken,
        block: u64,
        now_ms: u64,
        store: &[u8],
        words: &[u64],
    ) -> (Self, Result<Option<bool>, Error>)
        ensures { left refusal_of result ≡ transmitted_of self (lent store.now words.now) token block now_ms }
    {
        if let Err(error) = self.admit(block, now_ms, store, words) {
            return (self, Err(error));
        }
        let confirmed = self.confirm(token, words);
        (self, Ok(confirmed))
    }

    #[tactic(auto, unfolding(transfer::specs::Status::status_of, transfer::specs::Advance::walked))]
    pub fn status(
        mut self,
        status: ArqStatus,
        block: u64,
        now_ms: u64,
        store: &[u8],
        words: &[u64],
    ) -> (Self, Result<bool, Error>)
        ensures { left refusal_of result ≡ status_of self (lent store.now words.now) status block now_ms }
    {
        if let Err(error) = self.admit(block, now_ms, store, words) {
            return (self, Err(error));
        }
        self.walk(None);
        let heard = self.hear(status);
        (self, Ok(heard))
    }

    // Whether there was a transfer to this identity.
    #[tactic(auto, unfolding(transfer::specs::Cancel::cancel_of))]
    pub fn cancel(mut self, identity: MobileIdentity) -> (Self, bool)
        ensures { says result.1 result.0 ≡ cancel_of self identity }
    {
        let place = self.table.place_of_identity(identity);
        let found = self.cancel_found(place);
        (self, found)
    }

    // Whether there was a transfer of this token.
    #[tactic(auto, unfolding(transfer::specs::Cancel::cancel_transaction_of))]
    pub fn cancel_transaction(mut self, token: TransferToken) -> (Self, bool)
        ensures { says result.1 result.0 ≡ cancel_transaction_of self token }
    {
        let place = self.table.place_of_owner(token);
        let found = self.cancel_found(place);
        (self, found)
    }

    pub fn cancel_all(mut self) -> Self
        ensures { result ≡ cancel_all_of self }
    {
        self.table.cancel_each();
        self
    }

    #[tactic(auto, unfolding(transfer::specs::Refresh::refresh_waiting_of, transfer::specs::Advance::walked))]
    pub fn refresh_waiting(
        mut self,
        block: u64,
        now_ms: u64,
        store: &[u8],
        words: &[u64],
    ) -> (Self, Result<(), Error>)
        ensures { left refusal_of result ≡ refresh_waiting_of self (lent store.now words.now) block now_ms }
    {
        if let Err(error) = self.admit(block, now_ms, store, words) {
            return (self, Err(error));
        }
        self.walk(None);
        self.refresh();
        (self, Ok(()))
    }

    // Of the first transfer of this echo.
    #[tactic(auto, unfolding(transfer::specs::Queries::identity_for_echo_of))]
    pub fn identity_for_echo(&self, echo: u8) -> Option<MobileIdentity>
        ensures { result ≡ identity_for_echo_of self.now echo }
    {
        let place = self.table.place_of_echo(echo)?;
        Some(self.table.transfers[place].parcel.identity)
    }

    pub fn radio_active(&self) -> bool
        ensures { result ≡ radio_active_of self.now }
    {
        self.table
            .transfers
            .iter()
            .any(|x| x.blocks.last_progress.is_some())
    }

    pub fn ready(&self) -> bool
        ensures { result ≡ ready_of self.now }
    {
        self.table.transfers.iter().any(|x| x.sets.queue != 0)
    }

    pub fn contains(&self, identity: MobileIdentity) -> bool
        ensures { result ≡ contains_of self.now identity }
    {
        self.table.contains(identity)
    }

    #[tactic(auto, unfolding(transfer::specs::Queries::pop_event_of))]
    pub fn pop_event(mut self) -> (Self, Option<Event>)
        ensures { says (next_of result.1) result.0 ≡ pop_event_of self }
    {
        let event = self.table.events.pop_at(0);
        (self, event)
    }

    pub fn pending(&self) -> usize
        ensures { result ≡ pending_of self.now }
    {
        self.table.transfers.len()
    }
}
