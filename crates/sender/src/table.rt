// The fields of a sender, and the steps on them after which what `Sender` promises of them need not hold yet.
// Ported from runtime/spach_arq.rs (chrismoos/136-bts 7c60b63bf4, Apache-2.0) and changed: see NOTICE.
ghost use Rattle.std.specs.Prelude.{◌≡◌, ◌≤◌, ◌<◌, ◌∷◌, IfSome, length, position};
ghost use Rattle.transfer.specs.Cancel.{owned_by};
ghost use Rattle.transfer.specs.Enqueue.{addressed};
ghost use Rattle.transfer.specs.Lists.{any, remove_at};
ghost use Rattle.transfer.specs.Prepare.{is_ready};
ghost use Rattle.transfer.specs.State.{of_echo, of_generation, clear_selected, put_at, with_event, with_transfers};

use super::list::FixedList;
use rach::MobileIdentity;
use transfer::constants::ECHO_VALUES;
use transfer::echo::Echoes;
use transfer::{Clock, Event, Generation, Limits, PreparedFrame, Transfer, TransferToken};

// Room for the events of as many transfers as may be live, twice over.
const MOST_EVENTS: usize = 256;

// Between two steps of a call nothing need hold of it, so it has no invariant: a step asks for what it needs, room for an event,
// tokens left or octets lent, and what `admit` found out, or a sender's invariant, gives it.
#[derive(Clone, Copy)]
pub struct Table {
    pub limits: Limits,
    pub clock: Clock,
    // Live transfers, overdue ones too, in the order in which they are served.
    pub transfers: FixedList<Transfer, ECHO_VALUES>,
    // Events that wait to be taken, oldest first.
    pub events: FixedList<Event, MOST_EVENTS>,
    pub echoes: Echoes,
    // The frame that was prepared last, until it is submitted or dropped.
    pub selected: Option<PreparedFrame>,
    pub next_token: u64,
}

impl Table {
    ghost use Rattle.sender.specs.View.{view_of};
    ghost use Rattle.transfer.specs.State as state;

    // No transfer, no event, every echo free, both clocks at 0.
    pub(crate) fn fresh(limits: Limits, first: u64) -> Table
        ensures { view_of result ≡ state.fresh limits.capacity limits.echo_guard_ms limits.startup_until_block first }
    {
        Table {
            limits,
            clock: Clock {
                last_block: 0,
                last_ms: 0,
            },
            transfers: FixedList::new(),
            events: FixedList::new(),
            echoes: Echoes::new(),
            selected: None,
            next_token: first,
        }
    }

    // ---- the place of the first transfer that is sought: the library's search, each with its own test

    // One search for all, the test handed in, was tried: each of the nine callers then proves which definition it hands in.

    // Of this echo.
    pub(crate) fn place_of_echo(&self, echo: u8) -> Option<usize>
        ensures place { result ≡ position (of_echo echo) self.now.transfers.items }
        ensures within { IfSome result (λ i. i < length self.now.transfers.items) }
    {
        self.transfers.iter().position(|x| x.echo == echo)
    }

    // Of this generation.
    pub(crate) fn place_of_generation(&self, generation: Generation) -> Option<usize>
        ensures place { result ≡ position (of_generation generation) self.now.transfers.items }
        ensures within { IfSome result (λ i. i < length self.now.transfers.items) }
    {
        self.transfers
            .iter()
            .position(|x| x.generation == generation)
    }

    // Of this owner.
    pub(crate) fn place_of_owner(&self, owner: TransferToken) -> Option<usize>
        ensures place { result ≡ position (owned_by owner) self.now.transfers.items }
        ensures within { IfSome result (λ i. i < length self.now.transfers.items) }
    {
        self.transfers.iter().position(|x| x.parcel.owner == owner)
    }

    // To this identity.
    pub(crate) fn place_of_identity(&self, identity: MobileIdentity) -> Option<usize>
        ensures place { result ≡ position (addressed identity) self.now.transfers.items }
        ensures within { IfSome result (λ i. i < length self.now.transfers.items) }
    {
        self.transfers.iter().position(|x| is_to(x, identity))
    }

    // That has a frame queued.
    pub(crate) fn place_of_ready(&self) -> Option<usize>
        ensures place { result ≡ position is_ready self.now.transfers.items }
        ensures within { IfSome result (λ i. i < length self.now.transfers.items) }
    {
        self.transfers.iter().position(|x| x.sets.queue != 0)
    }

    // Some transfer is to this identity.
    pub(crate) fn contains(&self, identity: MobileIdentity) -> bool
        ensures { result ≡ any (addressed identity) self.now.transfers.items }
    {
        self.transfers.iter().any(|x| is_to(x, identity))
    }

    // ---- steps

    // No frame of this generation is selected any more.
    pub(crate) fn unselect(&mut self, generation: Generation)
        ensures { view_of self.new ≡ clear_selected (view_of self.old) generation }
    {
        self.selected = self.selected.filter(|f| f.token.generation != generation);
    }

    // A transfer of this generation ends: its event waits, and no frame of it is selected.
    pub(crate) fn end(&mut self, generation: Generation, event: Event)
        requires { length self.old.events.items < 256 }
        ensures { view_of self.new ≡ with_event (clear_selected (view_of self.old) generation) event }
    {
        self.unselect(generation);
        self.events.push(event);
    }

    // The transfer at a place becomes this one.
    pub(crate) fn put(&mut self, place: usize, x: Transfer)
        requires { place < length self.old.transfers.items }
        ensures { view_of self.new ≡ put_at (view_of self.old) place x }
    {
        self.transfers.set(place, x);
    }

    // The transfer at a place is taken out, and this one put at the front.
    pub(crate) fn move_to_front(&mut self, place: usize, x: Transfer)
        requires place { place < length self.old.transfers.items }
        requires room { length self.old.transfers.items ≤ 128 }
        ensures { view_of self.new ≡ with_transfers (view_of self.old) (x ∷ remove_at place self.old.transfers.items) }
    {
        self.transfers.remove(place);
        self.transfers.insert(0, x);
    }
}

// The transfer is to this identity.
#[tactic(auto, using(rach::proofs::Laws::eq_same))]
fn is_to(x: &Transfer, identity: MobileIdentity) -> bool
    ensures { result ≡ addressed identity x.now }
{
    x.parcel.identity == identity
}
