// Transfers cancelled.
// Ported from runtime/spach_arq.rs (chrismoos/136-bts 7c60b63bf4, Apache-2.0) and changed: see NOTICE.
ghost use Rattle.std.specs.Prelude.{Bool, ◌≡◌, ◌+◌, ◌≤◌, ◌<◌, IfSome, get_or, length, position};
ghost use Rattle.transfer.specs.declared.Transfer.{Transfer};
ghost use Rattle.transfer.specs.Cancel.{cancel_all_of, cancel_first};
ghost use Rattle.transfer.specs.Enqueue.{replaced};
ghost use Rattle.transfer.specs.State.{cancel_at, blank_transfer, says};

use super::Sender;
use super::table::Table;
use rach::MobileIdentity;
use transfer::Event;

impl Table {
    ghost use Rattle.sender.specs.View.{view_of};

    // Each transfer's Cancelled waits behind the other events, in their order; none is live, and nothing is selected.
    #[tactic(auto, unfolding(transfer::specs::Cancel::cancel_all_of))]
    pub(crate) fn cancel_each(&mut self)
        requires { length self.old.transfers.items + length self.old.events.items ≤ 256 }
        ensures { view_of self.new ≡ cancel_all_of (view_of self.old) }
    {
        let events = &mut self.events;
        for x in self.transfers.iter() {
            events.push(Event::Cancelled(x.parcel.completion));
        }
        self.transfers.clear();
        self.selected = None;
    }
}

impl Sender {
    // The transfer at a place is taken out, and Cancelled.
    pub(crate) fn cancel_at(&mut self, place: usize)
        requires { place < length self.old.transfers }
        ensures { self.new ≡ cancel_at self.old place (get_or self.old.transfers place blank_transfer) }
    {
        let x = self.table.transfers.remove(place);
        self.table
            .end(x.generation, Event::Cancelled(x.parcel.completion));
    }

    // A transfer to the same identity is taken out, and Cancelled.
    pub(crate) fn replace(&mut self, identity: MobileIdentity)
        ensures { self.new ≡ replaced self.old identity }
    {
        if let Some(place) = self.table.place_of_identity(identity) {
            self.cancel_at(place);
        }
    }

    // If one was found at this place, it is taken out, and Cancelled; whether one was.
    pub(crate) fn cancel_found(&mut self, place: Option<usize>) -> bool
        requires { IfSome place (λ i. i < length self.old.transfers) }
        ensures { (passes : Transfer → Bool) → place ≡ position passes self.old.transfers → says result self.new ≡ cancel_first passes self.old }
    {
        let Some(place) = place else {
            return false;
        };
        self.cancel_at(place);
        true
    }
}
