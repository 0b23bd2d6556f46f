// Waiting transfers queued again, and the oldest of those that are ready served first.
// Ported from runtime/spach_arq.rs (chrismoos/136-bts 7c60b63bf4, Apache-2.0) and changed: see NOTICE.
ghost use Rattle.std.specs.Prelude.{◌≡◌, ◌≤◌, ◌<◌, IfSome, length, unwrap_or};
ghost use Rattle.spach.specs.Refusal.{left};
ghost use Rattle.transfer.specs.Invariant.{Sound};
ghost use Rattle.transfer.specs.Numbers.{refusal_of};
ghost use Rattle.transfer.specs.Refresh as definition;
ghost use Rattle.sender.specs.View.{lent};

use super::Sender;
use super::table::Table;
use transfer::Error;
use transfer::constants::REFRESH_BLOCKS;
use transfer::effects::{age_of, refreshed};

impl Table {
    ghost use Rattle.sender.specs.View.{view_of};

    // The place of the oldest that is ready, of equal ones the last, if one has waited for 16 blocks.
    #[tactic(auto, unfolding(transfer::specs::Refresh::oldest))]
    fn oldest(&self) -> Option<usize>
        ensures place { unwrap_or result (length self.now.transfers.items) ≡ definition.oldest self.now.clock.last_block self.now.transfers.items }
        ensures within { IfSome result (λ i. i < length self.now.transfers.items) }
    {
        let mut oldest = None;
        let mut top = REFRESH_BLOCKS;
        for (i, x) in self.transfers.iter().enumerate() {
            let age = age_of(self.clock.last_block, x);
            if top <= age {
                oldest = Some(i);
                top = age;
            }
        }
        oldest
    }

    // Each transfer that waits has its last frame queued again.
    #[tactic(auto, unfolding(transfer::specs::Refresh::queue_waiting))]
    fn queue_waiting(&mut self)
        requires { Sound (view_of self.old) }
        ensures { view_of self.new ≡ definition.queue_waiting (view_of self.old) }
    {
        let block = self.clock.last_block;
        for i in 0..self.transfers.len() {
            let x = self.transfers[i];
            self.put(i, refreshed(block, x));
        }
    }

    // If no frame is selected, the oldest that is ready goes to the front.
    #[tactic(auto, unfolding(transfer::specs::Refresh::serve_oldest))]
    fn serve_oldest(&mut self)
        requires { length self.old.transfers.items ≤ 128 }
        ensures { view_of self.new ≡ definition.serve_oldest (view_of self.old) }
    {
        if self.selected.is_some() {
            return;
        }
        if let Some(place) = self.oldest() {
            let x = self.transfers[place];
            self.move_to_front(place, x);
        }
    }
}

impl Sender {
    // The waiting ones are queued again, and the oldest that is ready goes to the front.
    pub(crate) fn refresh(&mut self)
        ensures { self.new ≡ definition.serve_oldest (definition.queue_waiting self.old) }
    {
        self.table.queue_waiting();
        self.table.serve_oldest();
    }
}
