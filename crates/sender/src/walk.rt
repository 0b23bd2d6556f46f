// The walk of `advance` over the live transfers.
// Ported from runtime/spach_arq.rs (chrismoos/136-bts 7c60b63bf4, Apache-2.0) and changed: see NOTICE.
ghost use Rattle.std.specs.Prelude.{◌≡◌, List, ◌+◌, ◌++◌, ◌≤◌, ◌<◌, length, option_to_list};
ghost use Rattle.token.specs.Token.{stop};
ghost use Rattle.transfer.specs.declared.Transfer as transfers;
ghost use Rattle.spach.specs.Refusal.{left};
ghost use Rattle.transfer.specs.Advance as advance;
ghost use Rattle.transfer.specs.Numbers.{refusal_of};
ghost use Rattle.transfer.specs.Prepare.{interrupt_of};
ghost use Rattle.transfer.specs.Echo.{free_echo};
ghost use Rattle.transfer.specs.Invariant.{Sound};
ghost use Rattle.transfer.specs.State.{with_transfers};
ghost use Rattle.sender.specs.Asked.{asked_at};
ghost use Rattle.sender.specs.View.{lent};

use super::Sender;
use super::table::Table;
use token::number_after;
use transfer::advance::fate_of;
use transfer::settling::begun;
use transfer::{Error, Event, Fate, Transfer};

impl Table {
    ghost use Rattle.sender.specs.View.{view_of};

    // A transfer begins again under a free echo; with none free it is Failed.
    fn restart(&mut self, x: &Transfer) -> Option<Transfer>
        requires room { length self.old.events.items < 256 }
        requires frames { x.now.parcel.frames ≤ 27 }
        requires fits { x.now.parcel.deadline_ms + self.old.limits.echo_guard_ms ≤ stop }
        ensures step { (before : List transfers.Transfer) → advance.restart (with_transfers (view_of self.old) before) x.now (free_echo self.old.echoes self.old.clock.last_ms)
            ≡ with_transfers (view_of self.new) (before ++ option_to_list result) }
        ensures same { self.new.transfers ≡ self.old.transfers }
        ensures guard { self.new.limits ≡ self.old.limits }
        ensures one { length self.new.events.items + length (option_to_list result) ≡ length self.old.events.items + 1 }
    {
        let Some(echo) = self.echoes.free_echo(self.clock.last_ms) else {
            let event = Event::Failed {
                completion: x.parcel.completion,
                error: Error::EchoExhausted,
            };
            self.end(x.generation, event);
            return None;
        };
        self.unselect(x.generation);
        self.echoes
            .hold(echo, x.parcel.deadline_ms + self.limits.echo_guard_ms);
        let y = begun(x.parcel, echo, self.next_token);
        self.next_token = number_after(self.next_token);
        Some(y)
    }

    // A transfer ends, begins again, or stays; what goes on is handed back.
    #[tactic(auto, unfolding(transfer::specs::Advance::step))]
    fn turn(&mut self, asked: bool, x: &Transfer) -> Option<Transfer>
        requires room { length self.old.events.items < 256 }
        requires frames { (1 ≤ x.now.parcel.frames) × (x.now.parcel.frames ≤ 27) }
        requires fits { x.now.parcel.deadline_ms + self.old.limits.echo_guard_ms ≤ stop }
        ensures step { (before : List transfers.Transfer) → advance.step (with_transfers (view_of self.old) before) (asked, x.now)
            ≡ with_transfers (view_of self.new) (before ++ option_to_list result) }
        ensures same { self.new.transfers ≡ self.old.transfers }
        ensures guard { self.new.limits ≡ self.old.limits }
        ensures one { length self.new.events.items + length (option_to_list result) ≡ length self.old.events.items + 1 }
    {
        match fate_of(self.clock, asked, x) {
            Fate::Stays(y) => Some(y),
            Fate::Ends(event) => {
                self.end(x.generation, event);
                None
            }
            Fate::Restarts => self.restart(x),
        }
    }

    // Each transfer in turn; the restart of the one at `asked` is asked for. Those that go on move up in place: a list taken
    // out and made anew would be two more copies of 16 kilobytes, and `retain` cannot hold it while a turn changes the table.
    fn walk(&mut self, asked: Option<usize>)
        requires { Sound (view_of self.old) }
        ensures { view_of self.new ≡ advance.walk (view_of self.old) (asked_at asked self.old.transfers.items) }
    {
        let mut kept = 0;
        for i in 0..self.transfers.len() {
            let x = self.transfers[i];
            if let Some(y) = self.turn(asked == Some(i), &x) {
                self.put(kept, y);
                kept += 1;
            }
        }
        self.transfers.truncate(kept);
    }
}

impl Sender {
    // Each transfer ends, begins again or stays, and the restart of the one at `asked` is asked for. That a sender is left whole
    // is shown here once.
    pub(crate) fn walk(&mut self, asked: Option<usize>)
        requires { 128 + self.old.next_token ≤ stop }
        ensures walked { self.new ≡ advance.walk self.old (asked_at asked self.old.transfers) }
        ensures tokens { self.new.next_token ≤ self.old.next_token + 128 }
    {
        self.table.walk(asked);
    }
}
