// What a status shows of a transfer.
// Ported from runtime/spach_arq.rs (chrismoos/136-bts 7c60b63bf4, Apache-2.0) and changed: see NOTICE.
ghost use Rattle.std.specs.Prelude.{◌≡◌, ◌+◌, ◌≤◌};
ghost use Rattle.token.specs.Token.{stop};
ghost use Rattle.spach.specs.Refusal.{left};
ghost use Rattle.transfer.specs.Numbers.{refusal_of};
ghost use Rattle.transfer.specs.State.{says};
ghost use Rattle.transfer.specs.Status.{status_at, status_of};
ghost use Rattle.sender.specs.View.{lent};

use super::Sender;
use receiver::ArqStatus;
use transfer::Error;
use transfer::effects::{observe, went_out};
use transfer::queue::has;

impl Sender {
    // False for an echo that no transfer has, and for one whose Begin did not go out; else `advance` follows.
    #[tactic(auto, unfolding(transfer::specs::Status::status_at))]
    pub(crate) fn hear(&mut self, status: ArqStatus) -> bool
        requires { 128 + self.old.next_token ≤ stop }
        ensures { says result self.new ≡ status_at self.old status }
    {
        let Some(place) = self.table.place_of_echo(status.partial_echo) else {
            return false;
        };
        let x = self.table.transfers[place];
        if !has(went_out(x.sets), 0) {
            return false;
        }
        let y = observe(status.received_frames, self.table.clock.last_block, x);
        self.table.put(place, y);
        self.walk(None);
        true
    }
}
