// Which frame goes out next, and that frame made.
// Ported from runtime/spach_arq.rs (chrismoos/136-bts 7c60b63bf4, Apache-2.0) and changed: see NOTICE.
ghost use Rattle.std.specs.Prelude.{◌≡◌, ◌+◌, ◌*◌, ◌≤◌, ◌<◌, length};
ghost use Rattle.token.specs.Token.{stop};
ghost use Rattle.spach.specs.Refusal.{left};
ghost use Rattle.transfer.specs.Numbers.{refusal_of};
ghost use Rattle.transfer.specs.Prepare as definition;
ghost use Rattle.transfer.specs.State.{with_selected};
ghost use Rattle.sender.specs.View.{lent};

use super::Sender;
use super::table::Table;
use token::number_after;
use transfer::effects::repeated;
use transfer::frame::packed_of;
use transfer::queue::{front, one_left};
use transfer::{Error, FrameToken, PreparedFrame, Submission, Transfer};

impl Table {
    ghost use Rattle.sender.specs.View.{view_of};

    // The front of the transfer's queue is made and selected.
    fn select(&mut self, x: &Transfer, store: &[u8]) -> Result<Option<PreparedFrame>, Error>
        requires { 255 * x.now.parcel.n + x.now.parcel.octets ≤ length store.now }
        ensures { left refusal_of (view_of self.new, result) ≡ definition.selects (view_of self.old) x.now (definition.front_of x.now store.now) }
    {
        let frame = front(x.sets.queue);
        let packed = packed_of(x, store, frame, one_left(x.sets.queue))?;
        let token = FrameToken {
            generation: x.generation,
            submission: Submission(self.next_token),
            frame,
        };
        let octets = packed.octets;
        self.selected = Some(PreparedFrame {
            identity: x.parcel.identity,
            octets,
            token,
            partial_echo: x.echo,
        });
        self.next_token = number_after(self.next_token);
        Ok(self.selected)
    }

    // A selected frame of another echo is dropped.
    fn select_only(&mut self, echo: u8)
        ensures { view_of self.new ≡ with_selected (view_of self.old) (definition.only_echo echo self.old.selected) }
    {
        self.selected = self.selected.filter(|f| f.partial_echo == echo);
    }
}

impl Sender {
    // The selected frame as it is; else the front of the first transfer that has one queued.
    #[tactic(auto, unfolding(transfer::specs::Prepare::choose))]
    pub(crate) fn choose(&mut self, store: &[u8]) -> Result<Option<PreparedFrame>, Error>
        requires room { 32640 ≤ length store.now }
        requires tokens { self.old.next_token < stop }
        ensures { left refusal_of (self.new, result) ≡ definition.choose self.old store.now }
    {
        if let Some(frame) = self.table.selected {
            return Ok(Some(frame));
        }
        let Some(place) = self.table.place_of_ready() else {
            return Ok(None);
        };
        let x = self.table.transfers[place];
        self.table.select(&x, store)
    }

    // The first transfer of the echo goes to the front, its last frame queued again if it waits.
    #[tactic(auto, unfolding(transfer::specs::Prepare::prioritize_at))]
    pub(crate) fn prioritize(
        &mut self,
        echo: u8,
        store: &[u8],
    ) -> Result<Option<PreparedFrame>, Error>
        requires room { 32640 ≤ length store.now }
        requires tokens { self.old.next_token < stop }
        ensures { left refusal_of (self.new, result) ≡ definition.prioritize_at self.old store.now echo }
    {
        let Some(place) = self.table.place_of_echo(echo) else {
            return Ok(None);
        };
        let x = self.table.transfers[place];
        let x = repeated(x);
        let queue = x.sets.queue;
        self.table.move_to_front(place, x);
        self.table.select_only(echo);
        if queue == 0 {
            return Ok(None);
        }
        self.choose(store)
    }
}
