// A frame handed in, and a frame confirmed.
// Ported from runtime/spach_arq.rs (chrismoos/136-bts 7c60b63bf4, Apache-2.0) and changed: see NOTICE.
ghost use Rattle.std.specs.Prelude.{◌&&◌, ◌≡◌, List, ℕ, ◌+◌, ◌≤◌, eqb, length};
ghost use Rattle.token.specs.Token.{stop};
ghost use Rattle.spach.specs.Refusal.{left};
ghost use Rattle.transfer.specs.Numbers.{refusal_of};
ghost use Rattle.transfer.specs.Prepare.{is_ready};
ghost use Rattle.transfer.specs.Queue as queue;
ghost use Rattle.transfer.specs.State.{says};
ghost use Rattle.transfer.specs.Submitted as definition;
ghost use Rattle.sender.specs.View.{lent, wrote};

use super::Sender;
use super::clock::is_short;
use spach::SpachError;
use transfer::constants::MESSAGE_WORDS;
use transfer::effects::{confirm_frame, in_flight, is_outstanding};
use transfer::queue::front;
use transfer::settling::all_transmitted;
use transfer::{Error, FrameToken, PreparedFrame, Transfer};

// The token of the selected frame.
fn is_selected(token: FrameToken, selected: Option<PreparedFrame>) -> bool
    ensures { result ≡ definition.is_selected token selected }
{
    selected.is_some_and(|f| f.token == token)
}

// A frame is queued, and this is the first.
fn is_front(frame: usize, x: &Transfer) -> bool
    ensures { result ≡ (is_ready x.now && eqb (queue.front x.now.sets.queue) frame) }
{
    x.sets.queue != 0 && front(x.sets.queue) == frame
}

impl Sender {
    // Not the selected frame 24. Else its transfer goes to the back with that frame in flight, nothing is selected any more, and
    // the word of the frame holds the submission.
    #[tactic(auto, unfolding(transfer::specs::Submitted::submitted_at))]
    pub(crate) fn hand_in(&mut self, token: FrameToken, words: &mut [u64]) -> Result<(), Error>
        requires { 3456 ≤ length words.old }
        ensures { (octets : List ℕ) → wrote (self.new, result) (lent octets words.new) ≡ definition.submitted_at self.old (lent octets words.old) token }
    {
        if !is_selected(token, self.table.selected) {
            return Err(Error::Stale);
        }
        let Some(place) = self.table.place_of_generation(token.generation) else {
            return Err(Error::Stale);
        };
        let x = self.table.transfers[place];
        if !is_front(token.frame, &x) {
            return Err(Error::Stale);
        }
        words[MESSAGE_WORDS * usize::from(x.parcel.n) + token.frame] = token.submission.0;
        self.table.transfers.remove(place);
        self.table
            .transfers
            .push(in_flight(token.frame, self.table.clock.last_block, x));
        self.table.selected = None;
        Ok(())
    }

    // A frame in flight is confirmed, and `advance` follows: whether all frames are transmitted with it.
    #[tactic(auto, unfolding(transfer::specs::Submitted::transmitted_at))]
    pub(crate) fn confirm(&mut self, token: FrameToken, words: &[u64]) -> Option<bool>
        requires room { 3456 ≤ length words.now }
        requires tokens { 128 + self.old.next_token ≤ stop }
        ensures { says result self.new ≡ definition.transmitted_at self.old words.now token }
    {
        let place = self.table.place_of_generation(token.generation)?;
        let x = self.table.transfers[place];
        if !is_outstanding(token, words, &x) {
            return None;
        }
        let y = confirm_frame(token.frame, x);
        self.table.put(place, y);
        self.walk(None);
        Some(all_transmitted(&y))
    }
}
