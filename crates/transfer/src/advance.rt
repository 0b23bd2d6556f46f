// What becomes of a transfer in `advance`.
// Ported from runtime/spach_arq.rs (chrismoos/136-bts 7c60b63bf4, Apache-2.0) and changed: see NOTICE.
ghost use Rattle.std.specs.Prelude.{◌≡◌, ◌≤◌};
ghost use Rattle.transfer.specs.Advance.{fate_of};

use super::settling::{done_of, restart_due, settle};
use super::{Clock, Event, Fate, Transfer};

// Expired even if done; Complete; else it settles, and restarts if that was asked for or is due.
// 1 to 27 stands in five contracts of this crate: in a type it would be asked of those that do not need it.
#[tactic(auto, unfolding(crate::specs::Advance::fate_of))]
pub fn fate_of(clock: Clock, asked: bool, x: &Transfer) -> Fate
    requires { (1 ≤ x.now.parcel.frames) × (x.now.parcel.frames ≤ 27) }
    ensures { result ≡ fate_of clock asked x.now }
{
    if x.parcel.deadline_ms <= clock.last_ms {
        return Fate::Ends(Event::Expired(x.parcel.completion));
    }
    if done_of(x) {
        return Fate::Ends(Event::Complete(x.parcel.completion));
    }
    let y = settle(clock.last_block, *x);
    if asked || restart_due(clock.last_block, &y) {
        Fate::Restarts
    } else {
        Fate::Stays(y)
    }
}
