// A transfer by itself: when it is done, how it settles, when it restarts and how it begins.
// Ported from runtime/spach_arq.rs (chrismoos/136-bts 7c60b63bf4, Apache-2.0) and changed: see NOTICE.
ghost use Rattle.std.specs.Prelude.{◌&&◌, ◌≡◌, ◌≤◌};
ghost use Rattle.transfer.specs.Queue as queues;
ghost use Rattle.transfer.specs.Transfer as model;

use super::constants::RESTART_BLOCKS;
use super::queue::{continues_of, first_frames, full, without};
use super::{Blocks, Generation, Parcel, Sets, Transfer};

// At least so many blocks have passed since, a rule of the sender, and no order of its own: a later block counts as none passed.
pub fn passed(limit: u64, block: u64, since: Option<u64>) -> bool
    ensures { result ≡ model.passed limit block since }
{
    since.is_some_and(|b| limit <= block.saturating_sub(b))
}

// Nothing queued and nothing in flight.
pub fn idle(sets: Sets) -> bool
    ensures { result ≡ (queues.is_empty sets.queue && queues.is_empty sets.in_flight) }
{
    sets.queue == 0 && sets.in_flight == 0
}

pub fn all_transmitted(x: &Transfer) -> bool
    ensures { result ≡ model.all_transmitted x.now }
{
    full(x.parcel.frames, x.sets.transmitted)
}

// A status came, nothing is in flight, every frame is transmitted and every Continue observed.
#[tactic(auto, unfolding(crate::specs::Transfer::done_of))]
pub fn done_of(x: &Transfer) -> bool
    requires { 1 ≤ x.now.parcel.frames }
    ensures { result ≡ model.done_of x.now }
{
    x.sets.received_status
        && x.sets.in_flight == 0
        && all_transmitted(x)
        && full(x.parcel.frames - 1, x.sets.observed)
}

pub fn begun(parcel: Parcel, echo: u8, generation: u64) -> Transfer
    requires { parcel.frames ≤ 27 }
    ensures { result ≡ model.begun parcel echo generation }
{
    Transfer {
        parcel,
        generation: Generation(generation),
        sets: Sets {
            queue: first_frames(parcel.frames),
            in_flight: 0,
            transmitted: 0,
            observed: 0,
            received_status: false,
        },
        echo,
        blocks: Blocks {
            last_progress: None,
            last_frame: None,
            waiting_since: None,
        },
    }
}

// The Continues that are not observed are queued again, and the status is used up.
pub fn requeued(x: Transfer) -> Transfer
    requires { x.parcel.frames ≤ 27 }
    ensures { result ≡ model.requeued x }
{
    let queue = without(continues_of(x.parcel.frames), x.sets.observed);
    Transfer {
        sets: Sets {
            queue,
            received_status: false,
            ..x.sets
        },
        blocks: Blocks {
            waiting_since: None,
            ..x.blocks
        },
        ..x
    }
}

// It waits from this block on, unless it does so already.
pub fn waits(block: u64, x: Transfer) -> Transfer
    ensures { result ≡ model.waits block x }
{
    let waiting_since = x.blocks.waiting_since.or(Some(block));
    Transfer {
        blocks: Blocks {
            waiting_since,
            ..x.blocks
        },
        ..x
    }
}

// With frames queued or in flight, or when done, it stays as it is.
#[tactic(auto, unfolding(crate::specs::Transfer::settle_of))]
pub fn settle(block: u64, x: Transfer) -> Transfer
    requires { (1 ≤ x.parcel.frames) × (x.parcel.frames ≤ 27) }
    ensures { result ≡ model.settle_of block x }
{
    if !idle(x.sets) || done_of(&x) {
        return x;
    }
    if x.sets.received_status {
        requeued(x)
    } else {
        waits(block, x)
    }
}

// 64 blocks since progress or waiting.
pub fn restart_due(block: u64, x: &Transfer) -> bool
    ensures { result ≡ model.restart_due block x.now }
{
    passed(RESTART_BLOCKS, block, x.blocks.last_progress)
        || passed(RESTART_BLOCKS, block, x.blocks.waiting_since)
}
