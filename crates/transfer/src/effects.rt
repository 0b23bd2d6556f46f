// What a call makes of one transfer.
// Ported from runtime/spach_arq.rs (chrismoos/136-bts 7c60b63bf4, Apache-2.0) and changed: see NOTICE.
ghost use Rattle.std.specs.Prelude.{◌≡◌, ◌+◌, ◌*◌, ◌≤◌, ◌<◌, length};
ghost use Rattle.std.specs.Int.Bits.{bit_or};
ghost use Rattle.transfer.specs.Transfer as model;
ghost use Rattle.transfer.specs.Prepare as prepare;
ghost use Rattle.transfer.specs.Submitted as submitted;
ghost use Rattle.transfer.specs.Status as status;
ghost use Rattle.transfer.specs.Refresh as refresh;

use super::constants::{MESSAGE_WORDS, REFRESH_BLOCKS};
use super::queue::{frame_alone, has, without};
use super::settling::{idle, passed};
use super::{Blocks, FrameToken, Sets, Transfer};

// The frames that went out: transmitted, or in flight.
pub fn went_out(sets: Sets) -> u32
    ensures { result ≡ bit_or sets.transmitted sets.in_flight }
{
    sets.transmitted | sets.in_flight
}

// The last frame queued again.
pub fn last_queued(x: Transfer) -> Transfer
    requires { (1 ≤ x.parcel.frames) × (x.parcel.frames ≤ 27) }
    ensures { result ≡ model.last_queued x }
{
    let queue = frame_alone(usize::from(x.parcel.frames - 1));
    Transfer {
        sets: Sets { queue, ..x.sets },
        ..x
    }
}

// If nothing is queued or in flight and a frame was submitted, the last is queued again.
pub fn repeated(x: Transfer) -> Transfer
    requires { (1 ≤ x.parcel.frames) × (x.parcel.frames ≤ 27) }
    ensures { result ≡ prepare.repeated x }
{
    if idle(x.sets) && x.blocks.last_frame.is_some() {
        last_queued(x)
    } else {
        x
    }
}

// If nothing is queued or in flight 16 blocks after the last frame was submitted, the last is queued again.
pub fn refreshed(block: u64, x: Transfer) -> Transfer
    requires { (1 ≤ x.parcel.frames) × (x.parcel.frames ≤ 27) }
    ensures { result ≡ refresh.refreshed block x }
{
    if idle(x.sets) && passed(REFRESH_BLOCKS, block, x.blocks.last_frame) {
        last_queued(x)
    } else {
        x
    }
}

// Blocks since the last frame was submitted, of a transfer that has one queued; else 0.
pub fn age_of(block: u64, x: &Transfer) -> u64
    ensures { result ≡ refresh.age_of block x.now }
{
    if x.sets.queue == 0 {
        0
    } else {
        blocks_since(block, x.blocks.last_frame)
    }
}

// Blocks since; 0 where there was none.
pub fn blocks_since(block: u64, since: Option<u64>) -> u64
    ensures { result ≡ refresh.blocks_since block since }
{
    since.map_or(0, |b| block.saturating_sub(b))
}

// The front of the queue goes in flight.
pub fn in_flight(frame: usize, block: u64, x: Transfer) -> Transfer
    requires { frame < 32 }
    ensures { result ≡ submitted.in_flight_lem frame block x }
{
    let bit = frame_alone(frame);
    Transfer {
        sets: Sets {
            queue: without(x.sets.queue, bit),
            in_flight: x.sets.in_flight | bit,
            ..x.sets
        },
        blocks: Blocks {
            last_progress: Some(block),
            last_frame: Some(block),
            ..x.blocks
        },
        ..x
    }
}

// The token's frame is in flight, under its submission.
pub fn is_outstanding(token: FrameToken, words: &[u64], x: &Transfer) -> bool
    requires { (x.now.parcel.frames ≤ 27) × (27 * x.now.parcel.n + 27 ≤ length words.now) }
    ensures { result ≡ submitted.is_outstanding token words.now x.now }
{
    token.frame < usize::from(x.parcel.frames)
        && has(x.sets.in_flight, token.frame)
        && words[MESSAGE_WORDS * usize::from(x.parcel.n) + token.frame] == token.submission.0
}

// It is transmitted, and in flight no more.
pub fn confirm_frame(frame: usize, x: Transfer) -> Transfer
    requires { frame < 32 }
    ensures { result ≡ submitted.confirm_frame frame x }
{
    let bit = frame_alone(frame);
    Transfer {
        sets: Sets {
            in_flight: without(x.sets.in_flight, bit),
            transmitted: x.sets.transmitted | bit,
            ..x.sets
        },
        ..x
    }
}

// The frames that a map shows.
pub fn shown(map: u32) -> u32
    ensures { result ≡ status.shown map }
{
    2 * (map % 67108864)
}

// What the map shows is observed, if it went out; this is progress, and it waits no more.
pub fn observe(map: u32, block: u64, x: Transfer) -> Transfer
    ensures { result ≡ status.observes map block x }
{
    let seen = shown(map) & went_out(x.sets);
    Transfer {
        sets: Sets {
            observed: x.sets.observed | seen,
            received_status: true,
            ..x.sets
        },
        blocks: Blocks {
            last_progress: Some(block),
            waiting_since: None,
            ..x.blocks
        },
        ..x
    }
}
