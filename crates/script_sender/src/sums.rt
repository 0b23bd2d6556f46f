// The sums of a sender's state and of the memory, over words.
use crate::values::event_parts;
use crate::{OCTETS, WORDS};
use script_wire::Operands;
use sender::Table;
use transfer::{PreparedFrame, Transfer};

// The step; a shift drops what passes the top bit.
fn mixed(sum: u64, word: u64) -> u64 {
    let a = sum ^ word;
    let b = a ^ (a << 13);
    b ^ (b >> 7)
}

// All words in turn, on from a sum.
fn words_sum(sum: u64, words: &[u64]) -> u64 {
    words.iter().fold(sum, |sum, word| mixed(sum, *word))
}

// One, identity, the frame's 14 octets in two words, token and echo; or zero alone if it is not held.
fn prepared_sum(sum: u64, frame: Option<PreparedFrame>) -> u64 {
    let Some(frame) = frame else {
        return mixed(sum, 0);
    };
    let identity = frame.identity.parts();
    let mut octets = [0; 16];
    octets[..14].copy_from_slice(&frame.octets);
    let mut octets = Operands::new(&octets);
    let words = [
        1,
        u64::from(identity.identity_type),
        identity.value,
        octets.eight(),
        octets.eight(),
        frame.token.generation.0,
        frame.token.submission.0,
        frame.token.frame as u64,
        u64::from(frame.partial_echo),
    ];
    words_sum(sum, &words)
}

// From the queue to the completion.
fn progress_words(x: &Transfer) -> [u64; 13] {
    let sets = x.sets;
    let blocks = x.blocks;
    [
        u64::from(sets.queue),
        u64::from(sets.in_flight),
        u64::from(sets.transmitted),
        u64::from(sets.observed),
        u64::from(sets.received_status),
        u64::from(blocks.last_progress.is_some()),
        blocks.last_progress.unwrap_or(0),
        u64::from(blocks.last_frame.is_some()),
        blocks.last_frame.unwrap_or(0),
        u64::from(blocks.waiting_since.is_some()),
        blocks.waiting_since.unwrap_or(0),
        x.parcel.deadline_ms,
        x.parcel.completion,
    ]
}

fn transfer_sum(sum: u64, x: &Transfer) -> u64 {
    let identity = x.parcel.identity.parts();
    let words = [
        u64::from(identity.identity_type),
        identity.value,
        u64::from(x.echo),
        x.parcel.owner.0,
        x.generation.0,
        u64::from(x.parcel.channel.usage()),
        u64::from(x.parcel.octets),
        u64::from(x.parcel.frames),
    ];
    words_sum(words_sum(sum, &words), &progress_words(x))
}

// The sum of the state.
pub fn state_sum(table: &Table) -> u64 {
    let words = [
        table.transfers.len() as u64,
        table.events.len() as u64,
        table.echoes.next_echo() as u64,
        table.clock.last_block,
        table.clock.last_ms,
        table.next_token,
    ];
    let front = prepared_sum(words_sum(0, &words), table.selected);
    let live = table.transfers.iter().fold(front, transfer_sum);
    let waiting = table.events.iter().fold(live, |sum, event| {
        let (kind, completion, error) = event_parts(*event);
        words_sum(sum, &[u64::from(kind), completion, u64::from(error)])
    });
    words_sum(waiting, table.echoes.until_ms())
}

// A word goes to the next of the lanes, to which they are dealt in turn.
fn deal(lanes: &mut [u64; 4], index: usize, word: u64) {
    let lane = index % 4;
    lanes[lane] = mixed(lanes[lane], word);
}

// The octets by eight.
fn deal_octets(lanes: &mut [u64; 4], octets: &[u8]) {
    for (index, eight) in octets.chunks_exact(8).enumerate() {
        deal(lanes, index, Operands::new(eight).eight());
    }
}

// The sum of the whole memory, in four lanes: the octets, then the words.
pub fn memory_sum(octets: &[u8; OCTETS], words: &[u64; WORDS]) -> u64 {
    let mut lanes = [0, 1, 2, 3];
    deal_octets(&mut lanes, octets);
    for (index, word) in words.iter().enumerate() {
        deal(&mut lanes, index, *word);
    }
    words_sum(0, &lanes)
}
