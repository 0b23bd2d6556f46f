// Sets of frames, each a number: bit k is frame k's, as in the Rust. A shift needs a frame below 32, so it is asked for here.
// Ported from runtime/spach_arq.rs (chrismoos/136-bts 7c60b63bf4, Apache-2.0) and changed: see NOTICE.
ghost use Rattle.std.specs.Prelude.{◌≡◌, ◌≤◌, ◌<◌};
ghost use Rattle.transfer.specs.Queue as sets;

// The lowest frame, 32 of no frame: the definition counts zeros, and so does this.
pub fn front(queue: u32) -> usize
    ensures { (result ≡ sets.front queue) × (result ≤ 32) }
{
    queue.trailing_zeros() as usize
}

pub fn one_left(queue: u32) -> bool
    ensures { result ≡ sets.one_left queue }
{
    queue.count_ones() == 1
}

// All of so many frames are in the set.
pub fn full(frames: u8, set: u32) -> bool
    ensures { result ≡ sets.full frames set }
{
    set.count_ones() == u32::from(frames)
}

// Those of a that are not in b.
pub fn without(a: u32, b: u32) -> u32
    ensures { result ≡ sets.without a b }
{
    a ^ (a & b)
}

pub fn has(set: u32, frame: usize) -> bool
    requires { frame < 32 }
    ensures { result ≡ sets.has set frame }
{
    (set >> frame) % 2 == 1
}

// The frames 0 to n − 1.
pub fn first_frames(n: u8) -> u32
    requires { n ≤ 27 }
    ensures { result ≡ sets.first_frames n }
{
    (1u32 << n) - 1
}

// The Continues of n frames: all but frame 0, if there is one.
pub fn continues_of(n: u8) -> u32
    requires { n ≤ 27 }
    ensures { result ≡ sets.continues_of n }
{
    first_frames(n).saturating_sub(1)
}

pub fn frame_alone(k: usize) -> u32
    requires { k < 32 }
    ensures { result ≡ sets.frame_alone k }
{
    1u32 << k
}
