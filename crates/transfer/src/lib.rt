// A transfer of the sender: a message cut into frames, which are sent until its receiver's statuses show it whole.
// Ported from runtime/spach_arq.rs (chrismoos/136-bts 7c60b63bf4, Apache-2.0) and changed: see NOTICE.
#![tactic(auto)]

pub mod advance;
pub mod constants;
pub mod echo;
pub mod effects;
pub mod frame;
pub mod queue;
pub mod settling;
pub mod store;

ghost use Rattle.std.specs.Prelude.{◌≡◌};
ghost use Rattle.transfer.specs.Numbers.{refusal_of};
ghost use Rattle.transfer.specs.Apart.{refusals_apart};
ghost use Rattle.transfer.specs.declared.Error.TheVariants.{Wire};

use rach::MobileIdentity;
use spach::{Channel, Numbered, SpachError};

// Tells the transfers of one sender apart, whatever echo they hold: the owner of each is a number of its counter.
#[derive(Clone, Copy, Debug, PartialEq, Eq)]
pub struct TransferToken(pub u64);

// Tells apart the turns of a transfer, each of which has an echo of its own.
#[derive(Clone, Copy, Debug, PartialEq, Eq)]
pub struct Generation(pub u64);

// Tells the frames apart that were prepared.
#[derive(Clone, Copy, Debug, PartialEq, Eq)]
pub struct Submission(pub u64);

#[derive(Clone, Copy, Debug, PartialEq, Eq)]
pub struct FrameToken {
    pub generation: Generation,
    pub submission: Submission,
    pub frame: usize,
}

// Why a call of the sender is refused.
#[derive(Clone, Copy, Debug, PartialEq, Eq)]
pub enum Error {
    Limits,
    Capacity,
    EchoExhausted,
    Clock,
    Deadline,
    Stale,
    Wire(SpachError),
}

// 01's numbers.
impl Numbered for Error {
    ghost number_of = { refusal_of };

    ghost numbers_apart = { refusals_apart };

    fn number(self) -> u8 {
        match self {
            Error::Limits => 19,
            Error::Capacity => 20,
            Error::EchoExhausted => 21,
            Error::Clock => 22,
            Error::Deadline => 23,
            Error::Stale => 24,
            Error::Wire(wire) => wire.number(),
        }
    }
}

impl From<SpachError> for Error {
    ghost from_gives = { λ wire e. e ≡ Wire wire };

    fn from(wire: SpachError) -> Error {
        Error::Wire(wire)
    }
}

// What the constructor of a sender was given: how many transfers may be live, the first usable block, and the guard
// milliseconds.
#[derive(Clone, Copy, Debug, PartialEq, Eq)]
pub struct Limits {
    pub capacity: usize,
    pub startup_until_block: u64,
    pub echo_guard_ms: u64,
}

// The block and the milliseconds of the last clock that was accepted.
#[derive(Clone, Copy, Debug, PartialEq, Eq)]
pub struct Clock {
    pub last_block: u64,
    pub last_ms: u64,
}

// How a transfer ended, with its completion number. The Rust's own, as 01 has it.
#[derive(Clone, Copy, Debug, PartialEq, Eq)]
pub enum Event {
    Complete(u64),
    Expired(u64),
    Cancelled(u64),
    Failed { completion: u64, error: Error },
}

// What the unused places of a list of events hold.
impl Default for Event {
    ghost use Rattle.std.specs.Prelude.{◌≡◌};
    ghost use Rattle.transfer.specs.declared.Event.TheVariants.{Complete};

    ghost is_default = { λ event. event ≡ Complete 0 };

    fn default() -> Event {
        Event::Complete(0)
    }
}

// What is to be sent; its message stands beside it.
#[derive(Clone, Copy, Debug, PartialEq, Eq)]
pub struct Request {
    pub identity: MobileIdentity,
    pub channel: Channel,
    pub completion: u64,
    pub deadline_ms: u64,
}

// What a request that is not refused is given.
#[derive(Clone, Copy, Debug, PartialEq, Eq)]
pub struct Grant {
    pub frames: u8,
    pub echo: u8,
}

// What a transfer is from first to last: its request, the length of its message, how many frames that needs, its place n in
// the lent store, and its token.
#[derive(Clone, Copy, Debug, PartialEq, Eq)]
pub struct Parcel {
    pub identity: MobileIdentity,
    pub completion: u64,
    pub deadline_ms: u64,
    pub owner: TransferToken,
    pub channel: Channel,
    pub octets: u8,
    pub frames: u8,
    pub n: u8,
}

// Where its frames stand, each set a number: bit k is frame k's, the Begin is frame 0 and Continue k the frame k + 1.
// Observed are the Continues that a status showed.
#[derive(Clone, Copy, Debug, PartialEq, Eq)]
pub struct Sets {
    pub queue: u32,
    pub in_flight: u32,
    pub transmitted: u32,
    pub observed: u32,
    pub received_status: bool,
}

// The block of its last progress, of the last frame that was submitted, and since which it waits, once there is one.
#[derive(Clone, Copy, Debug, PartialEq, Eq)]
pub struct Blocks {
    pub last_progress: Option<u64>,
    pub last_frame: Option<u64>,
    pub waiting_since: Option<u64>,
}

#[derive(Clone, Copy, Debug, PartialEq, Eq)]
pub struct Transfer {
    pub parcel: Parcel,
    pub generation: Generation,
    pub sets: Sets,
    pub echo: u8,
    pub blocks: Blocks,
}

// What the unused places of a list of transfers hold.
impl Default for Transfer {
    ghost use Rattle.std.specs.Prelude.{◌≡◌};
    ghost use Rattle.transfer.specs.State.{blank_transfer};

    ghost is_default = { λ x. x ≡ blank_transfer };

    fn default() -> Transfer {
        let parcel = Parcel {
            identity: MobileIdentity::Tmsi20(0),
            completion: 0,
            deadline_ms: 0,
            owner: TransferToken(0),
            channel: Channel::Arch,
            octets: 0,
            frames: 0,
            n: 0,
        };
        settling::begun(parcel, 0, 0)
    }
}

// What becomes of a transfer in `advance`: three ways, none of which is a refusal.
#[derive(Clone, Copy, Debug, PartialEq, Eq)]
pub enum Fate {
    Ends(Event),
    Restarts,
    Stays(Transfer),
}

// A frame ready to be sent, and the token under which it is reported. 01's form.
#[derive(Clone, Copy, Debug, PartialEq, Eq)]
pub struct PreparedFrame {
    pub identity: MobileIdentity,
    pub octets: [u8; 14],
    pub token: FrameToken,
    pub partial_echo: u8,
}
