// ArqReassembler: frames of one transfer put together again.
// Ported from link/spach/arq/receiver.rs (chrismoos/136-bts 7c60b63bf4, Apache-2.0) and changed: see NOTICE.
#![tactic(auto)]

mod message;
pub mod push;
mod transaction;

ghost use Rattle.std.specs.Prelude.{◌≡◌};
ghost use Rattle.spach.specs.Refusal.{number_of, by_number};
ghost use Rattle.receiver.specs.Receiver.{new_of, reset_of, status_answer, complete_of, push_of, pushed};

use arq::ResponseMode;
use rach::MobileIdentity;
use spach::{Channel, HeaderFlags, SpachError};
pub use transaction::Transaction;

// What every receiver is (specs/Valid.antt) is no invariant of the type: no call asks for it, and push_frame takes any
// frame, so any echo.
#[derive(Clone, Copy, Debug, PartialEq, Eq)]
pub struct ArqReassembler {
    pub identity: MobileIdentity,
    pub transaction: Option<Transaction>,
}

// A delivered message: its octets stand at the front of the buffer that was lent, which no struct can hold. 01's form.
#[derive(Clone, Copy, Debug, PartialEq, Eq)]
pub struct SingleMessage {
    pub channel: Channel,
    pub flags: HeaderFlags,
    pub identity: MobileIdentity,
    pub length: usize,
}

#[derive(Clone, Copy, Debug, PartialEq, Eq)]
pub struct ArqStatus {
    pub partial_echo: u8,
    pub received_frames: u32,
}

#[derive(Clone, Copy, Debug, PartialEq, Eq)]
pub struct StatusRequest {
    pub status: ArqStatus,
    pub response_mode: ResponseMode,
}

// The Rust's own: a frame that is no one's is no refusal.
#[derive(Clone, Copy, Debug, PartialEq, Eq)]
pub enum Reception {
    Ignored,
    Accepted {
        message: Option<SingleMessage>,
        status_request: Option<StatusRequest>,
    },
}

impl ArqReassembler {
    // A receiver for an identity that can be encoded; another is refused 2.
    #[tactic(auto, unfolding(crate::specs::Receiver::new_of, spach::specs::Identity::check_identity))]
    pub fn try_new(identity: MobileIdentity) -> Result<Self, SpachError>
        ensures { by_number number_of result ≡ new_of identity }
    {
        spach::check_identity(identity)?;
        Ok(Self {
            identity,
            transaction: None,
        })
    }

    // Nothing is held afterwards.
    pub fn reset(mut self) -> Self
        ensures { result ≡ reset_of self }
    {
        self.transaction = None;
        self
    }

    // Echo and map of the transaction held.
    pub fn status(self) -> Option<ArqStatus>
        ensures { result ≡ status_answer self }
    {
        self.transaction.as_ref().map(|t| t.status())
    }

    // Whether the transaction held has delivered its message.
    pub fn complete(self) -> bool
        ensures { result ≡ complete_of self }
    {
        self.transaction.as_ref().is_some_and(|t| t.delivered)
    }

    // The octets of a frame, if they are one. A complete message goes to the front of the buffer.
    #[tactic(auto, unfolding(crate::specs::Receiver::push_of))]
    pub fn push(self, octets: &[u8], buffer: &mut [u8]) -> (Self, Result<Reception, SpachError>)
        ensures { pushed result buffer.new ≡ push_of self octets.now buffer.old }
    {
        if buffer.len() < 255 {
            return (self, Err(SpachError::Room));
        }
        match arq::read::decode(octets) {
            Ok(frame) => push::push_frame(self, frame, buffer),
            Err(error) => (self, Err(error)),
        }
    }
}
