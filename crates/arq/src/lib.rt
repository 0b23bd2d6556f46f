// ArqFrame: encode, cut and decode.
// Ported from link/spach/arq.rs (chrismoos/136-bts 7c60b63bf4, Apache-2.0) and changed: see NOTICE.
#![tactic(auto)]

pub mod check;
pub mod cut;
pub mod frame;
pub mod read;
pub mod write;

ghost use Rattle.std.specs.Prelude.{◌≡◌};
ghost use Rattle.spach.specs.Refusal.{number_of, by_number};
ghost use Rattle.arq.specs.Frame.{kind_of};
ghost use Rattle.arq.specs.Encode.{encode_of};

use rach::MobileIdentity;
use spach::{Channel, HeaderFlags, SpachError};

const BEGIN: u64 = 5;

const CONTINUE: u64 = 6;

pub const INFORMATION_BITS: usize = 109;

pub const CONTINUE_DATA_BITS: usize = 79;

#[derive(Clone, Copy, Debug, PartialEq, Eq)]
pub enum ResponseMode {
    Contention,
    Reservation,
}

#[derive(Clone, Copy, Debug, PartialEq, Eq)]
pub struct ArqHeader {
    pub channel: Channel,
    pub flags: HeaderFlags,
    pub partial_echo: u8,
    pub polling: bool,
    pub response_mode: ResponseMode,
}

#[derive(Clone, Copy, Debug, PartialEq, Eq)]
pub enum FrameKind {
    Begin,
    Continue,
}

impl FrameKind {
    // Header B's kind, the standard's number. Contracts read no `as` of an enum, so it is a match.
    pub fn number(self) -> u64
        ensures { result ≡ kind_of self }
    {
        match self {
            FrameKind::Begin => BEGIN,
            FrameKind::Continue => CONTINUE,
        }
    }
}

// A frame of either kind, in 01's form and the Rust's. Only the fields of its kind are read; a kind has other fields than the
// other, so what checks, writes, reads or makes a frame is a function for each.
#[derive(Clone, Copy, Debug, PartialEq, Eq)]
pub struct ArqFrame {
    pub kind: FrameKind,
    pub header: ArqHeader,
    pub identity: MobileIdentity,
    pub message_octets: u8,
    pub begin_data: [u8; 7],
    pub begin_bits: u8,
    pub identity_type: u8,
    pub frame_number: u8,
    pub continue_data: [u8; 10],
}

// 109 bits, first bit at the top of the first octet; the last three bits are padding. 01's form.
#[derive(Clone, Copy, Debug, PartialEq, Eq)]
pub struct PackedFrame {
    pub octets: [u8; 14],
}

impl ArqFrame {
    // The packed frame, or a refusal.
    pub fn encode(self) -> Result<PackedFrame, SpachError>
        ensures { by_number number_of result ≡ encode_of self }
    {
        check::check_encode(self)?;
        let octets = match self.kind {
            FrameKind::Begin => write::begin(self),
            FrameKind::Continue => write::continue_frame(self),
        };
        Ok(PackedFrame { octets })
    }
}
