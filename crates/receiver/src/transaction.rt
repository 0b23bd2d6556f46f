// A transaction: what a Begin opened, and what its Continues brought.
// Ported from link/spach/arq/receiver.rs (chrismoos/136-bts 7c60b63bf4, Apache-2.0) and changed: see NOTICE.
ghost use Rattle.std.specs.Prelude.{◌≡◌, ◌≤◌, ◌<◌};
ghost use Rattle.spach.specs.Refusal.{number_of, by_number};
ghost use Rattle.receiver.specs.Receiver.{replaced_by, needed, due, first_bit, ours, filler_past, conflicts, continued, status_of, request_of};

use super::{ArqStatus, StatusRequest};
use arq::{ArqFrame, ArqHeader};
use rach::MobileIdentity;
use spach::{Channel, HeaderFlags, SpachError};

// The Begin's channel, flags and echo, its octet count and its data; the data of Continue k in slot k if bit k of the map
// is set: 01's form. Whose it is the receiver says to each method that asks: kept here too, the identity might differ from
// its own.
#[derive(Clone, Copy, Debug, PartialEq, Eq)]
pub struct Transaction {
    pub channel: Channel,
    pub flags: HeaderFlags,
    pub partial_echo: u8,
    pub message_octets: u8,
    pub begin_data: [u8; 7],
    pub slots: [[u8; 10]; 26],
    pub received_frames: u32,
    pub delivered: bool,
}

impl Transaction {
    // A Begin replaces everything.
    pub fn begun_by(frame: ArqFrame) -> Self
        ensures { result ≡ replaced_by frame }
    {
        let ArqFrame {
            header,
            message_octets,
            begin_data,
            ..
        } = frame;
        Transaction {
            channel: header.channel,
            flags: header.flags,
            partial_echo: header.partial_echo,
            message_octets,
            begin_data,
            slots: [[0; 10]; 26],
            received_frames: 0,
            delivered: false,
        }
    }

    // How many Continues it needs.
    pub fn needed(&self, identity: MobileIdentity) -> usize
        ensures value { result ≡ needed identity self.now }
        ensures most { result ≤ 26 }
    {
        arq::cut::frames_of(identity, self.message_octets) - 1
    }

    // Complete and not delivered yet: the map has as many ones as numbers are needed.
    pub fn is_due(&self, identity: MobileIdentity) -> bool
        ensures { result ≡ due identity self.now }
    {
        !self.delivered && self.received_frames.count_ones() as usize == self.needed(identity)
    }

    // Where Continue k's data start in the message.
    pub fn first_bit(&self, identity: MobileIdentity, k: usize) -> usize
        requires { k < 256 }
        ensures { result ≡ first_bit identity self.now k }
    {
        let bits = 8 * usize::from(self.message_octets);
        bits.min(arq::check::room_of(identity)) + arq::CONTINUE_DATA_BITS * k
    }

    // Whether a Continue is of this transaction: same echo, channel and identity type.
    pub fn owns(&self, identity: MobileIdentity, frame: ArqFrame) -> bool
        ensures { result ≡ ours identity self.now frame }
    {
        frame.header.partial_echo == self.partial_echo
            && frame.header.channel == self.channel
            && frame.identity_type == identity.parts().identity_type
    }

    // Whether a data bit of a Continue is set past the message.
    pub fn filler_set(&self, identity: MobileIdentity, frame: ArqFrame) -> bool
        requires { frame.frame_number < needed identity self.now }
        ensures { result ≡ filler_past identity self.now frame }
    {
        let first = self.first_bit(identity, usize::from(frame.frame_number));
        let end = 8 * usize::from(self.message_octets) - first;
        arq::check::filler_set(&frame.continue_data, 0, arq::CONTINUE_DATA_BITS, end)
    }

    // Whether a Continue's slot is filled with other data.
    pub fn conflicts(&self, frame: ArqFrame) -> bool
        requires { frame.frame_number < 26 }
        ensures { result ≡ conflicts self.now frame }
    {
        let k = usize::from(frame.frame_number);
        (self.received_frames >> k) % 2 == 1 && self.slots[k] != frame.continue_data
    }

    // A Continue goes into its slot and into the map. Number not below the needed count 12; filler 7; filled slot with
    // other data 14.
    #[tactic(auto, unfolding(crate::specs::Receiver::continued))]
    pub fn continued_by(
        mut self,
        identity: MobileIdentity,
        frame: ArqFrame,
    ) -> Result<Self, SpachError>
        ensures { by_number number_of result ≡ continued identity self frame }
    {
        let k = usize::from(frame.frame_number);
        if self.needed(identity) <= k {
            return Err(SpachError::FrameNumber);
        }
        if self.filler_set(identity, frame) {
            return Err(SpachError::Filler);
        }
        if self.conflicts(frame) {
            return Err(SpachError::DuplicateConflict);
        }
        let octets = frame.continue_data;
        self.slots[k] = octets;
        self.received_frames |= 1 << k;
        Ok(self)
    }

    pub fn status(&self) -> ArqStatus
        ensures { result ≡ status_of self.now }
    {
        ArqStatus {
            partial_echo: self.partial_echo,
            received_frames: self.received_frames,
        }
    }

    // A polled frame asks for the status, in its own response mode.
    pub fn status_request(&self, header: ArqHeader) -> Option<StatusRequest>
        ensures { result ≡ request_of header self.now }
    {
        header.polling.then_some(StatusRequest {
            status: self.status(),
            response_mode: header.response_mode,
        })
    }
}
