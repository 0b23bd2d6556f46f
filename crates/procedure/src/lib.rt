// The receive procedure: a receiver and its inactivity timer.
// Ported from link/spach/arq/procedure.rs (chrismoos/136-bts 7c60b63bf4, Apache-2.0) and changed: see NOTICE.
#![tactic(auto)]

ghost use Rattle.std.specs.Prelude.{◌≡◌, ◌≤◌, IfOk, length};
ghost use Rattle.spach.specs.Refusal.{number_of, gives, and_then, by_number, left, onward};
ghost use Rattle.arq.specs.Decode.{decode_of};
ghost use Rattle.receiver.specs.Receiver.{status_answer};
ghost use Rattle.inactivity.specs.Inactivity.{refusal_of};
ghost use Rattle.procedure.specs.Procedure.{Sound, new_of, with_timer, ended, admits, says, sends_status, reset_of, active_of, receive_of, received, polled, due_at, advance_of, sent_at, status_sent_of};
ghost use Rattle.procedure.specs.Parts.{timed, ends_unpolled, let_through, decoded};

use arq::{FrameKind, ResponseMode};
use inactivity::{ArqInactivity, InactivityAction, ProcedureError, StatusResult, TransactionToken};
use rach::MobileIdentity;
use receiver::{ArqReassembler, ArqStatus, Reception, SingleMessage, StatusRequest};
use spach::SpachError;
use std::marker::Model;

#[derive(Clone, Copy, Debug, PartialEq, Eq)]
pub enum StatusKind {
    Solicited,
    Unsolicited,
}

// A status to send, and what its result is reported with.
#[derive(Clone, Copy, Debug, PartialEq, Eq)]
pub struct StatusTransmission {
    pub request: StatusRequest,
    pub token: TransactionToken,
    pub kind: StatusKind,
    pub complete_at_poll: bool,
}

// The events are the Rust's own, as 01 has them ("as written").
#[derive(Clone, Copy, Debug, PartialEq, Eq)]
pub enum ReceiveEvent {
    Ignored,
    Accepted {
        message: Option<SingleMessage>,
        status: Option<StatusTransmission>,
    },
}

#[derive(Clone, Copy, Debug, PartialEq, Eq)]
pub enum TimerEvent {
    None,
    SendStatus(StatusTransmission),
    Terminated,
}

#[derive(Clone, Copy, Debug, PartialEq, Eq)]
pub enum SendEvent {
    Ignored,
    Pending,
    Complete,
    Failed,
}

// Contracts see a Procedure (specs/Procedure.antt). The calls take any, and but for `with_timer` keep what is Sound so (`sound`).
#[derive(Clone, Copy, Debug, PartialEq, Eq)]
pub struct ArqProcedure {
    pub receiver: ArqReassembler,
    pub inactivity: ArqInactivity,
}

impl Model for ArqProcedure {
    ghost use Rattle.procedure.specs.Procedure.{Procedure};

    ghost Value = { Procedure };

    ghost view = { λ p. record { receiver = p.receiver; inactivity = p.inactivity } };

    ghost inverse = { λ p. record { receiver = p.receiver; inactivity = p.inactivity } };
}

// Fewer than 4 tokens left 18; room under 255 octets 16; the clock gone back 17; else the clock is moved.
fn let_through(
    timer: ArqInactivity,
    tdma_block: u64,
    room: usize,
) -> Result<ArqInactivity, ProcedureError>
    ensures { by_number refusal_of result ≡ let_through timer tdma_block room }
{
    let timer = timer.enough()?;
    if room < 255 {
        return Err(SpachError::Room.into());
    }
    Ok(timer.tick(tdma_block)?)
}

// The timer after an accepted frame (`begin` is the Rust's `is_begin`): a Begin resets it; while the message is not complete it
// waits from the clock's block on.
fn timed(begin: bool, complete: bool, timer: ArqInactivity) -> ArqInactivity
    ensures { result ≡ timed begin complete timer }
{
    let timer = if begin { timer.renew() } else { timer };
    if complete { timer } else { timer.wait() }
}

// The status that a polled frame asks for, under the timer's token.
fn polled(
    request: Option<StatusRequest>,
    timer: ArqInactivity,
    complete: bool,
) -> Option<StatusTransmission>
    ensures { result ≡ polled request timer complete }
{
    request.map(|request| StatusTransmission {
        request,
        token: timer.token(),
        kind: StatusKind::Solicited,
        complete_at_poll: complete,
    })
}

impl ArqProcedure {
    // A procedure for an identity that can be encoded, under the first token; another is refused 2.
    #[tactic(auto, unfolding(crate::specs::Procedure::new_of))]
    pub fn try_new(identity: MobileIdentity, first: u64) -> Result<Self, SpachError>
        ensures exact { by_number number_of result ≡ new_of identity first }
        ensures sound { IfOk result (λ p. Sound p) }
    {
        Ok(ArqProcedure {
            receiver: ArqReassembler::try_new(identity)?,
            inactivity: ArqInactivity::new(first),
        })
    }

    pub fn receiver(self) -> ArqReassembler
        ensures { result ≡ self.receiver }
    {
        self.receiver
    }

    pub fn inactivity(self) -> ArqInactivity
        ensures { result ≡ self.inactivity }
    {
        self.inactivity
    }

    // The Rust's reset, inner ones too. How many tokens are left is its callers' to ask.
    pub fn end(mut self) -> Self
        ensures exact { result ≡ ended self }
        ensures sound { Sound self → Sound result }
    {
        self.receiver = self.receiver.reset();
        self.inactivity = self.inactivity.renew();
        self
    }

    // The same procedure with another timer.
    pub fn with_timer(mut self, inactivity: ArqInactivity) -> Self
        ensures { result ≡ with_timer self inactivity }
    {
        self.inactivity = inactivity;
        self
    }

    #[tactic(auto, unfolding(crate::specs::Procedure::reset_of))]
    pub fn reset(self) -> (Self, Result<(), SpachError>)
        ensures exact { left number_of result ≡ reset_of self }
        ensures sound { Sound self → Sound result.0 }
    {
        match self.inactivity.enough() {
            Ok(_) => (self.end(), Ok(())),
            Err(error) => (self, Err(error)),
        }
    }

    // Whether a transaction is held.
    pub fn active(self) -> bool
        ensures { result ≡ active_of self }
    {
        self.receiver.transaction.is_some()
    }

    // IS-136.1-A 5.4.2. The octets of a frame at a block. A matching Begin replaces the active transaction; a complete message goes to the
    // front of the buffer.
    pub fn receive(
        self,
        tdma_block: u64,
        octets: &[u8],
        buffer: &mut [u8],
    ) -> (Self, Result<ReceiveEvent, ProcedureError>)
        ensures exact { received result buffer.new ≡ receive_of self tdma_block octets.now buffer.old }
        ensures sound { Sound self → Sound result.0 }
    {
        match let_through(self.inactivity, tdma_block, buffer.len()) {
            Ok(inactivity) => {
                let clocked = ArqProcedure { inactivity, ..self };
                clocked.hear(octets, buffer)
            }
            Err(error) => (self, Err(error)),
        }
    }

    // At the moved clock, with room for 255 octets, as `push_frame` asks.
    fn hear(self, octets: &[u8], buffer: &mut [u8]) -> (Self, Result<ReceiveEvent, ProcedureError>)
        requires { 255 ≤ length buffer.old }
        ensures exact { received result buffer.new ≡ decoded self buffer.old (decode_of octets.now) }
        ensures sound { Sound self → Sound result.0 }
    {
        let frame = match arq::read::decode(octets) {
            Ok(frame) => frame,
            Err(error) => return (self, Err(error.into())),
        };
        let is_begin = matches!(frame.kind, FrameKind::Begin);
        let (receiver, pushed) = receiver::push::push_frame(self.receiver, frame, buffer);
        let heard = ArqProcedure { receiver, ..self };
        let reception = match pushed {
            Ok(reception) => reception,
            Err(error) => return (heard, Err(error.into())),
        };
        let Reception::Accepted {
            message,
            status_request,
        } = reception
        else {
            return (heard, Ok(ReceiveEvent::Ignored));
        };
        let complete = receiver.complete();
        let inactivity = timed(is_begin, complete, self.inactivity);
        let status = polled(status_request, inactivity, complete);
        let next = ArqProcedure {
            receiver,
            inactivity,
        };
        let rest = next.rest(status_request, complete);
        (rest, Ok(ReceiveEvent::Accepted { message, status }))
    }

    // A complete message whose frame was not polled ends the transaction.
    fn rest(self, request: Option<StatusRequest>, complete: bool) -> Self
        ensures exact { result ≡ ends_unpolled request complete self }
        ensures sound { Sound self → Sound result }
    {
        if complete && request.is_none() {
            self.end()
        } else {
            self
        }
    }

    // What is due at a block.
    pub fn advance(mut self, tdma_block: u64) -> (Self, Result<TimerEvent, ProcedureError>)
        ensures exact { left refusal_of result ≡ advance_of self tdma_block }
        ensures sound { Sound self → Sound result.0 }
    {
        let event = self.advanced(tdma_block);
        (self, event)
    }

    // 18, then 17; else the clock is moved. (In place: only the timer goes through a Result.)
    #[tactic(auto, unfolding(crate::specs::Procedure::advance_of))]
    fn advanced(&mut self, tdma_block: u64) -> Result<TimerEvent, ProcedureError>
        ensures exact { left refusal_of (self.new, result) ≡ advance_of self.old tdma_block }
        ensures sound { Sound self.old → Sound self.new }
    {
        self.inactivity = self.inactivity.admit(tdma_block)?;
        Ok(self.due())
    }

    // What is due at the clock's block; a complete message waits for its status alone.
    fn due(&mut self) -> TimerEvent
        ensures exact { says result self.new ≡ due_at self.old }
        ensures sound { Sound self.old → Sound self.new }
    {
        if self.receiver.complete() {
            return TimerEvent::None;
        }
        let (inactivity, action) = self.inactivity.due();
        self.inactivity = inactivity;
        match action {
            InactivityAction::None => TimerEvent::None,
            InactivityAction::Terminate => {
                *self = self.end();
                TimerEvent::Terminated
            }
            InactivityAction::RequestUnsolicitedStatus => {
                TimerEvent::SendStatus(self.unsolicited())
            }
        }
    }

    // IS-136.1-A 5.3.1.2: unsolicited access uses contention. Echo and map that are held; the timer is armed only for an active
    // transaction (Sound `armed`), and of nothing held they are 0 and empty.
    fn unsolicited(&self) -> StatusTransmission
        ensures { TimerEvent.SendStatus result ≡ sends_status self.now (status_answer self.now.receiver) }
    {
        let status = self.receiver.status().unwrap_or(ArqStatus {
            partial_echo: 0,
            received_frames: 0,
        });
        StatusTransmission {
            request: StatusRequest {
                status,
                response_mode: ResponseMode::Contention,
            },
            token: self.inactivity.token(),
            kind: StatusKind::Unsolicited,
            complete_at_poll: false,
        }
    }

    // The result of sending a status.
    #[tactic(auto, unfolding(crate::specs::Procedure::status_sent_of))]
    pub fn status_sent(
        mut self,
        tdma_block: u64,
        transmission: StatusTransmission,
        res: StatusResult,
    ) -> (Self, Result<SendEvent, ProcedureError>)
        ensures exact { left refusal_of result ≡ status_sent_of self tdma_block transmission res }
        ensures sound { Sound self → Sound result.0 }
    {
        let event = if self.inactivity.owns(transmission.token) {
            self.sent(tdma_block, transmission, res)
        } else {
            Ok(SendEvent::Ignored)
        };
        (self, event)
    }

    // With the timer's token: 18, then 17; else the clock is moved. (In place, as `advanced`.)
    fn sent(
        &mut self,
        tdma_block: u64,
        transmission: StatusTransmission,
        res: StatusResult,
    ) -> Result<SendEvent, ProcedureError>
        ensures exact { left refusal_of (self.new, result) ≡ onward self.old (admits self.old tdma_block) (sent_at transmission res) }
        ensures sound { Sound self.old → Sound self.new }
    {
        self.inactivity = self.inactivity.admit(tdma_block)?;
        Ok(self.report(transmission, res))
    }

    // At the moved clock.
    fn report(&mut self, transmission: StatusTransmission, res: StatusResult) -> SendEvent
        ensures exact { says result self.new ≡ sent_at transmission res self.old }
        ensures sound { Sound self.old → Sound self.new }
    {
        if res == StatusResult::Failed {
            *self = self.end();
            return SendEvent::Failed;
        }
        if transmission.complete_at_poll {
            *self = self.end();
            return SendEvent::Complete;
        }
        let (inactivity, _) = match transmission.kind {
            StatusKind::Solicited => self.inactivity.solicited_at(res),
            StatusKind::Unsolicited => self.inactivity.unsolicited_at(res),
        };
        self.inactivity = inactivity;
        SendEvent::Pending
    }
}
