// The inactivity timer of a transaction: 32 blocks to an unsolicited status, 32 more to the end.
// Ported from link/spach/arq/inactivity.rs (chrismoos/136-bts 7c60b63bf4, Apache-2.0) and changed: see NOTICE.
#![tactic(auto)]

pub mod lent;

ghost use Rattle.std.specs.Prelude.{◌≡◌, IfOk, IfErr};
ghost use Rattle.inactivity.specs.Inactivity.{Timer, Sound, new_of, token_of, owns_of, renewed, waiting, sent_from, enough, ticked, admitted, reset_of, observe_of, received_frame_of, due_of, advance_of, unsolicited_at, unsolicited_of, solicited_at, solicited_of, reported, clock_number, refusal_of};
ghost use Rattle.inactivity.specs.Apart.{clocks_apart, refusals_apart};
ghost use Rattle.inactivity.specs.Result.{Does, Keeps};
ghost use Rattle.spach.specs.Refusal.{number_of, by_number, left};

use spach::{Numbered, SpachError};
use std::marker::Model;

const INACTIVITY_BLOCKS: u64 = 32;

// Tells the transactions of one timer apart: a number of its counter.
#[derive(Clone, Copy, Debug, PartialEq, Eq)]
pub struct TransactionToken(pub u64);

// The Rust's own, as 01 has it.
#[derive(Clone, Copy, Debug, PartialEq, Eq)]
pub enum InactivityAction {
    None,
    RequestUnsolicitedStatus,
    Terminate,
}

// The Rust's own, as 01 has it ("as written"): a failed status is told by whoever was to send it, and is no error here.
#[derive(Clone, Copy, Debug, PartialEq, Eq)]
pub enum StatusResult {
    Sent,
    Failed,
}

#[derive(Clone, Copy, Debug, PartialEq, Eq)]
pub enum InactivityError {
    ClockBackwards,
}

// 01's number.
impl Numbered for InactivityError {
    ghost number_of = { clock_number };

    ghost numbers_apart = { clocks_apart };

    fn number(self) -> u8 {
        match self {
            InactivityError::ClockBackwards => 17,
        }
    }
}

// Why a call of the timer or of the procedure is refused.
#[derive(Clone, Copy, Debug, PartialEq, Eq)]
pub enum ProcedureError {
    Wire(SpachError),
    Clock(InactivityError),
}

impl From<SpachError> for ProcedureError {
    ghost use Rattle.std.specs.Prelude.{◌≡◌};
    ghost use Rattle.inactivity.specs.declared.ProcedureError.TheVariants.{Wire};

    ghost from_gives = { λ error r. r ≡ Wire error };

    fn from(error: SpachError) -> Self {
        ProcedureError::Wire(error)
    }
}

impl From<InactivityError> for ProcedureError {
    ghost use Rattle.std.specs.Prelude.{◌≡◌};
    ghost use Rattle.inactivity.specs.declared.ProcedureError.TheVariants.{Clock};

    ghost from_gives = { λ error r. r ≡ Clock error };

    fn from(error: InactivityError) -> Self {
        ProcedureError::Clock(error)
    }
}

// 01's numbers.
impl Numbered for ProcedureError {
    ghost number_of = { refusal_of };

    ghost numbers_apart = { refusals_apart };

    fn number(self) -> u8 {
        match self {
            ProcedureError::Wire(wire) => wire.number(),
            ProcedureError::Clock(clock) => clock.number(),
        }
    }
}

// The Rust's own, with `unsolicited_pending` beside it: a frame moves the state on while a status is pending.
#[derive(Clone, Copy, Debug, PartialEq, Eq)]
pub enum State {
    Idle,
    Waiting { since_block: u64 },
    SendingUnsolicited,
    FinalWait { since_block: u64 },
}

impl State {
    // After an unsolicited status was sent at a block.
    fn sent(self, block: u64) -> State
        ensures { result ≡ sent_from self block }
    {
        if let State::Waiting { .. } = self {
            State::Waiting { since_block: block }
        } else {
            State::FinalWait { since_block: block }
        }
    }
}

// Contracts see a Timer (specs/Inactivity.antt). The calls take any, and keep what is Sound so (`sound`).
#[derive(Clone, Copy, Debug, PartialEq, Eq)]
pub struct ArqInactivity {
    pub state: State,
    pub last_block: u64,
    pub unsolicited_pending: bool,
    pub transaction: TransactionToken,
    pub next_token: u64,
}

impl Model for ArqInactivity {
    ghost use Rattle.inactivity.specs.Inactivity.{Timer};

    ghost Value = { Timer };

    ghost view = { λ t. record { state = t.state; last_block = t.last_block; unsolicited_pending = t.unsolicited_pending; transaction = t.transaction; next_token = t.next_token } };

    ghost inverse = { λ t. record { state = t.state; last_block = t.last_block; unsolicited_pending = t.unsolicited_pending; transaction = t.transaction; next_token = t.next_token } };
}

// What a call leaves: a refusal leaves the state as it was. (A match: the state goes into both arms.)
pub fn onward<S: Copy, A, E>(state: S, call: Result<(S, A), E>) -> (S, Result<A, E>)
    ensures ok { IfOk call (λ t. result ≡ (t.0, Ok (t.1))) }
    ensures err { IfErr call (λ e. result ≡ (state, Err e)) }
{
    match call {
        Ok((after, answer)) => (after, Ok(answer)),
        Err(error) => (state, Err(error)),
    }
}

impl ArqInactivity {
    // Idle, under the first token.
    pub fn new(first: u64) -> Self
        ensures exact { result ≡ new_of first }
        ensures sound { Sound result }
    {
        ArqInactivity {
            state: State::Idle,
            last_block: 0,
            unsolicited_pending: false,
            transaction: TransactionToken(first),
            next_token: token::number_after(first),
        }
    }

    pub fn state(self) -> State
        ensures { result ≡ self.state }
    {
        self.state
    }

    pub fn last_block(self) -> u64
        ensures { result ≡ self.last_block }
    {
        self.last_block
    }

    pub fn unsolicited_pending(self) -> bool
        ensures { result ≡ self.unsolicited_pending }
    {
        self.unsolicited_pending
    }

    pub fn token(self) -> TransactionToken
        ensures { result ≡ token_of self }
    {
        self.transaction
    }

    pub fn next_token(self) -> u64
        ensures { result ≡ self.next_token }
    {
        self.next_token
    }

    pub fn owns(self, token: TransactionToken) -> bool
        ensures { result ≡ owns_of self token }
    {
        token == self.transaction
    }

    // The Rust's reset, inner ones too: idle, under the next token. How many are left is its callers' to ask.
    pub fn renew(self) -> Self
        ensures exact { result ≡ renewed self }
        ensures sound { Sound result }
    {
        ArqInactivity {
            state: State::Idle,
            unsolicited_pending: false,
            transaction: TransactionToken(self.next_token),
            next_token: token::number_after(self.next_token),
            ..self
        }
    }

    // Waiting from the clock's block on.
    pub fn wait(mut self) -> Self
        ensures exact { result ≡ waiting self }
        ensures sound { Sound self → Sound result }
    {
        self.state = State::Waiting {
            since_block: self.last_block,
        };
        self
    }

    // Fewer than 4 tokens left: 18.
    pub fn enough(self) -> Result<Self, SpachError>
        ensures exact { by_number number_of result ≡ enough self }
        ensures sound { Sound self → IfOk result (λ t. Sound t) }
    {
        if token::fewer_than(4, self.next_token) {
            return Err(SpachError::Tokens);
        }
        Ok(self)
    }

    // The clock gone back: 17; else it is moved.
    pub fn tick(mut self, tdma_block: u64) -> Result<Self, InactivityError>
        ensures exact { by_number clock_number result ≡ ticked self tdma_block }
        ensures sound { Sound self → IfOk result (λ t. Sound t) }
    {
        if tdma_block < self.last_block {
            return Err(InactivityError::ClockBackwards);
        }
        self.last_block = tdma_block;
        Ok(self)
    }

    // 18, then 17; else the clock is moved.
    pub fn admit(self, tdma_block: u64) -> Result<Self, ProcedureError>
        ensures exact { by_number refusal_of result ≡ admitted self tdma_block }
        ensures sound { Sound self → IfOk result (λ t. Sound t) }
    {
        Ok(self.enough()?.tick(tdma_block)?)
    }

    // What is due at the clock's block.
    pub fn due(mut self) -> (Self, InactivityAction)
        ensures exact { result ≡ due_of self }
        ensures sound { Sound self → Sound result.0 }
    {
        match self.state {
            State::Waiting { since_block }
                if !self.unsolicited_pending
                    && INACTIVITY_BLOCKS <= self.last_block.saturating_sub(since_block) => {
                self.state = State::SendingUnsolicited;
                self.unsolicited_pending = true;
                (self, InactivityAction::RequestUnsolicitedStatus)
            }
            State::FinalWait { since_block }
                if INACTIVITY_BLOCKS <= self.last_block.saturating_sub(since_block) => {
                (self.renew(), InactivityAction::Terminate)
            }
            _ => (self, InactivityAction::None),
        }
    }

    // An unsolicited status was sent, or was not, at the clock's block.
    pub fn unsolicited_at(mut self, res: StatusResult) -> (Self, InactivityAction)
        ensures exact { result ≡ unsolicited_at res self }
        ensures sound { Sound self → Sound result.0 }
    {
        if !self.unsolicited_pending {
            return (self, InactivityAction::None);
        }
        match res {
            StatusResult::Sent => {
                self.state = self.state.sent(self.last_block);
                self.unsolicited_pending = false;
                (self, InactivityAction::None)
            }
            StatusResult::Failed => (self.renew(), InactivityAction::Terminate),
        }
    }

    // A solicited status was sent, or was not, at the clock's block.
    pub fn solicited_at(self, res: StatusResult) -> (Self, InactivityAction)
        ensures exact { result ≡ solicited_at res self }
        ensures sound { Sound self → Sound result.0 }
    {
        if self.state == State::Idle {
            return (self, InactivityAction::None);
        }
        match res {
            StatusResult::Sent => (self.wait(), InactivityAction::None),
            StatusResult::Failed => (self.renew(), InactivityAction::Terminate),
        }
    }

    #[tactic(auto, unfolding(crate::specs::Inactivity::reset_of))]
    pub fn reset(self) -> (Self, Result<(), SpachError>)
        ensures exact { left number_of result ≡ reset_of self }
        ensures sound { Sound self → Sound result.0 }
    {
        onward(self, self.enough().map(|timer| (timer.renew(), ())))
    }

    #[tactic(auto, unfolding(crate::specs::Inactivity::observe_of))]
    pub fn observe(self, tdma_block: u64) -> (Self, Result<(), InactivityError>)
        ensures exact { left clock_number result ≡ observe_of self tdma_block }
        ensures sound { Sound self → Sound result.0 }
    {
        onward(self, self.tick(tdma_block).map(|timer| (timer, ())))
    }

    // For a matching accepted frame, only while message frames remain pending.
    #[tactic(auto, unfolding(crate::specs::Inactivity::received_frame_of))]
    pub fn received_frame(self, tdma_block: u64) -> (Self, Result<(), InactivityError>)
        ensures exact { left clock_number result ≡ received_frame_of self tdma_block }
        ensures sound { Sound self → Sound result.0 }
    {
        onward(self, self.tick(tdma_block).map(|timer| (timer.wait(), ())))
    }

    // IS-136.1-A 5.4.2.2: both inactivity intervals are 32 TDMA blocks.
    #[tactic(auto, unfolding(crate::specs::Inactivity::advance_of))]
    pub fn advance(self, tdma_block: u64) -> (Self, Result<InactivityAction, ProcedureError>)
        ensures exact { left refusal_of result ≡ advance_of self tdma_block }
        ensures sound { Sound self → Sound result.0 }
    {
        onward(self, self.admit(tdma_block).map(Self::due))
    }

    // A foreign token gives None first; then 18, then 17.
    fn status_result<F: FnOnce(Self) -> (Self, InactivityAction)>(
        self,
        token: TransactionToken,
        tdma_block: u64,
        heed: F,
    ) -> (Self, Result<InactivityAction, ProcedureError>)
        requires { F.IsAlwaysCallable heed }
        ensures exact { (f : Timer → Timer × InactivityAction) → Does (F.post heed) f → left refusal_of result ≡ reported self token tdma_block f }
        ensures sound { Keeps (F.post heed) → Sound self → Sound result.0 }
    {
        if !self.owns(token) {
            return (self, Ok(InactivityAction::None));
        }
        onward(self, self.admit(tdma_block).map(heed))
    }

    #[tactic(auto, unfolding(crate::specs::Inactivity::unsolicited_of))]
    pub fn unsolicited_status_result(
        self,
        token: TransactionToken,
        tdma_block: u64,
        res: StatusResult,
    ) -> (Self, Result<InactivityAction, ProcedureError>)
        ensures exact { left refusal_of result ≡ unsolicited_of self token tdma_block res }
        ensures sound { Sound self → Sound result.0 }
    {
        self.status_result(token, tdma_block, |timer| timer.unsolicited_at(res))
    }

    #[tactic(auto, unfolding(crate::specs::Inactivity::solicited_of))]
    pub fn solicited_status_result(
        self,
        token: TransactionToken,
        tdma_block: u64,
        res: StatusResult,
    ) -> (Self, Result<InactivityAction, ProcedureError>)
        ensures exact { left refusal_of result ≡ solicited_of self token tdma_block res }
        ensures sound { Sound self → Sound result.0 }
    {
        self.status_result(token, tdma_block, |timer| timer.solicited_at(res))
    }
}
