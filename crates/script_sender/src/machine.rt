// What a sender's script runs on.
ghost use Rattle.std.specs.Prelude.{◌≡◌, ◌+◌, ◌≤◌, length};

use crate::ops::Op;
use crate::values::{event_values, put_held, put_prepared, state_values, transfer_values};
use crate::{OCTETS, WORDS, sums};
use receiver::ArqStatus;
use script_wire::run::{Machine, put};
use script_wire::{Answer, NO_CALL, Operands, Refused, Values, keep, low};
use sender::Sender;
use transfer::{Error, FrameToken, Generation, PreparedFrame, Request, Submission, TransferToken};

// The block and the milliseconds of a clock.
fn clock(operands: &mut Operands<'_>) -> (u64, u64)
    requires { 16 ≤ length operands.old }
    ensures { length operands.old ≡ length operands.new + 16 }
{
    let block = operands.eight();
    (block, operands.eight())
}

// A frame token: every value is one.
fn frame_token(operands: &mut Operands<'_>) -> FrameToken
    requires { 24 ≤ length operands.old }
    ensures { length operands.old ≡ length operands.new + 24 }
{
    FrameToken {
        generation: Generation(operands.eight()),
        submission: Submission(operands.eight()),
        frame: operands.eight() as usize,
    }
}

fn prepared(frame: Result<Option<PreparedFrame>, Error>) -> Answer<49> {
    let mut values = Values::new();
    put_prepared(&mut values, frame?);
    Ok(values)
}

// A call on the first so many of these octets and words; apart, since a part of what a field lends goes to no bound yet.
fn on_lent<A, F>(
    sender: Sender,
    octets: &mut [u8],
    octets_lent: usize,
    words: &mut [u64],
    words_lent: usize,
    call: F,
) -> (Sender, A)
where
    F: FnOnce(Sender, &mut [u8], &mut [u64]) -> (Sender, A),
    requires octets { octets_lent ≤ length octets.old }
    requires words { words_lent ≤ length words.old }
    requires callable { F.IsAlwaysCallable call }
{
    call(sender, &mut octets[..octets_lent], &mut words[..words_lent])
}

// The sender, if there is one, the message, the memory, and how much of it is lent: the memory stays whole, since a later LEND
// may lend more of it.
#[derive(Drop)]
pub struct Lender<'a> {
    sender: Option<Sender>,
    message: [u8; 304],
    octets: &'a mut [u8; OCTETS],
    words: &'a mut [u64; WORDS],
    octets_lent: usize,
    words_lent: usize,
    ghost octets_fit: { octets_lent ≤ 32672 },
    ghost words_fit: { words_lent ≤ 3460 },
}

impl<'a> Lender<'a> {
    // At first what a sender needs is lent.
    pub fn new(octets: &'a mut [u8; OCTETS], words: &'a mut [u64; WORDS]) -> Lender<'a> {
        Lender {
            sender: None,
            message: [0; 304],
            octets,
            words,
            octets_lent: 32640,
            words_lent: 3456,
        }
    }

    fn sender(&self) -> Result<&Sender, Refused> {
        self.sender.as_ref().ok_or(NO_CALL)
    }

    // A call on the memory that is lent: what it leaves is kept, what it gives is handed on.
    fn call<A, F>(&mut self, call: F) -> Result<A, Refused>
    where
        F: FnOnce(Sender, &mut [u8], &mut [u64]) -> (Sender, A),
        requires { F.IsAlwaysCallable call }
    {
        let sender = self.sender.take().ok_or(NO_CALL)?;
        let octets_lent = self.octets_lent;
        let words_lent = self.words_lent;
        let octets = &mut *self.octets;
        let words = &mut *self.words;
        let done = on_lent(sender, octets, octets_lent, words, words_lent, call);
        Ok(keep(&mut self.sender, done))
    }

    // The memory is filled, and the sender is a new one, or none.
    fn make(&mut self, mut operands: Operands<'_>) -> Answer<0>
        requires { length operands ≡ 33 }
    {
        let capacity = operands.eight() as usize;
        let guard_ms = operands.eight();
        let first_block = operands.eight();
        let first_token = operands.eight();
        let filling = operands.octet();
        let octets = &mut *self.octets;
        octets.fill(filling);
        let words = &mut *self.words;
        words.fill(u64::from_be_bytes([filling; 8]));
        self.sender = None;
        self.sender = Some(Sender::try_new(capacity, guard_ms, first_block, first_token)?);
        Ok(Values::new())
    }

    // So much is lent from now on.
    fn lend(&mut self, mut operands: Operands<'_>) -> Answer<0>
        requires { length operands ≡ 4 }
    {
        let octets = usize::from(operands.two());
        let words = usize::from(operands.two());
        if OCTETS < octets || WORDS < words {
            return Err(NO_CALL);
        }
        self.octets_lent = octets;
        self.words_lent = words;
        Ok(Values::new())
    }

    fn can_enqueue(&self, mut operands: Operands<'_>) -> Answer<1>
        requires { length operands ≡ 16 }
    {
        let (block, now_ms) = clock(&mut operands);
        Ok(Values::flag(self.sender()?.can_enqueue(block, now_ms)))
    }

    fn enqueue(&mut self, mut operands: Operands<'_>) -> Answer<8>
        requires { length operands ≡ 44 }
    {
        let request = Request {
            identity: operands.identity()?,
            channel: script_codec::operands::channel(&mut operands)?,
            completion: operands.eight(),
            deadline_ms: operands.eight(),
        };
        let length = operands.length()?;
        let (block, now_ms) = clock(&mut operands);
        let message = self.message;
        let token = self.call(|s, store, words| {
            s.enqueue(request, &message[..length], block, now_ms, store, words)
        })??;
        Ok(Values::from(token.0.to_be_bytes()))
    }

    fn advance(&mut self, mut operands: Operands<'_>) -> Answer<0>
        requires { length operands ≡ 16 }
    {
        let (block, now_ms) = clock(&mut operands);
        self.call(|s, store, words| s.advance(block, now_ms, store, words))??;
        Ok(Values::new())
    }

    fn prepare(&mut self, mut operands: Operands<'_>) -> Answer<49>
        requires { length operands ≡ 16 }
    {
        let (block, now_ms) = clock(&mut operands);
        prepared(self.call(|s, store, words| s.prepare(block, now_ms, store, words))?)
    }

    fn has_echo(&self, mut operands: Operands<'_>) -> Answer<1>
        requires { length operands ≡ 1 }
    {
        Ok(Values::flag(self.sender()?.has_echo(operands.octet())))
    }

    fn interrupt(&mut self, mut operands: Operands<'_>) -> Answer<1>
        requires { length operands ≡ 17 }
    {
        let echo = operands.octet();
        let (block, now_ms) = clock(&mut operands);
        let found = self.call(|s, store, words| s.interrupt(echo, block, now_ms, store, words))??;
        Ok(Values::flag(found))
    }

    fn prioritized(&mut self, mut operands: Operands<'_>) -> Answer<49>
        requires { length operands ≡ 17 }
    {
        let echo = operands.octet();
        let (block, now_ms) = clock(&mut operands);
        prepared(self.call(|s, store, words| {
            s.prepare_prioritized(echo, block, now_ms, store, words)
        })?)
    }

    fn submitted(&mut self, mut operands: Operands<'_>) -> Answer<0>
        requires { length operands ≡ 40 }
    {
        let token = frame_token(&mut operands);
        let (block, now_ms) = clock(&mut operands);
        self.call(|s, store, words| s.submitted(token, block, now_ms, store, words))??;
        Ok(Values::new())
    }

    fn submitted_message(&self, mut operands: Operands<'_>) -> Answer<9>
        requires { length operands ≡ 24 }
    {
        let token = frame_token(&mut operands);
        let mut values = Values::new();
        put_held(&mut values, self.sender()?.submitted_message(token));
        Ok(values)
    }

    // Whether the frame was found, and whether its transfer is completed.
    fn transmitted(&mut self, mut operands: Operands<'_>) -> Answer<2>
        requires { length operands ≡ 40 }
    {
        let token = frame_token(&mut operands);
        let (block, now_ms) = clock(&mut operands);
        let completed = self.call(|s, store, words| s.transmitted(
            token, block, now_ms, store, words,
        ))??;
        Ok(Values::from([
            u8::from(completed.is_some()),
            u8::from(completed == Some(true)),
        ]))
    }

    fn status(&mut self, mut operands: Operands<'_>) -> Answer<1>
        requires { length operands ≡ 21 }
    {
        let status = ArqStatus {
            partial_echo: operands.octet(),
            received_frames: operands.four(),
        };
        let (block, now_ms) = clock(&mut operands);
        let found = self.call(|s, store, words| s.status(status, block, now_ms, store, words))??;
        Ok(Values::flag(found))
    }

    fn cancel(&mut self, mut operands: Operands<'_>) -> Answer<1>
        requires { length operands ≡ 9 }
    {
        let identity = operands.identity()?;
        Ok(Values::flag(self.call(|s, _, _| s.cancel(identity))?))
    }

    fn cancel_transaction(&mut self, mut operands: Operands<'_>) -> Answer<1>
        requires { length operands ≡ 8 }
    {
        let token = TransferToken(operands.eight());
        Ok(Values::flag(self.call(|s, _, _| s.cancel_transaction(token))?))
    }

    fn cancel_all(&mut self) -> Answer<0> {
        self.call(|s, _, _| (s.cancel_all(), ()))?;
        Ok(Values::new())
    }

    fn refresh(&mut self, mut operands: Operands<'_>) -> Answer<0>
        requires { length operands ≡ 16 }
    {
        let (block, now_ms) = clock(&mut operands);
        self.call(|s, store, words| s.refresh_waiting(block, now_ms, store, words))??;
        Ok(Values::new())
    }

    fn identity_for_echo(&self, mut operands: Operands<'_>) -> Answer<10>
        requires { length operands ≡ 1 }
    {
        let Some(identity) = self.sender()?.identity_for_echo(operands.octet()) else {
            return Ok(Values::from([0; 10]));
        };
        let mut values = Values::new();
        values.push(1);
        values.identity(identity);
        Ok(values)
    }

    fn radio_active(&self) -> Answer<1> {
        Ok(Values::flag(self.sender()?.radio_active()))
    }

    fn ready(&self) -> Answer<1> {
        Ok(Values::flag(self.sender()?.ready()))
    }

    fn pending(&self) -> Answer<1> {
        Ok(Values::from([low(self.sender()?.pending())]))
    }

    fn state(&self) -> Answer<94> {
        Ok(state_values(self.sender()?.table()))
    }

    fn contains(&self, mut operands: Operands<'_>) -> Answer<1>
        requires { length operands ≡ 9 }
    {
        let identity = operands.identity()?;
        Ok(Values::flag(self.sender()?.contains(identity)))
    }

    fn pop_event(&mut self) -> Answer<11> {
        Ok(event_values(self.call(|s, _, _| s.pop_event())?))
    }

    // The live transfer at a place.
    fn transfer(&self, mut operands: Operands<'_>) -> Answer<90>
        requires { length operands ≡ 1 }
    {
        let place = usize::from(operands.octet());
        Ok(transfer_values(self.sender()?.table().transfers.get(place)))
    }

    // The waiting event at a place.
    fn event(&self, mut operands: Operands<'_>) -> Answer<11>
        requires { length operands ≡ 2 }
    {
        let place = usize::from(operands.two());
        Ok(event_values(self.sender()?.table().events.get(place).copied()))
    }

    // The times of the 16 echoes of a part.
    fn echoes(&self, mut operands: Operands<'_>) -> Answer<128>
        requires { length operands ≡ 1 }
    {
        let first = 16 * usize::from(operands.octet());
        let until_ms = self.sender()?.table().echoes.until_ms();
        let times = until_ms.get(first..first + 16).ok_or(NO_CALL)?;
        let mut values = Values::new();
        for time in times {
            values.number(*time);
        }
        Ok(values)
    }

    // Both sums, that of the memory over all of it.
    fn sums(&self) -> Answer<16> {
        let mut values = Values::new();
        values.number(sums::state_sum(self.sender()?.table()));
        values.number(sums::memory_sum(self.octets, self.words));
        Ok(values)
    }
}

impl Machine for Lender<'_> {
    type Op = Op;

    // A match: each operation has operands and an answer of its own.
    fn run(&mut self, op: Op, operands: Operands<'_>, answers: &mut [u8]) -> usize {
        match op {
            Op::Message => put(answers, script_store::fill(&mut self.message, operands)),
            Op::New => put(answers, self.make(operands)),
            Op::Lend => put(answers, self.lend(operands)),
            Op::CanEnqueue => put(answers, self.can_enqueue(operands)),
            Op::Enqueue => put(answers, self.enqueue(operands)),
            Op::Advance => put(answers, self.advance(operands)),
            Op::Prepare => put(answers, self.prepare(operands)),
            Op::HasEcho => put(answers, self.has_echo(operands)),
            Op::Interrupt => put(answers, self.interrupt(operands)),
            Op::Prioritized => put(answers, self.prioritized(operands)),
            Op::Submitted => put(answers, self.submitted(operands)),
            Op::SubmittedMessage => put(answers, self.submitted_message(operands)),
            Op::Transmitted => put(answers, self.transmitted(operands)),
            Op::Status => put(answers, self.status(operands)),
            Op::Cancel => put(answers, self.cancel(operands)),
            Op::CancelTransaction => put(answers, self.cancel_transaction(operands)),
            Op::CancelAll => put(answers, self.cancel_all()),
            Op::Refresh => put(answers, self.refresh(operands)),
            Op::IdentityForEcho => put(answers, self.identity_for_echo(operands)),
            Op::RadioActive => put(answers, self.radio_active()),
            Op::Ready => put(answers, self.ready()),
            Op::Contains => put(answers, self.contains(operands)),
            Op::PopEvent => put(answers, self.pop_event()),
            Op::Pending => put(answers, self.pending()),
            Op::State => put(answers, self.state()),
            Op::Transfer => put(answers, self.transfer(operands)),
            Op::Event => put(answers, self.event(operands)),
            Op::Echoes => put(answers, self.echoes(operands)),
            Op::Sums => put(answers, self.sums()),
        }
    }
}
