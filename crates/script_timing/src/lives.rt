// Loops of a receiver's, a procedure's and a timer's calls. Each makes its own, for the identity Tmsi20(1); the number
// of the round is the block.
ghost use Rattle.inactivity.specs.Inactivity.{Sound as SoundTimer};
ghost use Rattle.procedure.specs.Procedure.{Sound};

use crate::{number, sum};
use inactivity::{ArqInactivity, StatusResult};
use procedure::{ArqProcedure, ReceiveEvent, TimerEvent};
use rach::MobileIdentity;
use receiver::{ArqReassembler, Reception, SingleMessage};
use std::marker::Model;

const IDENTITY: MobileIdentity = MobileIdentity::Tmsi20(1);

// What is told of a frame that was not Ignored: 1, and with a message its length and an octet of it.
fn told_message(message: Option<SingleMessage>, buffer: &[u8; 255], round: u64) -> u64 {
    let Some(message) = message else {
        return 1;
    };
    let octet = buffer[(round % 255) as usize];
    (message.length as u64).wrapping_add(1 + u64::from(octet))
}

// All frames to one receiver.
pub fn pushes(frames: &[u8], round: u64) -> u64 {
    let Ok(mut receiver) = ArqReassembler::try_new(IDENTITY) else {
        return 0;
    };
    let mut buffer = [0; 255];
    sum(frames, 14, |frame| {
        let (after, pushed) = receiver.push(frame, &mut buffer);
        receiver = after;
        match pushed {
            Ok(Reception::Ignored) => 0,
            Ok(Reception::Accepted { message, .. }) => told_message(message, &buffer, round),
            Err(error) => number(error),
        }
    })
}

// A procedure, the buffer that it is lent, and the block. The procedure is Sound, since the constructor and the calls made it.
#[derive(Clone, Copy)]
pub struct Life {
    procedure: ArqProcedure,
    buffer: [u8; 255],
    block: u64,
}

impl Model for Life {
    ghost use Rattle.procedure.specs.Procedure.{Sound};
    ghost use Rattle.script_timing.specs.Held.{Living};

    ghost Value = { Living };

    ghost view = { λ l. record { procedure = l.procedure; buffer = l.buffer; block = l.block } };

    ghost invariant = { λ l. Sound l.procedure };

    ghost inverse = { λ l. record { procedure = l.procedure; buffer = l.buffer; block = l.block } };
}

impl Life {
    pub fn receive(&mut self, frame: &[u8]) -> u64
        ensures { Sound self.old.procedure → Sound self.new.procedure }
    {
        let (after, event) = self.procedure.receive(self.block, frame, &mut self.buffer);
        self.procedure = after;
        match event {
            Ok(ReceiveEvent::Ignored) => 0,
            Ok(ReceiveEvent::Accepted { message, .. }) => {
                told_message(message, &self.buffer, self.block)
            }
            Err(error) => number(error),
        }
    }

    // A frame, and the status that it asks for is sent.
    pub fn report(&mut self, frame: &[u8]) -> u64
        ensures { Sound self.old.procedure → Sound self.new.procedure }
    {
        let (heard, event) = self.procedure.receive(self.block, frame, &mut self.buffer);
        self.procedure = heard;
        let Ok(
            ReceiveEvent::Accepted {
                status: Some(status),
                ..
            },
        ) = event
        else {
            return 0;
        };
        let (sent, event) = heard.status_sent(self.block, status, StatusResult::Sent);
        self.procedure = sent;
        match event {
            Ok(event) => event as u64,
            Err(error) => number(error),
        }
    }

    // What is due; the frame only opens a transaction.
    pub fn advance(&mut self, frame: &[u8]) -> u64
        ensures { Sound self.old.procedure → Sound self.new.procedure }
    {
        if !self.procedure.active() {
            return self.receive(frame);
        }
        let (after, event) = self.procedure.advance(self.block);
        self.procedure = after;
        match event {
            Ok(TimerEvent::None) => 1,
            Ok(TimerEvent::SendStatus(_)) => 2,
            Ok(TimerEvent::Terminated) => 3,
            Err(error) => number(error),
        }
    }
}

// A call for each frame, of one procedure. (`crate::sum` with this call in a closure was tried: that it may always be called is
// not found.)
pub fn procedures<F>(frames: &[u8], block: u64, mut call: F) -> u64
where
    F: FnMut(&mut Life, &[u8]) -> u64,
    requires { F.IsAlwaysCallable call }
{
    let Ok(procedure) = ArqProcedure::try_new(IDENTITY, 0) else {
        return 0;
    };
    let mut life = Life {
        procedure,
        buffer: [0; 255],
        block,
    };
    let mut sum: u64 = 0;
    for frame in frames.chunks_exact(14) {
        sum = sum.wrapping_add(call(&mut life, frame));
    }
    sum
}

// A timer, Sound in the same way.
#[derive(Clone, Copy)]
pub struct Clocked {
    timer: ArqInactivity,
}

impl Model for Clocked {
    ghost use Rattle.inactivity.specs.Inactivity.{Sound};
    ghost use Rattle.script_timing.specs.Held.{Timed};

    ghost Value = { Timed };

    ghost view = { λ c. record { timer = c.timer } };

    ghost invariant = { λ c. Sound c.timer };

    ghost inverse = { λ c. record { timer = c.timer } };
}

impl Clocked {
    pub fn received_frame(&mut self, block: u64) -> u64
        ensures { SoundTimer self.old.timer → SoundTimer self.new.timer }
    {
        let (after, moved) = self.timer.received_frame(block);
        self.timer = after;
        match moved {
            Ok(()) => 1,
            Err(error) => number(error),
        }
    }

    pub fn advance(&mut self, block: u64) -> u64
        ensures { SoundTimer self.old.timer → SoundTimer self.new.timer }
    {
        let (after, action) = self.timer.advance(block);
        self.timer = after;
        match action {
            Ok(action) => action as u64,
            Err(error) => number(error),
        }
    }
}

// A call for each octet, so many blocks later, of a timer that waits.
pub fn timers<F>(steps: &[u8], mut call: F) -> u64
where
    F: FnMut(&mut Clocked, u64) -> u64,
    requires { F.IsAlwaysCallable call }
{
    let (timer, _) = ArqInactivity::new(0).received_frame(0);
    let mut clocked = Clocked { timer };
    let mut block: u64 = 0;
    let mut sum: u64 = 0;
    for step in steps {
        block = block.wrapping_add(u64::from(*step));
        sum = sum.wrapping_add(call(&mut clocked, block));
    }
    sum
}
