// The loops of a sender's calls, for timing.
#![tactic(auto)]

mod cycles;

use rach::MobileIdentity;
use receiver::ArqStatus;
use sender::Sender;

// What a call gave: whether its round did something.
trait Done: Drop {
    fn done(&self) -> bool;
}

impl Done for bool {
    fn done(&self) -> bool {
        *self
    }
}

impl<T: Drop> Done for Option<T> {
    fn done(&self) -> bool {
        self.is_some()
    }
}

impl<T: Drop, E: Drop> Done for Result<T, E> {
    fn done(&self) -> bool {
        self.is_ok()
    }
}

// So many rounds of a call, from 1 on; how many did something.
fn times<A, F>(rounds: u64, sender: Sender, mut call: F) -> u64
where
    A: Done,
    F: FnMut(Sender, u64) -> (Sender, A),
    requires { F.IsAlwaysCallable call }
{
    let mut s = sender;
    let mut all: u64 = 0;
    for round in 1..=rounds {
        let (after, given) = call(s, round);
        s = after;
        all = all.wrapping_add(u64::from(given.done()));
    }
    all
}

// So many rounds of a question; how often the answer is yes.
fn asks<F>(rounds: u64, s: &Sender, ask: F) -> u64
where
    F: Fn(&Sender, u64) -> bool,
    requires { F.IsAlwaysCallable ask }
{
    let mut all: u64 = 0;
    for round in 1..=rounds {
        all = all.wrapping_add(u64::from(ask(s, round)));
    }
    all
}

// An identity that no transfer has, another in each round.
fn stranger(round: u64) -> MobileIdentity {
    MobileIdentity::Min34(256 + round % 256)
}

// A status of the transfer begun, without frames.
fn shows(live: u64, rounds: u64, store: &mut [u8], words: &mut [u64]) -> u64 {
    let Some((begun, partial_echo)) = cycles::begun(live, store, words) else {
        return 0;
    };
    let status = ArqStatus {
        partial_echo,
        received_frames: 0,
    };
    times(rounds, begun, |s, _| s.status(status, 0, 0, store, words))
}

// How many rounds did something, of a call on a sender with `live` transfers of 255 octets at block 0: the next frame,
// a status, a message that replaces, prepare of the frame that was prepared first, advance, refresh_waiting, cancel and
// contains of a stranger, ready. 0 at once if the lent memory is too small for a sender, or `live` is not 1 to 128. The
// number of a call is the C interface's, and looked at here alone.
pub fn time_sender(call: u8, live: u64, rounds: u64, store: &mut [u8], words: &mut [u64]) -> u64 {
    if store.len() < 32640 || words.len() < 3456 || live == 0 || 128 < live {
        return 0;
    }
    match call {
        0 => {
            let s = cycles::full(live, store, words);
            times(rounds, s, |s, _| cycles::next_frame(s, live, store, words))
        }
        1 => shows(live, rounds, store, words),
        2 => {
            let s = cycles::filled(1, live, store, words);
            times(
                rounds,
                s,
                |s, round| cycles::replaced(s, 1, round, store, words),
            )
        }
        3 => {
            let s = cycles::full(live, store, words);
            times(rounds, s, |s, _| s.prepare(0, 0, store, words))
        }
        4 => {
            let s = cycles::full(live, store, words);
            times(rounds, s, |s, _| s.advance(0, 0, store, words))
        }
        5 => {
            let s = cycles::full(live, store, words);
            times(rounds, s, |s, _| s.refresh_waiting(0, 0, store, words))
        }
        6 => times(
            rounds,
            cycles::full(live, store, words),
            |s, round| s.cancel(stranger(round)),
        ),
        7 => asks(
            rounds,
            &cycles::full(live, store, words),
            |s, round| s.contains(stranger(round)),
        ),
        8 => asks(
            rounds,
            &cycles::emptied(live, store, words),
            |s, _| s.ready(),
        ),
        _ => asks(rounds, &cycles::full(live, store, words), |s, _| s.ready()),
    }
}
