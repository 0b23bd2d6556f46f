// The message of a complete transaction, put together from the Begin's data and the slots.
// Ported from link/spach/arq/receiver.rs (chrismoos/136-bts 7c60b63bf4, Apache-2.0) and changed: see NOTICE.
ghost use Rattle.std.specs.Prelude.{◌≡◌, ◌++◌, ◌≤◌, length, take, drop};
ghost use Rattle.receiver.specs.Receiver.{assembled, message_of};

use super::{SingleMessage, Transaction};
use rach::MobileIdentity;

// The message in the first octets of 255: the Begin's data bits, then the slots', as many as it has. A slot's number says
// where its bits go.
fn assemble(identity: MobileIdentity, t: &Transaction) -> [u8; 255]
    ensures { take t.now.message_octets result ≡ assembled identity t.now }
{
    let bits = 8 * usize::from(t.message_octets);
    let mut m = [0u8; 255];
    field::copy_bits(&mut m, 0, &t.begin_data, 0, t.first_bit(identity, 0));
    for k in 0..t.needed(identity) {
        let start = t.first_bit(identity, k);
        let n = arq::CONTINUE_DATA_BITS.min(bits - start);
        field::copy_bits(&mut m, start, &t.slots[k], 0, n);
    }
    m
}

// The message to the front of the buffer, whose other octets stay; what the answer says of it.
pub fn deliver(identity: MobileIdentity, t: &Transaction, buffer: &mut [u8]) -> SingleMessage
    requires { 255 ≤ length buffer.old }
    ensures message { result ≡ message_of identity t.now }
    ensures octets { buffer.new ≡ assembled identity t.now ++ drop t.now.message_octets buffer.old }
{
    let length = usize::from(t.message_octets);
    buffer[..length].copy_from_slice(&assemble(identity, t)[..length]);
    SingleMessage {
        channel: t.channel,
        flags: t.flags,
        identity,
        length,
    }
}
