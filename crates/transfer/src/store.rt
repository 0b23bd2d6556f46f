// Message n lies in its own 255 octets of the lent store.
ghost use Rattle.std.specs.Prelude.{◌≡◌, ◌++◌, ◌≤◌, ◌<◌, length, drop};
ghost use Rattle.transfer.specs.Enqueue.{stored};

use super::constants::MESSAGE_OCTETS;

// The message at the front of its part.
pub fn put_message(part: &mut [u8], message: &[u8])
    requires { length message.now ≤ length part.old }
    ensures { part.new ≡ message.now ++ drop (length message.now) part.old }
{
    part[..message.len()].copy_from_slice(message);
}

pub fn store_message(store: &mut [u8], n: usize, message: &[u8])
    requires { (n < 128) × (32640 ≤ length store.old) × (length message.now ≤ 255) }
    ensures { store.new ≡ stored store.old n message.now }
{
    put_message(
        &mut store[MESSAGE_OCTETS * n..MESSAGE_OCTETS * n + MESSAGE_OCTETS],
        message,
    );
}
