// The last lines of a listing.
ghost use Rattle.std.specs.Prelude.{◌≡◌, ◌++◌, ◌+◌, ◌≤◌};
ghost use Rattle.arrayvec.specs.ArrayVec.{array_vec_len};
ghost use Rattle.listing.specs.Line.{cut_line, messages_line};
ghost use Rattle.listing.specs.Session.{last_lines};

use super::Session;
use super::text::{put, put_decimal};
use arrayvec::ArrayVec;

// `cut` and how many octets the cut last frame has, if any.
fn put_cut<const N: usize>(text: &mut ArrayVec<u8, N>, cut: u64)
    requires { array_vec_len text.old + 25 ≤ N }
    ensures items { text.new.items ≡ text.old.items ++ cut_line cut }
    ensures len { array_vec_len text.new ≤ array_vec_len text.old + 25 }
{
    if cut > 0 {
        put(text, b"cut ");
        put_decimal(text, cut);
        text.push(b'\n');
    }
}

// `messages` and how many were delivered.
fn put_messages<const N: usize>(text: &mut ArrayVec<u8, N>, messages: u64)
    requires { array_vec_len text.old + 30 ≤ N }
    ensures { text.new.items ≡ text.old.items ++ messages_line messages }
{
    put(text, b"messages ");
    put_decimal(text, messages);
    text.push(b'\n');
}

// Both.
pub fn put_last<const N: usize>(text: &mut ArrayVec<u8, N>, session: Session, cut: u64)
    requires { array_vec_len text.old + 55 ≤ N }
    ensures { text.new.items ≡ text.old.items ++ last_lines session cut }
{
    put_cut(text, cut);
    put_messages(text, session.messages);
}
