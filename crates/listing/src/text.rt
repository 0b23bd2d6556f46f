// Text of ASCII, appended to what is there. `Display` is of no use for it: its writers may fail, and these calls can't.
ghost use Rattle.std.specs.Prelude.{◌≡◌, ◌++◌, ◌+◌, ◌≤◌, length};
ghost use Rattle.std.specs.Fmt.{decimal};
ghost use Rattle.arrayvec.specs.ArrayVec.{array_vec_len};

use arrayvec::ArrayVec;

pub fn put<const N: usize>(text: &mut ArrayVec<u8, N>, word: &[u8])
    requires { array_vec_len text.old + length word.now ≤ N }
    ensures items { text.new.items ≡ text.old.items ++ word.now }
    ensures len { array_vec_len text.new ≡ array_vec_len text.old + length word.now }
{
    text.try_extend_from_slice(word).unwrap();
}

// A number in decimal: 20 digits hold any.
pub fn put_decimal<const N: usize>(text: &mut ArrayVec<u8, N>, n: u64)
    requires { array_vec_len text.old + 20 ≤ N }
    ensures items { text.new.items ≡ text.old.items ++ decimal n }
    ensures len { array_vec_len text.new ≤ array_vec_len text.old + 20 }
{
    let mut digits = itoa::Buffer::new();
    put(text, digits.format(n).as_bytes());
}
