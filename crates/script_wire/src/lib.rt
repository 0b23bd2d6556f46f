// What scripts are made of: operands, values and answers in octets, numbers with the upper octet first. run.rt has the
// loop.
#![tactic(auto)]

pub mod run;

ghost use Rattle.std.specs.Prelude.{◌≡◌, ◌∷◌, [], ◌+◌, ◌%◌, ◌≤◌, ◌<◌, length, IfOk};
ghost use Rattle.std.specs.Int.{from_bool};

use arrayvec::ArrayVec;
use rach::MobileIdentity;
use spach::Numbered;
use std::marker::Model;

// Why an operation gives no values, as its number octet: the refusal's number, or 255 if its operands name no call.
#[derive(Clone, Copy, Debug, PartialEq, Eq)]
pub struct Refused(pub u8);

pub const NO_CALL: Refused = Refused(255);

impl<E: Numbered> From<E> for Refused {
    ghost use Rattle.std.specs.Prelude.{◌≡◌};

    ghost from_gives = { λ error refused. refused.0 ≡ E.number_of error };

    fn from(error: E) -> Refused {
        Refused(error.number())
    }
}

// What an operation answers: values, with the number octet 0 before them, or another number octet alone.
pub type Answer<const N: usize> = Result<Values<N>, Refused>;

// The operands of an operation that are still to be read. A clause sees their octets.
#[derive(Drop)]
pub struct Operands<'a> {
    left: &'a [u8],
}

impl<'a> Model for Operands<'a> {
    ghost use Rattle.std.specs.Prelude.{List, ℕ};

    ghost Value = { List ℕ };

    ghost view = { λ o. o.left.now };
}

impl<'a> Operands<'a> {
    pub fn new(octets: &'a [u8]) -> Self
        ensures { result ≡ octets.now }
    {
        Operands { left: octets }
    }

    pub fn octets<const N: usize>(&mut self) -> [u8; N]
        requires { N ≤ length self.old }
        ensures { length self.old ≡ length self.new + N }
    {
        let (octets, left) = self.left.split_first_chunk().unwrap();
        self.left = left;
        *octets
    }

    pub fn slice(&mut self, count: usize) -> &'a [u8]
        requires { count ≤ length self.old }
        ensures left { length self.old ≡ length self.new + count }
        ensures len { length result.now ≡ count }
    {
        let (octets, left) = self.left.split_at(count);
        self.left = left;
        octets
    }

    pub fn octet(&mut self) -> u8
        requires { 1 ≤ length self.old }
        ensures { length self.old ≡ length self.new + 1 }
    {
        let [octet] = self.octets::<1>();
        octet
    }

    pub fn two(&mut self) -> u16
        requires { 2 ≤ length self.old }
        ensures { length self.old ≡ length self.new + 2 }
    {
        u16::from_be_bytes(self.octets())
    }

    pub fn four(&mut self) -> u32
        requires { 4 ≤ length self.old }
        ensures { length self.old ≡ length self.new + 4 }
    {
        u32::from_be_bytes(self.octets())
    }

    pub fn eight(&mut self) -> u64
        requires { 8 ≤ length self.old }
        ensures { length self.old ≡ length self.new + 8 }
    {
        u64::from_be_bytes(self.octets())
    }

    // One of two, by an octet that is 0 or 1.
    pub fn either<T: Drop>(&mut self, zero: T, one: T) -> Result<T, Refused>
        requires { 1 ≤ length self.old }
        ensures { length self.old ≡ length self.new + 1 }
    {
        match self.octet() {
            0 => Ok(zero),
            1 => Ok(one),
            _ => Err(NO_CALL),
        }
    }

    // The protocol's flag.
    pub fn flag(&mut self) -> Result<bool, Refused>
        requires { 1 ≤ length self.old }
        ensures { length self.old ≡ length self.new + 1 }
    {
        self.either(false, true)
    }

    // The length of a message or of a buffer.
    pub fn length(&mut self) -> Result<usize, Refused>
        requires { 2 ≤ length self.old }
        ensures left { length self.old ≡ length self.new + 2 }
        ensures fits { IfOk result (λ n. n ≤ 304) }
    {
        let n = usize::from(self.two());
        if 304 < n {
            return Err(NO_CALL);
        }
        Ok(n)
    }

    // A count, and the first so many of the 32 octets after it.
    pub fn frame(&mut self) -> Result<&'a [u8], Refused>
        requires { 33 ≤ length self.old }
        ensures { length self.old ≡ length self.new + 33 }
    {
        let count = usize::from(self.octet());
        let octets = self.slice(32);
        octets.get(..count).ok_or(NO_CALL)
    }

    // The identity of a type and a value, also one that cannot be encoded.
    pub fn identity(&mut self) -> Result<MobileIdentity, Refused>
        requires { 9 ≤ length self.old }
        ensures { length self.old ≡ length self.new + 9 }
    {
        let identity_type = self.octet();
        let value = self.eight();
        match (identity_type, u32::try_from(value)) {
            (0, Ok(value)) => Ok(MobileIdentity::Tmsi20(value)),
            (1, Ok(value)) => Ok(MobileIdentity::Tmsi24(value)),
            (2, _) => Ok(MobileIdentity::Min34(value)),
            (3, _) => Ok(MobileIdentity::Imsi50(value)),
            _ => Err(NO_CALL),
        }
    }
}

// The values of an answer, at most N octets. A clause sees the octets.
#[derive(Drop)]
pub struct Values<const N: usize> {
    octets: ArrayVec<u8, N>,
}

impl<const N: usize> Model for Values<N> {
    ghost use Rattle.std.specs.Prelude.{List, ℕ};

    ghost Value = { List ℕ };

    ghost view = { λ v. v.octets.items };
}

impl<const N: usize> From<[u8; N]> for Values<N> {
    ghost use Rattle.std.specs.Prelude.{◌≡◌};

    ghost from_gives = { λ octets values. values ≡ octets };

    fn from(octets: [u8; N]) -> Self {
        Values {
            octets: octets.into(),
        }
    }
}

impl Values<1> {
    // The protocol's flag: one octet, 1 or 0.
    pub fn flag(flag: bool) -> Self
        ensures { result ≡ from_bool flag ∷ [] }
    {
        Values::from([u8::from(flag)])
    }
}

impl<const N: usize> Values<N> {
    pub fn new() -> Self
        ensures { length result ≡ 0 }
    {
        Values {
            octets: ArrayVec::new(),
        }
    }

    pub fn push(&mut self, octet: u8)
        requires { length self.old < N }
        ensures { length self.new ≡ length self.old + 1 }
    {
        self.octets.push(octet);
    }

    pub fn extend(&mut self, octets: &[u8])
        requires { length self.old + length octets.now ≤ N }
        ensures { length self.new ≡ length self.old + length octets.now }
    {
        self.octets.try_extend_from_slice(octets).unwrap();
    }

    // The protocol's number: eight octets.
    pub fn number(&mut self, number: u64)
        requires { length self.old + 8 ≤ N }
        ensures { length self.new ≡ length self.old + 8 }
    {
        self.extend(&number.to_be_bytes());
    }

    // Type and value.
    pub fn identity(&mut self, identity: MobileIdentity)
        requires { length self.old + 9 ≤ N }
        ensures { length self.new ≡ length self.old + 9 }
    {
        let parts = identity.parts();
        self.push(parts.identity_type);
        self.number(parts.value);
    }

    pub fn as_slice(&self) -> &[u8]
        ensures { length result.now ≤ N }
    {
        &self.octets
    }
}

// What a call leaves is held on, what it gives is handed on.
pub fn keep<T: Drop, A>(held: &mut Option<T>, done: (T, A)) -> A
    ensures { (held.new ≡ Some (done.0)) × (result ≡ done.1) }
{
    let (after, given) = done;
    *held = Some(after);
    given
}

// The octet of a number that is below 256.
pub fn low(number: usize) -> u8
    ensures { result ≡ number % 256 }
{
    (number & 0xff) as u8
}
