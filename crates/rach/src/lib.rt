// Identities of mobile stations as the air interface packs them, and their parts.
// Ported from link/rach.rs (chrismoos/136-bts 7c60b63bf4, Apache-2.0) and changed: see NOTICE.
#![tactic(auto)]

ghost use Rattle.std.specs.Prelude.{◌≡◌, ◌^◌, ◌<◌, ◌≤◌};
ghost use Rattle.rach.specs.Identity.{width_of, in_range, parts_of, identity_of, encodable};

#[derive(Clone, Copy, Debug, PartialEq, Eq)]
pub enum MobileIdentity {
    Tmsi20(u32),
    Tmsi24(u32),
    Min34(u64),
    Imsi50(u64),
}

// The type is a number, as a Continue has it and the standard: it may be one that no identity has.
#[derive(Clone, Copy, Debug, PartialEq, Eq)]
pub struct IdentityParts {
    pub identity_type: u8,
    pub width: usize,
    pub value: u64,
}

// The width of the values of an identity type. Types above 3 do not occur: they count as 3.
pub fn width_of(identity_type: u8) -> usize
    ensures { result ≡ width_of identity_type }
{
    match identity_type {
        0 => 20,
        1 => 24,
        2 => 34,
        _ => 50,
    }
}

// Encoding needs a value of 1 to 2^width - 1.
pub fn in_range(value: u64, width: usize) -> bool
    requires { width ≤ 50 }
    ensures { result ≡ in_range value width }
{
    value != 0 && value < 1u64 << width
}

// The identity of a type and a value that the type's width holds. It asks for that, so it is no `From`.
pub fn identity_of(identity_type: u8, value: u64) -> MobileIdentity
    requires { value < 2 ^ width_of identity_type }
    ensures { result ≡ identity_of identity_type value }
{
    match identity_type {
        0 => MobileIdentity::Tmsi20(value as u32),
        1 => MobileIdentity::Tmsi24(value as u32),
        2 => MobileIdentity::Min34(value),
        _ => MobileIdentity::Imsi50(value),
    }
}

impl MobileIdentity {
    // Type, width and value: the standard's table.
    pub fn parts(self) -> IdentityParts
        ensures { result ≡ parts_of self }
    {
        let (identity_type, value) = match self {
            MobileIdentity::Tmsi20(value) => (0, u64::from(value)),
            MobileIdentity::Tmsi24(value) => (1, u64::from(value)),
            MobileIdentity::Min34(value) => (2, value),
            MobileIdentity::Imsi50(value) => (3, value),
        };
        IdentityParts {
            identity_type,
            width: width_of(identity_type),
            value,
        }
    }

    // Whether the identity can be encoded.
    pub fn encodable(self) -> bool
        ensures { result ≡ encodable self }
    {
        let p = self.parts();
        in_range(p.value, p.width)
    }
}
