// What every SPACH frame has: refusals, channel and flags, header A and the address, and the cursor that reads them.
// Ported from link/spach.rs (chrismoos/136-bts 7c60b63bf4, Apache-2.0) and changed: see NOTICE.
#![tactic(auto)]

ghost use Rattle.std.specs.Prelude.{◌≡◌, ◌+◌, ◌^◌, ◌<◌, ℕ};
ghost use Rattle.field.specs.Bits.{bits_of, field};
ghost use Rattle.field.specs.Spans.{Placed, Run};
ghost use Rattle.spach.specs.Refusal.{number_of, by_number};
ghost use Rattle.spach.specs.Apart.{numbers_apart};
ghost use Rattle.spach.specs.Identity.{check_identity, accept_identity};
ghost use Rattle.spach.specs.Header.{usage_of, channel_of, header_a_at, identity_at, address_at};

use rach::MobileIdentity;

// Why a frame, a message or a call is refused. Padding, Room and Tokens are added to the Rust's.
#[derive(Clone, Copy, Debug, PartialEq, Eq)]
pub enum SpachError {
    Length,
    Identity,
    UnsupportedUsage,
    UnsupportedFrame,
    Encrypted,
    Reserved,
    Filler,
    PartialEcho,
    FrameNumber,
    Payload,
    DuplicateConflict,
    Padding,
    Room,
    Tokens,
}

// An error that has a number in document 01, which tells it from the others of its type.
pub trait Numbered: Sized {
    ghost number_of: { Self → ℕ };

    fn number(self) -> u8
        ensures { result ≡ number_of self };

    ghost numbers_apart: { (a b : Self) → number_of a ≡ number_of b → a ≡ b };
}

impl Numbered for SpachError {
    ghost number_of = { number_of };

    ghost numbers_apart = { numbers_apart };

    fn number(self) -> u8 {
        match self {
            SpachError::Length => 1,
            SpachError::Identity => 2,
            SpachError::UnsupportedUsage => 3,
            SpachError::UnsupportedFrame => 4,
            SpachError::Encrypted => 5,
            SpachError::Reserved => 6,
            SpachError::Filler => 7,
            SpachError::PartialEcho => 11,
            SpachError::FrameNumber => 12,
            SpachError::Payload => 13,
            SpachError::DuplicateConflict => 14,
            SpachError::Padding => 15,
            SpachError::Room => 16,
            SpachError::Tokens => 18,
        }
    }
}

// An identity can be encoded, or is refused 2.
pub fn check_identity(identity: MobileIdentity) -> Result<(), SpachError>
    ensures { by_number number_of result ≡ check_identity identity }
{
    if identity.encodable() {
        Ok(())
    } else {
        Err(SpachError::Identity)
    }
}

// The identity of a type and a value, whatever they are, or a refusal 2.
pub fn accept_identity(identity_type: u8, value: u64) -> Result<MobileIdentity, SpachError>
    ensures { by_number number_of result ≡ accept_identity identity_type value }
{
    if 3 < identity_type || !rach::in_range(value, rach::width_of(identity_type)) {
        return Err(SpachError::Identity);
    }
    Ok(rach::identity_of(identity_type, value))
}

// Where the next field starts.
#[derive(Clone, Copy, Debug, PartialEq, Eq)]
pub struct Reader {
    pub offset: usize,
}

impl Reader {
    // The field of width bits at the cursor, and the cursor past it.
    pub fn take(self, octets: &[u8], width: usize) -> (u64, Reader)
        requires { Placed octets.now self.offset width }
        ensures value { result.0 ≡ field self.offset width (bits_of octets.now) }
        ensures below { result.0 < 2 ^ width }
        ensures next { result.1.offset ≡ self.offset + width }
    {
        let value = field::read_field(octets, self.offset, width);
        let offset = self.offset + width;
        (value, Reader { offset })
    }
}

#[derive(Clone, Copy, Debug, PartialEq, Eq)]
pub enum Channel {
    Arch,
    Smsch,
    Pch,
}

impl Channel {
    // Header A's usage, the standard's number. Contracts read no `as` of an enum, so it is a match.
    pub fn usage(self) -> u8
        ensures { result ≡ usage_of self }
    {
        match self {
            Channel::Arch => 3,
            Channel::Smsch => 4,
            Channel::Pch => 7,
        }
    }
}

// The channel of a usage.
impl TryFrom<u64> for Channel {
    type Error = SpachError;

    ghost try_from_gives = { λ usage r. by_number number_of r ≡ channel_of usage };

    fn try_from(usage: u64) -> Result<Channel, SpachError> {
        match usage {
            3 => Ok(Channel::Arch),
            4 => Ok(Channel::Smsch),
            7 => Ok(Channel::Pch),
            _ => Err(SpachError::UnsupportedUsage),
        }
    }
}

#[derive(Clone, Copy, Debug, PartialEq, Eq)]
pub struct HeaderFlags {
    pub pch_continuation: bool,
    pub bcch_change: bool,
    pub paging_frame_modifier: bool,
    pub reservation_response: bool,
}

// Header A as it was read, and the cursor past it.
#[derive(Clone, Copy, Debug, PartialEq, Eq)]
pub struct HeaderA {
    pub channel: Channel,
    pub flags: HeaderFlags,
    pub reader: Reader,
}

// Header A at the cursor, taken as one number. Its flags lack the reservation response, which header B has.
pub fn read_header_a(octets: &[u8], reader: Reader) -> Result<HeaderA, SpachError>
    requires { Run octets.now reader.offset 7 }
    ensures { by_number number_of result ≡ header_a_at reader.offset (bits_of octets.now) }
{
    let (bits, reader) = reader.take(octets, 7);
    let channel = Channel::try_from(bits / 16 % 8)?;
    if bits % 2 != 0 {
        return Err(SpachError::Reserved);
    }
    let flags = HeaderFlags {
        pch_continuation: bits / 8 % 2 != 0,
        bcch_change: bits / 4 % 2 != 0,
        paging_frame_modifier: bits / 2 % 2 != 0,
        reservation_response: false,
    };
    Ok(HeaderA {
        channel,
        flags,
        reader,
    })
}

// A Begin's address as it was read, and the cursor past it.
#[derive(Clone, Copy, Debug, PartialEq, Eq)]
pub struct Address {
    pub identity: MobileIdentity,
    pub reservation_response: bool,
    pub reader: Reader,
}

// The identity of a type that was read, at the cursor.
fn read_identity(
    octets: &[u8],
    reader: Reader,
    identity_type: u8,
    reservation_response: bool,
) -> Result<Address, SpachError>
    requires { Run octets.now reader.offset 50 }
    ensures { by_number number_of result ≡ identity_at identity_type reader.offset reservation_response (bits_of octets.now) }
{
    let (value, reader) = reader.take(octets, rach::width_of(identity_type));
    if value == 0 {
        return Err(SpachError::Identity);
    }
    Ok(Address {
        identity: rach::identity_of(identity_type, value),
        reservation_response,
        reader,
    })
}

// Identity type, a bit, reservation response and encrypted bit at the cursor, taken as one number; then the identity.
pub fn read_address(octets: &[u8], reader: Reader) -> Result<Address, SpachError>
    requires { Run octets.now reader.offset 55 }
    ensures { by_number number_of result ≡ address_at reader.offset (bits_of octets.now) }
{
    let (bits, reader) = reader.take(octets, 5);
    if bits / 4 % 2 != 0 {
        return Err(SpachError::UnsupportedFrame);
    }
    if bits % 2 != 0 {
        return Err(SpachError::Encrypted);
    }
    let identity_type = (bits / 8 % 4) as u8;
    read_identity(octets, reader, identity_type, bits / 2 % 2 != 0)
}
