// The operations of a sender's script.
use script_wire::run::{Operation, Unknown};

#[derive(Clone, Copy, Debug, PartialEq, Eq)]
pub enum Op {
    Message,
    New,
    Lend,
    CanEnqueue,
    Enqueue,
    Advance,
    Prepare,
    HasEcho,
    Interrupt,
    Prioritized,
    Submitted,
    SubmittedMessage,
    Transmitted,
    Status,
    Cancel,
    CancelTransaction,
    CancelAll,
    Refresh,
    IdentityForEcho,
    RadioActive,
    Ready,
    Contains,
    PopEvent,
    Pending,
    State,
    Transfer,
    Event,
    Echoes,
    Sums,
}

impl TryFrom<u8> for Op {
    ghost use Rattle.script_wire.specs.Table.{Names};
    ghost use Rattle.script_sender.specs.Table.{row_of};

    type Error = Unknown;

    ghost try_from_gives = { Names row_of };

    fn try_from(octet: u8) -> Result<Op, Unknown> {
        match octet {
            0x0e => Ok(Op::Message),
            0x27 => Ok(Op::New),
            0x28 => Ok(Op::Lend),
            0x29 => Ok(Op::CanEnqueue),
            0x2a => Ok(Op::Enqueue),
            0x2b => Ok(Op::Advance),
            0x2c => Ok(Op::Prepare),
            0x2d => Ok(Op::HasEcho),
            0x2e => Ok(Op::Interrupt),
            0x2f => Ok(Op::Prioritized),
            0x30 => Ok(Op::Submitted),
            0x31 => Ok(Op::SubmittedMessage),
            0x32 => Ok(Op::Transmitted),
            0x33 => Ok(Op::Status),
            0x34 => Ok(Op::Cancel),
            0x35 => Ok(Op::CancelTransaction),
            0x36 => Ok(Op::CancelAll),
            0x37 => Ok(Op::Refresh),
            0x38 => Ok(Op::IdentityForEcho),
            0x39 => Ok(Op::RadioActive),
            0x3a => Ok(Op::Ready),
            0x3b => Ok(Op::Contains),
            0x3c => Ok(Op::PopEvent),
            0x3d => Ok(Op::Pending),
            0x3e => Ok(Op::State),
            0x3f => Ok(Op::Transfer),
            0x40 => Ok(Op::Event),
            0x41 => Ok(Op::Echoes),
            0x42 => Ok(Op::Sums),
            _ => Err(Unknown),
        }
    }
}

impl Operation for Op {
    ghost use Rattle.script_sender.specs.Table.{row_of};

    ghost row_of = { row_of };

    fn shape(self) -> (usize, usize) {
        match self {
            Op::Message => (9, 1),
            Op::New => (33, 1),
            Op::Lend => (4, 1),
            Op::CanEnqueue => (16, 2),
            Op::Enqueue => (44, 9),
            Op::Advance => (16, 1),
            Op::Prepare => (16, 50),
            Op::HasEcho => (1, 2),
            Op::Interrupt => (17, 2),
            Op::Prioritized => (17, 50),
            Op::Submitted => (40, 1),
            Op::SubmittedMessage => (24, 10),
            Op::Transmitted => (40, 3),
            Op::Status => (21, 2),
            Op::Cancel => (9, 2),
            Op::CancelTransaction => (8, 2),
            Op::CancelAll => (0, 1),
            Op::Refresh => (16, 1),
            Op::IdentityForEcho => (1, 11),
            Op::RadioActive => (0, 2),
            Op::Ready => (0, 2),
            Op::Contains => (9, 2),
            Op::PopEvent => (0, 12),
            Op::Pending => (0, 2),
            Op::State => (0, 95),
            Op::Transfer => (1, 91),
            Op::Event => (2, 12),
            Op::Echoes => (1, 129),
            Op::Sums => (0, 17),
        }
    }
}
