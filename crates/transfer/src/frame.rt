// The frames of a transfer's message, under its present echo.
// Ported from runtime/spach_arq.rs (chrismoos/136-bts 7c60b63bf4, Apache-2.0) and changed: see NOTICE.
ghost use Rattle.std.specs.Prelude.{◌≡◌, ◌+◌, ◌*◌, ◌≤◌, length};
ghost use Rattle.spach.specs.Refusal.{number_of, by_number};
ghost use Rattle.transfer.specs.Transfer.{header_of};
ghost use Rattle.transfer.specs.Prepare.{packed_of};

use super::Transfer;
use super::constants::MESSAGE_OCTETS;
use arq::cut::fragment;
use arq::{ArqHeader, PackedFrame, ResponseMode};
use spach::{Channel, HeaderFlags, SpachError};

// The header of the cut: no flag, the echo, Contention.
pub fn header_of(channel: Channel, echo: u8, polling: bool) -> ArqHeader
    ensures { result ≡ header_of channel echo polling }
{
    ArqHeader {
        channel,
        flags: HeaderFlags {
            pch_continuation: false,
            bcch_change: false,
            paging_frame_modifier: false,
            reservation_response: false,
        },
        partial_echo: echo,
        polling,
        response_mode: ResponseMode::Contention,
    }
}

// Frame k of the cut of the message, encoded.
pub fn packed_of(
    x: &Transfer,
    octets: &[u8],
    k: usize,
    polling: bool,
) -> Result<PackedFrame, SpachError>
    requires { 255 * x.now.parcel.n + x.now.parcel.octets ≤ length octets.now }
    ensures { by_number number_of result ≡ packed_of x.now octets.now k polling }
{
    let start = MESSAGE_OCTETS * usize::from(x.parcel.n);
    let message = &octets[start..start + usize::from(x.parcel.octets)];
    let header = header_of(x.parcel.channel, x.echo, polling);
    let frame = fragment(header, x.parcel.identity, message, k)?;
    frame.encode()
}
