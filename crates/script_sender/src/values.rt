// A sender's values in an answer: zeros for what there is not, each as many as its values.
ghost use Rattle.std.specs.Prelude.{◌≡◌, ◌+◌, ◌≤◌, length};

use script_wire::{Values, low};
use sender::Table;
use spach::Numbered;
use transfer::{Event, PreparedFrame, Transfer};

// Kind, completion and error: this is 0 unless it failed.
pub fn event_parts(event: Event) -> (u8, u64, u8) {
    match event {
        Event::Complete(completion) => (0, completion, 0),
        Event::Expired(completion) => (1, completion, 0),
        Event::Cancelled(completion) => (2, completion, 0),
        Event::Failed { completion, error } => (3, completion, error.number()),
    }
}

pub fn event_values(event: Option<Event>) -> Values<11> {
    let Some(event) = event else {
        return Values::from([0; 11]);
    };
    let (kind, completion, error) = event_parts(event);
    let mut values = Values::new();
    values.push(1);
    values.push(kind);
    values.number(completion);
    values.push(error);
    values
}

// Identity, octets, token and echo.
pub fn put_prepared<const N: usize>(values: &mut Values<N>, frame: Option<PreparedFrame>)
    requires { length values.old + 49 ≤ N }
    ensures { length values.new ≡ length values.old + 49 }
{
    let Some(frame) = frame else {
        return values.extend(&[0; 49]);
    };
    values.push(1);
    values.identity(frame.identity);
    values.extend(&frame.octets);
    values.number(frame.token.generation.0);
    values.number(frame.token.submission.0);
    values.number(frame.token.frame as u64);
    values.push(frame.partial_echo);
}

// A number of eight octets, if there is one: a block, or a completion.
pub fn put_held<const N: usize>(values: &mut Values<N>, number: Option<u64>)
    requires { length values.old + 9 ≤ N }
    ensures { length values.new ≡ length values.old + 9 }
{
    values.push(u8::from(number.is_some()));
    values.number(number.unwrap_or(0));
}

// From the queue to the completion.
fn put_progress<const N: usize>(values: &mut Values<N>, x: &Transfer)
    requires { length values.old + 60 ≤ N }
    ensures { length values.new ≡ length values.old + 60 }
{
    let sets = x.sets;
    values.extend(&sets.queue.to_be_bytes());
    values.extend(&sets.in_flight.to_be_bytes());
    values.extend(&sets.transmitted.to_be_bytes());
    values.extend(&sets.observed.to_be_bytes());
    values.push(u8::from(sets.received_status));
    put_held(values, x.blocks.last_progress);
    put_held(values, x.blocks.last_frame);
    put_held(values, x.blocks.waiting_since);
    values.number(x.parcel.deadline_ms);
    values.number(x.parcel.completion);
}

pub fn transfer_values(x: Option<&Transfer>) -> Values<90> {
    let Some(x) = x else {
        return Values::from([0; 90]);
    };
    let mut values = Values::new();
    values.push(1);
    values.identity(x.parcel.identity);
    values.push(x.echo);
    values.number(x.parcel.owner.0);
    values.number(x.generation.0);
    values.push(x.parcel.channel.usage());
    values.push(x.parcel.octets);
    values.push(x.parcel.frames);
    put_progress(&mut values, x);
    values
}

// SENDER_STATE's values.
pub fn state_values(table: &Table) -> Values<94> {
    let mut values = Values::new();
    values.push(low(table.limits.capacity));
    values.number(table.limits.echo_guard_ms);
    values.number(table.limits.startup_until_block);
    values.push(low(table.transfers.len()));
    values.extend(&(table.events.len() as u16).to_be_bytes());
    values.push(low(table.echoes.next_echo()));
    values.number(table.clock.last_block);
    values.number(table.clock.last_ms);
    values.number(table.next_token);
    put_prepared(&mut values, table.selected);
    values
}
