ghost use Rattle.std.specs.Prelude.{◌≡◌, ◌==◌, length, map};
ghost use Rattle.std.specs.Option.{option_copied};
ghost use Rattle.fx_machine.specs.Messages.{wire_text};
ghost use Rattle.fx_machine.specs.Reading.{first_read, only, part_in};

use fx_base::{CallNo, Epoch};
use fx_link::{Message, Values};

/// The first part of this length among the messages of a process, in this call of this epoch.
pub(crate) fn first_part(
    messages: &[Message],
    epoch: Epoch,
    call: CallNo,
    due: usize,
) -> Option<&Values>
    ensures { option_copied result ≡ first_read (λ t. only (λ values. length values == due) (part_in epoch.0 call.0 t)) (map wire_text messages.now) }
{
    for message in messages {
        if let Some(values) = part_in(message, epoch, call) {
            if values.len() == due {
                return Some(values);
            }
        }
    }
    None
}

// The values of the part that a message is, if it is one of this call.
fn part_in(message: &Message, epoch: Epoch, call: CallNo) -> Option<&Values>
    ensures { option_copied result ≡ part_in epoch.0 call.0 (wire_text message.now) }
{
    match message {
        Message::Part { e, k, elems } if *e == epoch && *k == call => Some(elems),
        _ => None,
    }
}
