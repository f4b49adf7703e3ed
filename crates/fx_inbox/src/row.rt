ghost use Rattle.std.specs.Prelude.{◌≡◌, ◌++◌, ◌∷◌, [], not, OnOk, OnErr};
ghost use Rattle.std.specs.List.{filter, list_any};
ghost use Rattle.fx_inbox.specs.Joins.{tells_join};
ghost use Rattle.fx_machine.specs.Messages.{wire_text};
ghost use Rattle.fx_machine.specs.Reading.{is_past_at};

use fx_base::{CallNo, Epoch, NoMemory};
use fx_link::Message;
use std::alloc::Global;
use std::marker::Model;

/// The messages of one process, the oldest first.
#[derive(Debug, Drop)]
pub(crate) struct Row {
    messages: Vec<Message>,
}

impl Model for Row {
    ghost use Rattle.std.specs.Prelude.{List};
    ghost use Rattle.std.specs.Coded.{coded_list};
    ghost use Rattle.fx_link.specs.declared.message.Message.{Message};
    ghost use Rattle.fx_link.specs.contracts.message.Message as message;

    ghost Value = { List Message };

    ghost coded = { coded_list message.the_row.coded };

    ghost view = { λ r. r.messages.items };
}

impl Row {
    /// The row with no message.
    pub fn new(alloc: Global) -> Row
        ensures { result ≡ [] }
    {
        Row {
            messages: Vec::new(alloc),
        }
    }

    /// The messages, the oldest first.
    pub fn as_slice(&self) -> &[Message]
        ensures { result.now ≡ self.now }
    {
        self.messages.as_slice()
    }

    /// Adds a message, as the newest. Without memory the row stays as it was.
    pub fn push(&mut self, message: Message) -> Result<(), NoMemory>
        ensures ok { OnOk result (self.new ≡ self.old ++ message ∷ []) }
        ensures no_memory { OnErr result (self.new ≡ self.old) }
    {
        Ok(self.messages.push(message)?)
    }

    /// Whether one of them is a vote in the ballot of an epoch.
    pub fn has_join(&self) -> bool
        ensures { result ≡ list_any tells_join self.now }
    {
        for message in &self.messages {
            if is_vote_of_epoch(message) {
                return true;
            }
        }
        false
    }

    /// Keeps exactly the messages that aren't past for who has come to this call of this epoch.
    pub fn forget(&mut self, epoch: Epoch, call: CallNo)
        ensures { self.new ≡ filter (λ m. not (is_past_at epoch.0 call.0 (wire_text m))) self.old }
    {
        self.messages
            .retain(|message| !is_past(message, epoch, call));
    }
}

/// Whether a message is a vote in the ballot of an epoch.
pub(crate) fn is_vote_of_epoch(message: &Message) -> bool
    ensures { result ≡ tells_join message.now }
{
    matches!(message, Message::Join { .. })
}

/// Whether a message is of a ballot or of a call that is over, for who has come to this call of this epoch.
fn is_past(message: &Message, epoch: Epoch, call: CallNo) -> bool
    ensures { result ≡ is_past_at epoch.0 call.0 (wire_text message.now) }
{
    match message {
        Message::Join { e, .. } | Message::Jest { e, .. } => e.0 <= epoch.0,
        Message::Part { e, k, .. }
        | Message::Vote { e, k, .. }
        | Message::Est { e, k, .. }
        | Message::Share { e, k, .. }
        | Message::Tell { e, k, .. }
        | Message::Help { e, k, .. }
        | Message::Give { e, k, .. } => e.0 < epoch.0 || *e == epoch && k.0 < call.0,
    }
}
