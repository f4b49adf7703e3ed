ghost use Rattle.std.specs.Prelude.{◌≡◌, ◌++◌, ◌∷◌, [], OnOk, OnErr};
ghost use Rattle.std.specs.Option.{option_copied};
ghost use Rattle.fx_link.specs.LinkTable.{first_of, rest_of};

use crate::message::Message;
use fx_base::NoMemory;
use std::alloc::Global;
use std::collections::VecDeque;
use std::marker::Model;

/// What is on the way from one process to another, the oldest first.
#[derive(Debug, Drop)]
pub(crate) struct Queue {
    items: VecDeque<Message>,
}

impl Model for Queue {
    ghost use Rattle.std.specs.Prelude.{List};
    ghost use Rattle.fx_link.specs.declared.message.Message.{Message};
    ghost use Rattle.fx_link.specs.contracts.message.Message as message;
    ghost use Rattle.std.specs.Coded.{coded_list};

    ghost Value = { List Message };

    ghost coded = { coded_list message.the_row.coded };

    ghost view = { λ q. q.items.items };
}

impl Queue {
    /// The link with no message.
    pub(crate) fn new(alloc: Global) -> Queue
        ensures { result ≡ [] }
    {
        Queue {
            items: VecDeque::new(alloc),
        }
    }

    /// Adds a message as the last.
    pub(crate) fn push(&mut self, message: Message) -> Result<(), NoMemory>
        ensures ok { OnOk result (self.new ≡ self.old ++ message ∷ []) }
        ensures no_memory { OnErr result (self.new ≡ self.old) }
    {
        self.items.push_back(message)?;
        Ok(())
    }

    /// The oldest message, if there is one.
    pub(crate) fn front(&self) -> Option<&Message>
        ensures { option_copied result ≡ first_of self.now }
    {
        self.items.front()
    }

    /// Takes the oldest message, if there is one.
    pub(crate) fn pop(&mut self) -> Option<Message>
        ensures oldest { result ≡ first_of self.old }
        ensures others_stay { self.new ≡ rest_of self.old }
    {
        self.items.pop_front()
    }

    /// Drops all messages.
    pub(crate) fn clear(&mut self)
        ensures { self.new ≡ [] }
    {
        self.items.clear();
    }
}
