ghost use Rattle.std.specs.Prelude.{◌≡◌, ◌<◌, ◌++◌, ◌∷◌, [], IfOk, OnOk, OnErr, length, replicate, slice_index_or, slice_set};
ghost use Rattle.std.specs.Option.{option_copied};
ghost use Rattle.fx_link.specs.LinkTable.{first_of, rest_of};

use crate::message::Message;
use crate::queue::Queue;
use fx_base::NoMemory;
use std::alloc::Global;
use std::marker::Model;

/// The links from one process, by receiver.
#[derive(Debug, Drop)]
pub(crate) struct Row {
    links: Vec<Queue>,
}

impl Model for Row {
    ghost use Rattle.std.specs.Prelude.{List};
    ghost use Rattle.fx_link.specs.declared.message.Message.{Message};
    ghost use Rattle.fx_link.specs.contracts.message.Message as message;
    ghost use Rattle.std.specs.Coded.{coded_list};

    ghost Value = { List (List Message) };

    ghost coded = { coded_list (coded_list message.the_row.coded) };

    ghost view = { λ r. r.links.items };
}

impl Row {
    /// Empty links to as many receivers.
    pub(crate) fn new(alloc: Global, procs: u8) -> Result<Row, NoMemory>
        ensures { IfOk result (λ row. row ≡ replicate procs []) }
    {
        let mut links = Vec::new(alloc);
        for _ in 0..procs {
            links.push(Queue::new(alloc))?;
        }
        Ok(Row { links })
    }

    /// Adds a message as the last of the link to the receiver.
    pub(crate) fn push(&mut self, to: usize, message: Message) -> Result<(), NoMemory>
        requires { to < length self.old }
        ensures ok { OnOk result (self.new ≡ slice_set self.old to (slice_index_or self.old to [] ++ message ∷ [])) }
        ensures no_memory { OnErr result (self.new ≡ self.old) }
    {
        self.links[to].push(message)
    }

    /// The oldest message of the link to the receiver.
    pub(crate) fn front(&self, to: usize) -> Option<&Message>
        requires { to < length self.now }
        ensures { option_copied result ≡ first_of (slice_index_or self.now to []) }
    {
        self.links[to].front()
    }

    /// Takes the oldest message of the link to the receiver.
    pub(crate) fn pop(&mut self, to: usize) -> Option<Message>
        requires { to < length self.old }
        ensures oldest { result ≡ first_of (slice_index_or self.old to []) }
        ensures others_stay { self.new ≡ slice_set self.old to (rest_of (slice_index_or self.old to [])) }
    {
        self.links[to].pop()
    }

    /// Empties the link to the receiver.
    pub(crate) fn clear(&mut self, to: usize)
        requires { to < length self.old }
        ensures { self.new ≡ slice_set self.old to [] }
    {
        self.links[to].clear();
    }
}
