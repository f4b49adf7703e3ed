ghost use Rattle.std.specs.Prelude.{◌≡◌, ◌<◌, ◌≤◌, [], true, IfOk, IsOkAnd, OnOk, OnErr, All, length, map, slice_set};
ghost use Rattle.std.specs.Option.{option_copied};
ghost use Rattle.fx_link.specs.LinkTable.{procs_of, link_of, is_closed, no_links, sent, first_of, taken, emptied, closed_to};

use crate::message::Message;
use crate::row::Row;
use fx_base::{NoMemory, Proc};
use std::alloc::Global;
use std::marker::Model;

/// The links of a job: one list of messages for each ordered pair of processes, the oldest first, and the
/// processes that are closed, to which sends vanish. Each process that is handed in is below the number of
/// processes that the links were made for.
#[derive(Debug, Drop)]
pub struct Links {
    rows: Vec<Row>,
    closed: Vec<bool>,
}

impl Model for Links {
    ghost use Rattle.fx_link.specs.contracts.message.Message as message;
    ghost use Rattle.fx_link.specs.LinkTable.{LinkTable, table_code, IsTable};

    ghost Value = { LinkTable };

    ghost coded = { table_code message.the_row.coded };

    ghost view = { λ l. record { rows = l.rows.items; closed = l.closed.items } };

    ghost invariant = { λ l. IsTable (record { rows = l.rows.items; closed = l.closed.items }) };
}

impl Links {
    /// Empty links between 1 to 32 processes, none of them closed.
    pub fn new(alloc: Global, procs: u8) -> Result<Links, NoMemory>
        requires some { 1 ≤ procs }
        requires at_most_32 { procs ≤ 32 }
        ensures { IfOk result (λ links. links ≡ no_links procs) }
    {
        let mut rows = Vec::new(alloc);
        let mut closed = Vec::new(alloc);
        for _ in 0..procs {
            rows.push(Row::new(alloc, procs)?)?;
            closed.push(false)?;
        }
        Ok(Links { rows, closed })
    }

    /// Sends a message: it is the last on its link. Where the receiver is closed it vanishes, and no memory
    /// is needed. Without memory nothing changes.
    pub fn send(&mut self, from: Proc, to: Proc, message: Message) -> Result<(), NoMemory>
        requires sender { from.0 < procs_of self.old }
        requires receiver { to.0 < procs_of self.old }
        ensures ok { OnOk result (self.new ≡ sent self.old from.0 to.0 message) }
        ensures closed { is_closed self.old to.0 ≡ true → IsOkAnd result (λ _. self.new ≡ self.old) }
        ensures no_memory { OnErr result (self.new ≡ self.old) }
    {
        if self.closed[usize::from(to.0)] {
            return Ok(());
        }
        self.rows[usize::from(from.0)].push(usize::from(to.0), message)
    }

    /// The oldest message from one process to another; `None` exactly where none is on the way.
    pub fn front(&self, from: Proc, to: Proc) -> Option<&Message>
        requires sender { from.0 < procs_of self.now }
        requires receiver { to.0 < procs_of self.now }
        ensures { option_copied result ≡ first_of (link_of self.now from.0 to.0) }
    {
        self.rows[usize::from(from.0)].front(usize::from(to.0))
    }

    /// Takes the oldest message from one process to another, moved out and not copied; `None` exactly where
    /// none is on the way.
    pub fn take(&mut self, from: Proc, to: Proc) -> Option<Message>
        requires sender { from.0 < procs_of self.old }
        requires receiver { to.0 < procs_of self.old }
        ensures oldest { result ≡ first_of (link_of self.old from.0 to.0) }
        ensures taken { self.new ≡ taken self.old from.0 to.0 }
    {
        self.rows[usize::from(from.0)].pop(usize::from(to.0))
    }

    /// Empties the link from one process to another.
    pub fn close_from(&mut self, from: Proc, to: Proc)
        requires sender { from.0 < procs_of self.old }
        requires receiver { to.0 < procs_of self.old }
        ensures { self.new ≡ emptied self.old from.0 to.0 }
    {
        self.rows[usize::from(from.0)].clear(usize::from(to.0));
    }

    /// Empties all links to the process, and lets later sends to it vanish.
    pub fn close_to(&mut self, to: Proc)
        requires { to.0 < procs_of self.old }
        ensures { self.new ≡ closed_to self.old to.0 }
    {
        clear_column(&mut self.rows, usize::from(to.0));
        self.closed[usize::from(to.0)] = true;
    }
}

/// Empties the link from each process to one.
fn clear_column(rows: &mut Vec<Row>, to: usize)
    requires { All (λ row. to < length row) rows.old.items }
    ensures { rows.new.items ≡ map (λ row. slice_set row to []) rows.old.items }
{
    for from in 0..rows.len() {
        rows[from].clear(to);
    }
}
