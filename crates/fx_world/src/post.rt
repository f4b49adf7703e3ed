ghost use Rattle.std.specs.Prelude.{◌≡◌, ◌<◌, ◌&&◌, ℕ, Bool, not, All, None, Some, IfOk, IfSome, OnOk, is_none};
ghost use Rattle.fx_fleet.specs.Runs.{job_setup};
ghost use Rattle.fx_node.specs.Asking.{AsksCarried};
ghost use Rattle.fx_machine.specs.Messages.{wire_text};
ghost use Rattle.fx_machine.specs.Nodes as defined;
ghost use Rattle.fx_machine.specs.Nodes.{has_ended, is_told, receives};
ghost use Rattle.fx_machine.specs.Steps.{next};
ghost use Rattle.fx_node.specs.Standing.{IsNodeOf, processes};
ghost use Rattle.fx_node.specs.Stepping.{Steps};
ghost use Rattle.fx_script.specs.declared.job.Job.{Job};
ghost use Rattle.fx_world.specs.Standings.{IsOneOf, IsPost, Passes};

use fx_base::{Bytes, Elems, NoMemory, Proc};
use fx_item::Items;
use fx_link::Message;
use fx_node::{Moved, Node, Outbox};
use std::marker::Model;

/// The place of a process: the process as it runs, and nothing once it was killed.
#[derive(Debug, Drop)]
pub(crate) struct Post {
    node: Option<Node>,
}

impl Model for Post {
    ghost use Rattle.std.specs.Prelude.{Option};
    ghost use Rattle.std.specs.Coded.{coded_option};
    ghost use Rattle.fx_node.specs.Codes.{standing_code};
    ghost use Rattle.fx_node.specs.Standing.{Standing};

    ghost Value = { Option Standing };

    ghost coded = { coded_option standing_code };

    ghost view = { λ p. p.node };
}

impl Post {
    /// The place of a process that runs.
    pub(crate) fn new(node: Node) -> Post
        ensures { result ≡ Some node }
    {
        Post { node: Some(node) }
    }

    /// Whether the process was killed.
    pub(crate) fn is_killed(&self) -> bool
        ensures { result ≡ is_none self.now }
    {
        self.node.is_none()
    }

    /// Whether the process lives and hasn't ended.
    pub(crate) fn is_up(&self) -> bool
        ensures { (job : Job) (killed : Bool) (n : defined.Node) → IsPost job self.now killed n → result ≡ (not killed && not (has_ended n)) }
    {
        match &self.node {
            Some(node) => !node.has_ended(),
            None => false,
        }
    }

    /// Whether the process was told of another's loss; `false` where it was killed.
    pub(crate) fn has_lost(&self, who: Proc) -> bool
        requires { IfSome self.now (λ c. who.0 < processes c) }
        ensures { IfSome self.now (λ c. (job : Job) (n : defined.Node) → IsNodeOf job c n → result ≡ n.lost who.0) }
    {
        match &self.node {
            Some(node) => node.has_lost(who),
            None => false,
        }
    }

    /// The process takes a step, and what it sends and writes is added. One that was killed has none.
    pub(crate) fn step(&mut self, sends: &mut Outbox, items: &mut Items) -> Result<Moved, NoMemory>
        ensures steps { IfOk result (λ moved. Passes self.old self.new (λ c c'. (job : Job) (n : defined.Node) → AsksCarried job → IsNodeOf job c n
            → Steps job n (next (job_setup job) n) moved c' sends.old sends.new items.old items.new)) }
        ensures to_processes { OnOk result ((procs : ℕ) → IsOneOf procs self.old → (All (λ x. x.0.0 < procs) sends.old) → All (λ x. x.0.0 < procs) sends.new) }
        ensures of_all { (procs : ℕ) → IsOneOf procs self.old → IsOneOf procs self.new }
    {
        let Some(node) = &mut self.node else {
            return Ok(Moved::Ended);
        };
        node.step(sends, items)
    }

    /// The process takes back what a print of it told. One that was killed takes nothing.
    pub(crate) fn give_back(&mut self, name: Bytes, values: Elems)
        ensures { self.new ≡ self.old }
    {
        if let Some(node) = &mut self.node {
            node.give_back(name, values);
        }
    }

    /// A message comes to the process. It is dropped where the process was killed.
    pub(crate) fn receive(&mut self, from: Proc, message: Message) -> Result<(), NoMemory>
        requires { IfSome self.old (λ c. from.0 < processes c) }
        ensures receives { OnOk result (Passes self.old self.new (λ c c'. (job : Job) (n : defined.Node) → IsNodeOf job c n
            → IsNodeOf job c' (receives from.0 (wire_text message) n))) }
        ensures of_all { (procs : ℕ) → IsOneOf procs self.old → IsOneOf procs self.new }
    {
        match &mut self.node {
            Some(node) => node.receive(from, message),
            None => Ok(()),
        }
    }

    /// The process is told of another's loss, if it wasn't killed.
    pub(crate) fn notice(&mut self, who: Proc)
        requires { IfSome self.old (λ c. who.0 < processes c) }
        ensures learns { Passes self.old self.new (λ c c'. (job : Job) (n : defined.Node) → IsNodeOf job c n → IsNodeOf job c' (is_told who.0 n)) }
        ensures of_all { (procs : ℕ) → IsOneOf procs self.old → IsOneOf procs self.new }
    {
        if let Some(node) = &mut self.node {
            node.notice(who);
        }
    }

    /// The process is killed: all that it kept goes.
    pub(crate) fn clear(&mut self)
        ensures { self.new ≡ None }
    {
        self.node = None;
    }
}
