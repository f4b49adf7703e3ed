ghost use Rattle.std.specs.Prelude.{◌≡◌, ◌<◌, ◌≤◌, ◌∷◌, ◌++◌, ◌&&◌, ◌||◌, [], ◌↔◌, All, Bool, Err, IfOk, IsTrue, OnOk, false, map, not, true};
ghost use Rattle.fx_check.specs.Rules.{procs_of};
ghost use Rattle.fx_fleet.specs.Rounds.{all_over, is_quiet};
ghost use Rattle.fx_fleet.specs.Runs.{job_setup, rest_bound};
ghost use Rattle.fx_fleet.specs.World as defined;
ghost use Rattle.fx_fleet.specs.World.{first_world, may_learn, up};
ghost use Rattle.fx_io.specs.Writing.{Puts};
ghost use Rattle.fx_link.specs.LinkTable.{sent, taken};
ghost use Rattle.fx_machine.specs.Nodes.{Node as NodeValue, has_ended};
ghost use Rattle.fx_node.specs.Asking.{AsksCarried};
ghost use Rattle.fx_sched.specs.Moments.{IsAmong};
ghost use Rattle.fx_script.specs.declared.job.Job.{Job};
ghost use Rattle.fx_world.specs.Counting.{counted, no_counts};
ghost use Rattle.fx_world.specs.Goes.{Goes, GoesWhole, IsForEver, at_all, at_moment, delivering, draining, in_round, in_rounds, in_run, in_tail, in_turn, killing, learning, noticing, receiving, resting, stepping};
ghost use Rattle.fx_world.specs.Sends.{links_behind, sent_all, sent_item};
ghost use Rattle.fx_world.specs.Standings.{IsOfSame, IsPost, IsWorldOf, post_of};
ghost use Rattle.fx_world.specs.Texts.{shown_text};
ghost use Rattle.fx_world.specs.declared.end.RunEnd.TheVariants as RunEnd;

use crate::counts::Counts;
use crate::end::RunEnd;
use crate::post::Post;
use crate::shown::Shown;
use crate::teller::Teller;
use fx_base::{NoMemory, Proc};
use fx_check::Accepted;
use fx_flow::Flow;
use fx_io::{PutEnd, Sink};
use fx_item::{Item, Items};
use fx_link::{Links, Message};
use fx_node::{Moved, Node, Outbox};
use fx_sched::{Moment, Moments};
use std::alloc::Global;
use std::marker::Model;
use std::mem;

/// All processes of a job, what is under way between them, and the counts of all that was told. Each process that is handed in,
/// also in a moment, is below the number of processes of the job.
///
/// What is promised of a call holds of jobs whose bodies ask nothing of others but barriers, reductions, shifts and
/// agreements; each call on any job returns. After `WriteFault` nothing more is known of the world, and each later call still returns one of its answers.
/// After `NoMemory` every later call answers that, and does nothing.
#[derive(Debug, Drop)]
pub struct World {
    alloc: Global,
    procs: u8,
    fuel: u64,
    posts: Vec<Post>,
    links: Links,
    teller: Teller,
    items: Items,
    failed: bool,
}

impl Model for World {
    ghost use Rattle.fx_world.specs.Codes.{standings_code};
    ghost use Rattle.fx_world.specs.Standings.{IsSound, Standings};

    ghost Value = { Standings };

    ghost coded = { standings_code };

    ghost view = { λ w. record {
      procs = w.procs;
      fuel = w.fuel;
      posts = w.posts.items;
      links = w.links;
      counts = w.teller;
      failed = w.failed;
    } };

    ghost invariant = { λ w. IsSound (record {
      procs = w.procs;
      fuel = w.fuel;
      posts = w.posts.items;
      links = w.links;
      counts = w.teller;
      failed = w.failed;
    }) };
}

impl World {
    /// The processes of an accepted job, none of which has done anything.
    pub fn new(alloc: Global, job: &Accepted) -> Result<World, NoMemory>
        ensures begins { IfOk result (λ world. IsWorldOf job.now world (first_world (job_setup job.now))) }
        ensures of_all { IfOk result (λ world. world.procs ≡ procs_of job.now) }
        ensures counts { IfOk result (λ world. world.counts ≡ no_counts) }
        ensures well { IfOk result (λ world. world.failed ≡ false) }
    {
        let procs = job.procs();
        let flow = Flow::new(alloc, job)?;
        let mut posts = Vec::new(alloc);
        for process in 0..procs {
            posts.push(Post::new(Node::new(alloc, job, &flow, Proc(process))?))?;
        }
        Ok(World {
            alloc,
            procs,
            fuel: rest_bound(u64::from(procs), u64::from(job.work())),
            posts,
            links: Links::new(alloc, procs)?,
            teller: Teller::new(alloc),
            items: Items::new(alloc),
            failed: false,
        })
    }

    /// What the moment says happens, and its lines are written. Where its condition doesn't hold nothing happens.
    pub fn apply<K: Sink>(
        &mut self,
        moment: Moment,
        shown: Shown,
        sink: &mut K,
    ) -> Result<(), RunEnd>
        requires { IsAmong self.old.procs moment }
        ensures goes { Goes _ self.old self.new shown (K.state sink.old) (K.state sink.new) (at_moment moment) result }
        ensures for_ever { IsForEver _ self.old self.new (K.state sink.old) (K.state sink.new) result }
        ensures of_all { IsOfSame self.old self.new }
    {
        if self.failed {
            return Err(RunEnd::NoMemory);
        }
        let end = self.happen(moment, shown, sink);
        self.failed = is_out_of_memory(&end);
        end
    }

    /// One fair round: in rising number each process that is up receives all that is under way to it, is told of each loss,
    /// and then takes steps until it is quiet, at most (2P + 2) * (W + 2) * (P + 8) of them with P processes and the work W.
    pub fn round<K: Sink>(&mut self, shown: Shown, sink: &mut K) -> Result<(), RunEnd>
        ensures goes { Goes _ self.old self.new shown (K.state sink.old) (K.state sink.new) in_round result }
        ensures for_ever { IsForEver _ self.old self.new (K.state sink.old) (K.state sink.new) result }
        ensures of_all { IsOfSame self.old self.new }
    {
        if self.failed {
            return Err(RunEnd::NoMemory);
        }
        let end = self.go_round(shown, sink);
        self.failed = is_out_of_memory(&end);
        end
    }

    /// The moments of a schedule, one after another, and then fair rounds until each living process has ended, at most `bound`.
    /// The counts are those of all that happened since the world was made. `Unfinished` says that so many rounds weren't
    /// enough; all lines so far were written then.
    pub fn run_all<K: Sink>(
        &mut self,
        moments: &Moments,
        bound: u64,
        shown: Shown,
        sink: &mut K,
    ) -> Result<Counts, RunEnd>
        requires { All (IsAmong self.old.procs) moments.now }
        ensures goes { GoesWhole self.old self.new shown (K.state sink.old) (K.state sink.new) (in_run moments.now bound) result }
        ensures of_all { IsOfSame self.old self.new }
        ensures for_ever { IsForEver _ self.old self.new (K.state sink.old) (K.state sink.new) result }
    {
        if self.failed {
            return Err(RunEnd::NoMemory);
        }
        self.apply_all(moments.as_slice(), shown, sink)?;
        self.run_tail(bound, shown, sink)?;
        if !self.is_over() {
            return Err(RunEnd::Unfinished);
        }
        Ok(self.teller.counts())
    }

    fn apply_all<K: Sink>(
        &mut self,
        moments: &[Moment],
        shown: Shown,
        sink: &mut K,
    ) -> Result<(), RunEnd>
        requires { All (IsAmong self.old.procs) moments.now }
        ensures goes { Goes _ self.old self.new shown (K.state sink.old) (K.state sink.new) (at_all moments.now) result }
        ensures begins { result ≡ Err RunEnd.NoMemory → self.new.failed ≡ true }
        ensures of_all { IsOfSame self.old self.new }
    {
        for moment in moments {
            self.apply(*moment, shown, sink)?;
        }
        Ok(())
    }

    // Fair rounds until each living process has ended, at most so many.
    fn run_tail<K: Sink>(&mut self, bound: u64, shown: Shown, sink: &mut K) -> Result<(), RunEnd>
        ensures goes { Goes _ self.old self.new shown (K.state sink.old) (K.state sink.new) (in_tail bound) result }
        ensures begins { result ≡ Err RunEnd.NoMemory → self.new.failed ≡ true }
        ensures of_all { IsOfSame self.old self.new }
    {
        for _ in 0..bound {
            if self.is_over() {
                return Ok(());
            }
            self.round(shown, sink)?;
        }
        Ok(())
    }

    // Whether each living process has ended.
    fn is_over(&self) -> bool
        ensures { (job : Job) (w : defined.World) → IsWorldOf job self.now w → result ≡ all_over (job_setup job) w }
    {
        for post in &self.posts {
            if post.is_up() {
                return false;
            }
        }
        true
    }

    // Whether the process lives and hasn't ended.
    fn is_up(&self, p: Proc) -> bool
        requires { p.0 < self.now.procs }
        ensures stands { (job : Job) (killed : Bool) (n : NodeValue) → IsPost job (post_of self.now p.0) killed n → result ≡ (not killed && not (has_ended n)) }
        ensures world { (job : Job) (w : defined.World) → IsWorldOf job self.now w → result ≡ up (job_setup job) w p.0 }
    {
        self.posts[usize::from(p.0)].is_up()
    }

    fn happen<K: Sink>(&mut self, moment: Moment, shown: Shown, sink: &mut K) -> Result<(), RunEnd>
        requires { IsAmong self.old.procs moment }
        ensures goes { Goes _ self.old self.new shown (K.state sink.old) (K.state sink.new) (at_moment moment) result }
        ensures of_all { IsOfSame self.old self.new }
    {
        match moment {
            Moment::Step(p) => {
                self.step(p, shown, sink)?;
                Ok(())
            }
            Moment::Rest(p) => self.rest(p, shown, sink),
            Moment::Deliver(p, q) => self.deliver(p, q, shown, sink),
            Moment::Kill(p) => self.kill(p, shown, sink),
            Moment::Notice(p, q) => self.tell_loss(p, q, shown, sink),
            Moment::Run(count) => self.go_rounds(count, shown, sink),
        }
    }

    fn go_rounds<K: Sink>(&mut self, count: u32, shown: Shown, sink: &mut K) -> Result<(), RunEnd>
        ensures goes { Goes _ self.old self.new shown (K.state sink.old) (K.state sink.new) (in_rounds count) result }
        ensures of_all { IsOfSame self.old self.new }
    {
        for _ in 0..count {
            self.go_round(shown, sink)?;
        }
        Ok(())
    }

    fn go_round<K: Sink>(&mut self, shown: Shown, sink: &mut K) -> Result<(), RunEnd>
        ensures goes { Goes _ self.old self.new shown (K.state sink.old) (K.state sink.new) in_round result }
        ensures of_all { IsOfSame self.old self.new }
    {
        for process in 0..self.procs {
            self.take_turn(Proc(process), shown, sink)?;
        }
        Ok(())
    }

    // The turn of a process in a fair round.
    fn take_turn<K: Sink>(&mut self, q: Proc, shown: Shown, sink: &mut K) -> Result<(), RunEnd>
        requires { q.0 < self.old.procs }
        ensures goes { Goes _ self.old self.new shown (K.state sink.old) (K.state sink.new) (in_turn q.0) result }
        ensures of_all { IsOfSame self.old self.new }
    {
        if !self.is_up(q) {
            return Ok(());
        }
        self.receive_all(q, shown, sink)?;
        self.learn_all(q, shown, sink)?;
        self.rest(q, shown, sink)
    }

    // All that is under way to a process is received, but for what it sent to itself.
    fn receive_all<K: Sink>(&mut self, q: Proc, shown: Shown, sink: &mut K) -> Result<(), RunEnd>
        requires { q.0 < self.old.procs }
        ensures goes { Goes _ self.old self.new shown (K.state sink.old) (K.state sink.new) (receiving q.0) result }
        ensures of_all { IsOfSame self.old self.new }
    {
        for process in 0..self.procs {
            if process != q.0 {
                self.drain(Proc(process), q, shown, sink)?;
            }
        }
        Ok(())
    }

    // A process is told of each loss.
    fn learn_all<K: Sink>(&mut self, q: Proc, shown: Shown, sink: &mut K) -> Result<(), RunEnd>
        requires { q.0 < self.old.procs }
        ensures goes { Goes _ self.old self.new shown (K.state sink.old) (K.state sink.new) (learning q.0) result }
        ensures of_all { IsOfSame self.old self.new }
    {
        for process in 0..self.procs {
            self.tell_loss(Proc(process), q, shown, sink)?;
        }
        Ok(())
    }

    // All that is under way from one process to another is received.
    fn drain<K: Sink>(&mut self, p: Proc, q: Proc, shown: Shown, sink: &mut K) -> Result<(), RunEnd>
        requires sender { p.0 < self.old.procs }
        requires receiver { q.0 < self.old.procs }
        ensures goes { Goes _ self.old self.new shown (K.state sink.old) (K.state sink.new) (draining p.0 q.0) result }
        ensures of_all { IsOfSame self.old self.new }
    {
        while self.links.front(p, q).is_some() {
            self.deliver(p, q, shown, sink)?;
        }
        Ok(())
    }

    // The oldest message from one process to another is received. Nothing is under way to a process that isn't up.
    fn deliver<K: Sink>(
        &mut self,
        p: Proc,
        q: Proc,
        shown: Shown,
        sink: &mut K,
    ) -> Result<(), RunEnd>
        requires sender { p.0 < self.old.procs }
        requires receiver { q.0 < self.old.procs }
        ensures goes { Goes _ self.old self.new shown (K.state sink.old) (K.state sink.new) (delivering p.0 q.0) result }
        ensures taken { self.new.links ≡ taken self.old.links p.0 q.0 }
        ensures of_all { IsOfSame self.old self.new }
    {
        let Some(message) = self.links.take(p, q) else {
            return Ok(());
        };
        self.teller.tell_delivery(p, q, &message, shown, sink)?;
        Ok(self.posts[usize::from(q.0)].receive(p, message)?)
    }

    // A process is killed, if it is up: what it kept goes, and what is under way to it.
    fn kill<K: Sink>(&mut self, p: Proc, shown: Shown, sink: &mut K) -> Result<(), RunEnd>
        requires { p.0 < self.old.procs }
        ensures goes { Goes _ self.old self.new shown (K.state sink.old) (K.state sink.new) (killing p.0) result }
        ensures of_all { IsOfSame self.old self.new }
    {
        if !self.is_up(p) {
            return Ok(());
        }
        self.teller.tell(&Item::Kill { p }, shown, sink)?;
        self.links.close_to(p);
        self.posts[usize::from(p.0)].clear();
        Ok(())
    }

    // A process is told that another is lost, if that was killed and it is up and wasn't told before.
    fn tell_loss<K: Sink>(
        &mut self,
        p: Proc,
        q: Proc,
        shown: Shown,
        sink: &mut K,
    ) -> Result<(), RunEnd>
        requires lost { p.0 < self.old.procs }
        requires told { q.0 < self.old.procs }
        ensures goes { Goes _ self.old self.new shown (K.state sink.old) (K.state sink.new) (noticing p.0 q.0) result }
        ensures of_all { IsOfSame self.old self.new }
    {
        if self.may_learn(p, q) {
            self.learn(p, q, shown, sink)
        } else {
            Ok(())
        }
    }

    // A process is told that another is lost, which was killed.
    fn learn<K: Sink>(&mut self, p: Proc, q: Proc, shown: Shown, sink: &mut K) -> Result<(), RunEnd>
        requires lost { p.0 < self.old.procs }
        requires told { q.0 < self.old.procs }
        requires may { (job : Job) (w : defined.World) → IsWorldOf job self.old w → may_learn (job_setup job) p.0 q.0 w ≡ true }
        ensures goes { Goes _ self.old self.new shown (K.state sink.old) (K.state sink.new) (noticing p.0 q.0) result }
        ensures of_all { IsOfSame self.old self.new }
    {
        self.teller.tell(&Item::Told { p, q }, shown, sink)?;
        self.links.close_from(p, q);
        self.posts[usize::from(q.0)].notice(p);
        Ok(())
    }

    // Whether a process was killed, and another is up and wasn't told of it.
    fn may_learn(&self, p: Proc, q: Proc) -> bool
        requires lost { p.0 < self.now.procs }
        requires told { q.0 < self.now.procs }
        ensures { (job : Job) (w : defined.World) → IsWorldOf job self.now w → result ≡ may_learn (job_setup job) p.0 q.0 w }
    {
        self.posts[usize::from(p.0)].is_killed()
            && self.is_up(q)
            && !self.posts[usize::from(q.0)].has_lost(p)
    }

    // A process takes steps until it is quiet.
    fn rest<K: Sink>(&mut self, p: Proc, shown: Shown, sink: &mut K) -> Result<(), RunEnd>
        requires { p.0 < self.old.procs }
        ensures goes { Goes _ self.old self.new shown (K.state sink.old) (K.state sink.new) (resting p.0) result }
        ensures of_all { IsOfSame self.old self.new }
    {
        for _ in 0..self.fuel {
            if !self.step(p, shown, sink)? {
                return Ok(());
            }
        }
        Ok(())
    }

    // A process takes a step, if it is up; answers whether an action was enabled.
    fn step<K: Sink>(&mut self, p: Proc, shown: Shown, sink: &mut K) -> Result<bool, RunEnd>
        requires { p.0 < self.old.procs }
        ensures goes { Goes _ self.old self.new shown (K.state sink.old) (K.state sink.new) (stepping p.0) result }
        ensures acts { IfOk result (λ acted. (job : Job) (w : defined.World) → AsksCarried job → IsWorldOf job self.old w → acted ≡ not (is_quiet (job_setup job) p.0 w)) }
        ensures of_all { IsOfSame self.old self.new }
    {
        if !self.is_up(p) {
            return Ok(false);
        }
        self.take_step(p, shown, sink)
    }

    // A process that is up takes a step.
    fn take_step<K: Sink>(&mut self, p: Proc, shown: Shown, sink: &mut K) -> Result<bool, RunEnd>
        requires there { p.0 < self.old.procs }
        requires is_up { (job : Job) (w : defined.World) → IsWorldOf job self.old w → up (job_setup job) w p.0 ≡ true }
        ensures goes { Goes _ self.old self.new shown (K.state sink.old) (K.state sink.new) (stepping p.0) result }
        ensures acts { IfOk result (λ acted. (job : Job) (w : defined.World) → AsksCarried job → IsWorldOf job self.old w → acted ≡ not (is_quiet (job_setup job) p.0 w)) }
        ensures of_all { IsOfSame self.old self.new }
    {
        let mut sends = Outbox::new(self.alloc);
        self.items.clear();
        match self.posts[usize::from(p.0)].step(&mut sends, &mut self.items)? {
            Moved::Acted => {
                let mut items = mem::replace(&mut self.items, Items::new(self.alloc));
                self.carry_out(p, items.as_slice(), sends, shown, sink)?;
                self.give_back(p, &mut items);
                self.items = items;
                Ok(true)
            }
            Moved::Quiet | Moved::Ended => Ok(false),
        }
    }

    // What the last item told goes back to the process, if it was a print.
    fn give_back(&mut self, p: Proc, items: &mut Items)
        requires { p.0 < self.old.procs }
        ensures { self.new ≡ self.old }
    {
        if let Some(Item::Print { name, list, .. }) = items.pop() {
            self.posts[usize::from(p.0)].give_back(name, list);
        }
    }

    // What a step writes and sends: its items are told first, then its sends, which go on the links.
    fn carry_out<K: Sink>(
        &mut self,
        p: Proc,
        items: &[Item],
        sends: Outbox,
        shown: Shown,
        sink: &mut K,
    ) -> Result<(), PutEnd>
        requires sender { p.0 < self.old.procs }
        requires receivers { All (λ x. x.0.0 < self.old.procs) sends }
        ensures writes { Puts (K.state sink.old) (K.state sink.new) (shown_text shown (items.now ++ map (sent_item p) sends)) result }
        ensures counts { OnOk result (self.new.counts ≡ counted self.old.counts (items.now ++ map (sent_item p) sends)) }
        ensures links { OnOk result ((job : Job) (killed : Bool) (n : NodeValue) → IsPost job (post_of self.old p.0) killed n
            → self.new ≡ record self.old { links = links_behind p.0 (killed || has_ended n) (sent_all p.0 sends self.old.links); counts = self.new.counts }) }
        ensures of_all { IsOfSame self.old self.new }
    {
        self.teller.tell_all(items, shown, sink)?;
        self.send_all(p, sends, shown, sink)?;
        self.close_if_ended(p);
        Ok(())
    }

    // Nothing goes to a process that has ended.
    fn close_if_ended(&mut self, p: Proc)
        requires { p.0 < self.old.procs }
        ensures closes { (job : Job) (killed : Bool) (n : NodeValue) → IsPost job (post_of self.old p.0) killed n → self.new ≡ record self.old { links = links_behind p.0 (killed || has_ended n) self.old.links } }
        ensures counts { self.new.counts ≡ self.old.counts }
        ensures of_all { IsOfSame self.old self.new }
    {
        if !self.is_up(p) {
            self.links.close_to(p);
        }
    }

    // What a process sends is told and goes on the links.
    fn send_all<K: Sink>(
        &mut self,
        p: Proc,
        sends: Outbox,
        shown: Shown,
        sink: &mut K,
    ) -> Result<(), PutEnd>
        requires sender { p.0 < self.old.procs }
        requires receivers { All (λ x. x.0.0 < self.old.procs) sends }
        ensures sends { OnOk result (self.new ≡ record self.old { links = sent_all p.0 sends self.old.links; counts = counted self.old.counts (map (sent_item p) sends) }) }
        ensures writes { Puts (K.state sink.old) (K.state sink.new) (shown_text shown (map (sent_item p) sends)) result }
        ensures of_all { IsOfSame self.old self.new }
    {
        if sends.is_empty() {
            return Ok(());
        }
        for (q, message) in sends.into_items() {
            self.send(p, q, message, shown, sink)?;
        }
        Ok(())
    }

    fn send<K: Sink>(
        &mut self,
        p: Proc,
        q: Proc,
        message: Message,
        shown: Shown,
        sink: &mut K,
    ) -> Result<(), PutEnd>
        requires sender { p.0 < self.old.procs }
        requires receiver { q.0 < self.old.procs }
        ensures sends { OnOk result (self.new ≡ record self.old { links = sent self.old.links p.0 q.0 message; counts = counted self.old.counts (sent_item p (q, message) ∷ []) }) }
        ensures writes { Puts (K.state sink.old) (K.state sink.new) (shown_text shown (sent_item p (q, message) ∷ [])) result }
        ensures of_all { IsOfSame self.old self.new }
    {
        self.teller.tell_send(p, q, &message, shown, sink)?;
        Ok(self.links.send(p, q, message)?)
    }
}

// So many steps are enough for a rest, with so many processes and so much work of the body.
fn rest_bound(procs: u64, work: u64) -> u64
    requires procs_in { procs ≤ 32 }
    requires work_in { work ≤ 20000 }
    ensures { result ≡ rest_bound procs work }
{
    (2 * procs + 2) * (work + 2) * (procs + 8)
}

fn is_out_of_memory(end: &Result<(), RunEnd>) -> bool
    ensures { IsTrue result ↔ (end.now ≡ Err RunEnd.NoMemory) }
{
    matches!(end, Err(RunEnd::NoMemory))
}
