ghost use Rattle.std.specs.Prelude.{◌≡◌, ◌≤◌};
ghost use Rattle.fx_script.specs.Canonical.{HasText};
ghost use Rattle.fx_check.specs.Acceptance.{IsAccepted};
ghost use Rattle.fx_check.specs.Parts.{KeepsByParts};
ghost use Rattle.fx_check.specs.Rules.{count_of, procs_of};
ghost use Rattle.fx_check.specs.Work.{bound_of, bound_with, work_of};

use fx_script::Job;
use std::marker::Model;

/// A job that is accepted: it keeps every rule.
#[derive(Debug, Drop)]
pub struct Accepted {
    job: Job,
    procs: u8,
    work: u32,
}

impl Model for Accepted {
    ghost use Rattle.fx_script.specs.contracts.job.Job as the_job;
    ghost use Rattle.fx_script.specs.declared.job.Job.{Job};
    ghost use Rattle.fx_check.specs.Holds.{Holds};

    ghost Value = { Job };

    ghost coded = { the_job.the_row.coded };

    ghost view = { λ a. a.job };

    ghost invariant = { λ a. Holds a.job a.procs a.work };
}

impl Accepted {
    /// An accepted job, with how many processes it has and how much work.
    pub(crate) fn new(job: Job, procs: u8, work: u32) -> Accepted
        requires accepted { IsAccepted job }
        requires has_text { HasText job }
        requires same_procs { procs ≡ procs_of job }
        requires same_work { work ≡ work_of job.body }
        ensures { result ≡ job }
    {
        Accepted { job, procs, work }
    }

    /// The job. It keeps every rule, as a whole and part by part, and some text spells it, its spots
    /// aside.
    pub fn job(&self) -> &Job
        ensures same { result.now ≡ self.now }
        ensures accepted { IsAccepted self.now }
        ensures by_parts { KeepsByParts self.now }
        ensures has_text { HasText self.now }
    {
        &self.job
    }

    /// How many processes there are: ranks and spares together, 1 to 16.
    pub fn procs(&self) -> u8
        ensures same { result ≡ procs_of self.now }
        ensures at_least { 1 ≤ result }
        ensures at_most { result ≤ 16 }
    {
        self.procs
    }

    /// How many ranks there are, 1 to 16.
    pub fn ranks(&self) -> u8
        ensures same { result ≡ count_of self.now.ranks }
        ensures at_least { 1 ≤ result }
        ensures at_most { result ≤ 16 }
    {
        self.job.ranks as u8
    }

    /// The work of the body, at most 20,000: a statement counts 1, and a loop its test and its
    /// statements for each turn that it may take.
    pub fn work(&self) -> u32
        ensures same { result ≡ work_of self.now.body }
        ensures at_most { result ≤ 20000 }
    {
        self.work
    }

    /// The bound for the fair rounds of a tail: with P processes and the work W, it is
    /// P * (2P + 2) * (W + 2) * (P + 8), at most 261,146,112.
    pub fn bound(&self) -> u64
        ensures same { result ≡ bound_of self.now }
        ensures at_most { result ≤ 261146112 }
    {
        bound_with(u64::from(self.procs()), u64::from(self.work()))
    }
}

fn bound_with(procs: u64, work: u64) -> u64
    requires procs_in { procs ≤ 16 }
    requires work_in { work ≤ 20000 }
    ensures same { result ≡ bound_with procs work }
    ensures at_most { result ≤ 261146112 }
{
    procs * (2 * procs + 2) * (work + 2) * (procs + 8)
}
