//! Laws of calm runs: no event is a kill.

ghost use Rattle.std.specs.Prelude.{◌≡◌, ℕ, true};
ghost use Rattle.std.specs.List.{list_all};
ghost use Rattle.fx_script.specs.declared.job.Job.{Job};
ghost use Rattle.fx_script.specs.Spelling.{IsWritable};
ghost use Rattle.fx_check.specs.Work.{bound_of};
ghost use Rattle.fx_walk.specs.Lengths.{is_plain};
ghost use Rattle.fx_fleet.specs.Rounds.{all_over, whole};
ghost use Rattle.fx_fleet.specs.Runs.{AsksNothing, job_setup, moments_of, rest_bound_of, journal_of};
ghost use Rattle.fx_legal.specs.Legal.{IsLegalWhole, AllHaveEnded};
ghost use Rattle.fx_calm.specs.Calm.{is_calm, IsPeaceful, HoldsAllVotes};

/// The journal of a calm run of a body that asks nothing is legal and tells the whole schedule, with any number of ranks and spares.
pub fn calm_journals_are_legal()
    ensures { (job : Job) → AsksNothing job → list_all is_calm (moments_of job) ≡ true → IsLegalWhole job (journal_of job) }
{}

/// Where each process has ended behind the tail of such a run, the journal shows an end of each; and where it shows that, each has ended.
pub fn calm_journals_show_all_ends()
    ensures once_over { (job : Job) → AsksNothing job → list_all is_calm (moments_of job) ≡ true
        → all_over (job_setup job) (whole (job_setup job) (rest_bound_of job) (bound_of job) (moments_of job)) ≡ true → AllHaveEnded job (journal_of job) }
    ensures only_then { (job : Job) → AsksNothing job → list_all is_calm (moments_of job) ≡ true
        → AllHaveEnded job (journal_of job) → all_over (job_setup job) (whole (job_setup job) (rest_bound_of job) (bound_of job) (moments_of job)) ≡ true }
{}

/// Behind the moments of a calm run and its tail, with any fuel and any bound, nobody was killed or is told lost, and nobody is past
/// the first epoch, in which all have the places that they had from the start.
pub fn calm_runs_keep_all()
    ensures { (job : Job) → AsksNothing job → list_all is_calm (moments_of job) ≡ true → (fuel bound : ℕ) → IsPeaceful job (whole (job_setup job) fuel bound (moments_of job)) }
{}

/// There too, what a process holds as an estimate in the ballot of the next epoch, and what it decides there, are the votes of all.
pub fn calm_ballots_hear_all()
    ensures { (job : Job) → AsksNothing job → list_all is_calm (moments_of job) ≡ true → (fuel bound : ℕ) → HoldsAllVotes job (whole (job_setup job) fuel bound (moments_of job)) }
{}

/// A body of statements that a rank carries out by itself asks nothing.
pub fn plain_bodies_ask_nothing()
    ensures { (job : Job) → IsWritable job → list_all is_plain job.body ≡ true → AsksNothing job }
{}
