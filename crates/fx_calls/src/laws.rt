//! Laws of runs with any events, kills and notices among them, of jobs whose body makes calls.

ghost use Rattle.std.specs.Prelude.{◌≡◌, ◌≤◌, ◌++◌, ℕ, true, List};
ghost use Rattle.std.specs.List.{filter, list_all};
ghost use Rattle.fx_script.specs.declared.job.Job.{Job};
ghost use Rattle.fx_check.specs.Acceptance.{IsAccepted};
ghost use Rattle.fx_check.specs.Work.{bound_of};
ghost use Rattle.fx_fleet.specs.Rounds.{is_of_journal, is_quiet, rests, all_happen, journal, Moment, all_over, whole};
ghost use Rattle.fx_fleet.specs.World.{first_world};
ghost use Rattle.fx_fleet.specs.Runs.{AsksNothing, job_setup, moments_of, rest_bound_of, journal_of};
ghost use Rattle.fx_legal.specs.Legal.{IsLegal, IsLegalWhole, AllHaveEnded};
ghost use Rattle.fx_script.specs.Spelling.{stmts_fit};
ghost use Rattle.fx_calls.specs.Bodies.{AsksNoGroups, is_groupless};
ghost use Rattle.fx_losses.specs.Losses.{EachEpochHasItsLoss, IsStill};

use fx_walk::laws::all_ranks_have_one_plan;

/// A body of statements that can be written, none of them on a data group, asks nothing of data groups; and so does a body that asks
/// nothing at all.
pub fn groupless_bodies_ask_no_groups()
    ensures statements { (job : Job) (room : ℕ) → stmts_fit job.body room ≡ true → list_all is_groupless job.body ≡ true → AsksNoGroups job }
    ensures nothing { (job : Job) → AsksNothing job → AsksNoGroups job }
{}

/// The journal of an accepted job whose body asks nothing of data groups is legal and tells the whole schedule,
/// whatever its events are; and so it is with any other fuel of a rest and any other bound of the tail. Behind a front of the schedule
/// what is written so far is legal.
pub fn journals_are_legal()
    ensures whole { (job : Job) → IsAccepted job → AsksNoGroups job → IsLegalWhole job (journal_of job) }
    ensures within { (job : Job) → IsAccepted job → AsksNoGroups job → (fuel bound : ℕ) → IsLegalWhole job (journal (job_setup job) fuel bound (moments_of job)) }
    ensures so_far { (job : Job) → IsAccepted job → AsksNoGroups job → (fuel : ℕ) (front more : List Moment) → moments_of job ≡ front ++ more
        → IsLegal job (filter is_of_journal (all_happen (job_setup job) fuel front (first_world (job_setup job))).items) }
{
    all_ranks_have_one_plan();
}

/// Where each process that wasn't killed has ended behind the tail of such a run, the journal shows an end or a kill of each; and where
/// it shows that, each has ended.
pub fn journals_show_all_ends()
    ensures once_over { (job : Job) → IsAccepted job → AsksNoGroups job
        → all_over (job_setup job) (whole (job_setup job) (rest_bound_of job) (bound_of job) (moments_of job)) ≡ true → AllHaveEnded job (journal_of job) }
    ensures only_then { (job : Job) → IsAccepted job → AsksNoGroups job
        → AllHaveEnded job (journal_of job) → all_over (job_setup job) (whole (job_setup job) (rest_bound_of job) (bound_of job) (moments_of job)) ≡ true }
{
    all_ranks_have_one_plan();
}

/// Each epoch of the journal of an accepted job whose body asks nothing of data groups has its loss, whatever its events are:
/// before it is repaired, a process that had a place in the epoch before it was killed, from epoch 2 on.
pub fn each_epoch_has_its_loss()
    ensures { (job : Job) → IsAccepted job → AsksNoGroups job → EachEpochHasItsLoss job (journal_of job) }
{
    all_ranks_have_one_plan();
}

/// Each process ends where the body asks nothing of data groups, whatever the events are: behind the tail each that wasn't killed has
/// ended, and the journal shows an end or a kill of each. Any fuel of a rest but none is enough for that, and any bound from that of the
/// job on.
pub fn all_processes_end()
    ensures over { (job : Job) → IsAccepted job → AsksNoGroups job
        → all_over (job_setup job) (whole (job_setup job) (rest_bound_of job) (bound_of job) (moments_of job)) ≡ true }
    ensures within { (job : Job) → IsAccepted job → AsksNoGroups job → (fuel : ℕ) → 1 ≤ fuel → (bound : ℕ) → bound_of job ≤ bound
        → all_over (job_setup job) (whole (job_setup job) fuel bound (moments_of job)) ≡ true }
    ensures shown { (job : Job) → IsAccepted job → AsksNoGroups job → AllHaveEnded job (journal_of job) }
{
    all_ranks_have_one_plan();
}

/// The steps of a rest are enough where the body asks nothing of data groups: behind each front of the schedule a rest of that many
/// leaves its process quiet, and in the whole run more of them would change nothing.
pub fn rests_come_to_rest()
    ensures quiet { (job : Job) → IsAccepted job → AsksNoGroups job → (fuel : ℕ) (front more : List Moment) → moments_of job ≡ front ++ more → (p : ℕ)
        → is_quiet (job_setup job) p (rests (job_setup job) (rest_bound_of job) p (all_happen (job_setup job) fuel front (first_world (job_setup job)))) ≡ true }
    ensures more { (job : Job) → IsAccepted job → AsksNoGroups job → (fuel : ℕ) → rest_bound_of job ≤ fuel → (bound : ℕ)
        → whole (job_setup job) fuel bound (moments_of job) ≡ whole (job_setup job) (rest_bound_of job) bound (moments_of job) }
{
    all_ranks_have_one_plan();
}

/// No processes wait for one another for ever where the body asks nothing of data groups: where nothing is under way in the world of
/// such a run, all losses are told and no action is enabled, each process that wasn't killed has ended.
pub fn still_worlds_are_over()
    ensures { (job : Job) → IsAccepted job → AsksNoGroups job → (fuel bound : ℕ) → IsStill (job_setup job) (whole (job_setup job) fuel bound (moments_of job))
        → all_over (job_setup job) (whole (job_setup job) fuel bound (moments_of job)) ≡ true }
{
    all_ranks_have_one_plan();
}
