//! Laws of runs with any events, kills and notices among them.

ghost use Rattle.std.specs.Prelude.{◌≡◌, ◌≤◌, ◌++◌, ℕ, true, List};
ghost use Rattle.std.specs.List.{filter};
ghost use Rattle.fx_script.specs.declared.job.Job.{Job};
ghost use Rattle.fx_check.specs.Acceptance.{IsAccepted};
ghost use Rattle.fx_check.specs.Work.{bound_of};
ghost use Rattle.fx_machine.specs.Setup.{Setup};
ghost use Rattle.fx_item.specs.declared.item.Item.{Item};
ghost use Rattle.fx_fleet.specs.Rounds.{is_of_journal, is_quiet, rests, all_happen, journal, Moment, all_over, whole};
ghost use Rattle.fx_fleet.specs.World.{first_world};
ghost use Rattle.fx_fleet.specs.Runs.{AsksNothing, job_setup, moments_of, rest_bound_of, journal_of};
ghost use Rattle.fx_legal.specs.Legal.{IsLegal, IsLegalWhole, ledger_of, AllHaveEnded};
ghost use Rattle.fx_losses.specs.Losses.{EachEpochHasItsLoss, EpochsAreSized, EpochsAgree, IsStill};

/// The journal of an accepted job whose body asks nothing is legal and tells the whole schedule, whatever its events are; and so it is with
/// any other fuel of a rest and any other bound of the tail. Behind a front of the schedule what is written so far is legal.
pub fn journals_are_legal()
    ensures whole { (job : Job) → IsAccepted job → AsksNothing job → IsLegalWhole job (journal_of job) }
    ensures within { (job : Job) → IsAccepted job → AsksNothing job → (fuel bound : ℕ) → IsLegalWhole job (journal (job_setup job) fuel bound (moments_of job)) }
    ensures so_far { (job : Job) → IsAccepted job → AsksNothing job → (fuel : ℕ) (front more : List Moment) → moments_of job ≡ front ++ more
        → IsLegal job (filter is_of_journal (all_happen (job_setup job) fuel front (first_world (job_setup job))).items) }
{}

/// Where each process that wasn't killed has ended behind the tail of such a run, the journal shows an end or a kill of each; and where
/// it shows that, each has ended.
pub fn journals_show_all_ends()
    ensures once_over { (job : Job) → IsAccepted job → AsksNothing job
        → all_over (job_setup job) (whole (job_setup job) (rest_bound_of job) (bound_of job) (moments_of job)) ≡ true → AllHaveEnded job (journal_of job) }
    ensures only_then { (job : Job) → IsAccepted job → AsksNothing job
        → AllHaveEnded job (journal_of job) → all_over (job_setup job) (whole (job_setup job) (rest_bound_of job) (bound_of job) (moments_of job)) ≡ true }
{}

/// Each epoch of such a journal has its loss: before it is repaired, a process that had a place in the epoch before it was killed, from epoch 2 on.
pub fn each_epoch_has_its_loss()
    ensures { (job : Job) → IsAccepted job → AsksNothing job → EachEpochHasItsLoss job (journal_of job) }
{}

/// Each process ends, whatever the events are: behind the tail each that wasn't killed has ended, and the journal shows an end or a kill of
/// each. Any fuel of a rest but none is enough for that, and any bound from that of the job on.
pub fn all_processes_end()
    ensures over { (job : Job) → IsAccepted job → AsksNothing job
        → all_over (job_setup job) (whole (job_setup job) (rest_bound_of job) (bound_of job) (moments_of job)) ≡ true }
    ensures within { (job : Job) → IsAccepted job → AsksNothing job → (fuel : ℕ) → 1 ≤ fuel → (bound : ℕ) → bound_of job ≤ bound
        → all_over (job_setup job) (whole (job_setup job) fuel bound (moments_of job)) ≡ true }
    ensures shown { (job : Job) → IsAccepted job → AsksNothing job → AllHaveEnded job (journal_of job) }
{}

/// The steps of a rest are enough: behind each front of the schedule a rest of that many leaves its process quiet, and in the whole run more
/// of them would change nothing.
pub fn rests_come_to_rest()
    ensures quiet { (job : Job) → IsAccepted job → AsksNothing job → (fuel : ℕ) (front more : List Moment) → moments_of job ≡ front ++ more → (p : ℕ)
        → is_quiet (job_setup job) p (rests (job_setup job) (rest_bound_of job) p (all_happen (job_setup job) fuel front (first_world (job_setup job)))) ≡ true }
    ensures more { (job : Job) → IsAccepted job → AsksNothing job → (fuel : ℕ) → rest_bound_of job ≤ fuel → (bound : ℕ)
        → whole (job_setup job) fuel bound (moments_of job) ≡ whole (job_setup job) (rest_bound_of job) bound (moments_of job) }
{}

/// No processes wait for one another for ever: where nothing is under way in the world of such a run, all losses are told and no action
/// is enabled, each process that wasn't killed has ended.
pub fn still_worlds_are_over()
    ensures { (job : Job) → IsAccepted job → AsksNothing job → (fuel bound : ℕ) → IsStill (job_setup job) (whole (job_setup job) fuel bound (moments_of job))
        → all_over (job_setup job) (whole (job_setup job) fuel bound (moments_of job)) ≡ true }
{}

/// In each legal journal of an accepted job the size of an epoch is the lesser of the ranks and the number of those present.
pub fn epochs_are_sized()
    ensures { (job : Job) → IsAccepted job → (items : List Item) → IsLegal job items → EpochsAreSized job (ledger_of job items) }
{}

/// Whatever the bodies ask: in every world that arises, of processes that weren't killed those in one epoch have the same present set and
/// communicator, and each is present in its own epoch.
pub fn epochs_agree()
    ensures { (s : Setup) (fuel bound : ℕ) (moments : List Moment) → EpochsAgree s (whole s fuel bound moments) }
{}
