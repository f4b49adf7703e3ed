//! Laws of the definitions alone.

ghost use Rattle.std.specs.Prelude.{◌≡◌, None, false};
ghost use Rattle.fx_check.specs.Acceptance.{IsAccepted};
ghost use Rattle.fx_fleet.specs.Runs.{journal_of};
ghost use Rattle.fx_legal.specs.Legal.{AllHaveEnded, IsLegalWhole};
ghost use Rattle.fx_losses.specs.Losses.{EachEpochHasItsLoss};
ghost use Rattle.fx_script.specs.Spelling.{IsWritable};
ghost use Rattle.fx_script.specs.declared.job.Job.{Job};
ghost use Rattle.fx_cli.specs.Built.{first_unbuilt};
ghost use Rattle.fx_cli.specs.Dues.{is_left_unfinished};

use fx_calls::laws as of_calls;

/// The journal of each accepted job that can be written and run is legal and tells its whole schedule, kills and notices among
/// the events or not. Each epoch in it has its loss: from epoch 2 on, a place of the epoch before was killed before. The tail
/// is enough: each process ends or is killed in it.
pub fn journals_are_legal()
    ensures legal { (job : Job) → IsWritable job → IsAccepted job → first_unbuilt job ≡ None → IsLegalWhole job (journal_of job) }
    ensures losses { (job : Job) → IsWritable job → IsAccepted job → first_unbuilt job ≡ None → EachEpochHasItsLoss job (journal_of job) }
    ensures over { (job : Job) → IsWritable job → IsAccepted job → first_unbuilt job ≡ None → is_left_unfinished job ≡ false }
    ensures whole { (job : Job) → IsWritable job → IsAccepted job → first_unbuilt job ≡ None → AllHaveEnded job (journal_of job) }
{
    of_calls::journals_are_legal();
    of_calls::each_epoch_has_its_loss();
    of_calls::all_processes_end();
}
