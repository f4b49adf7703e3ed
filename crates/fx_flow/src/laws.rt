//! Laws of flat code.

ghost use Rattle.std.specs.Prelude.{ℕ, List};
ghost use Rattle.fx_script.specs.declared.job.Job.{Job};
ghost use Rattle.fx_check.specs.Facts.{facts_of};
ghost use Rattle.fx_check.specs.Parts.{KeepsByParts};
ghost use Rattle.fx_walk.specs.declared.action.View.{View};
ghost use Rattle.fx_walk.specs.InStep.{job_walk};
ghost use Rattle.fx_walk.specs.State.{State};
ghost use Rattle.fx_flow.specs.declared.instr.Instr.{Instr};
ghost use Rattle.fx_flow.specs.Code.{Follows, IsCode, start};

/// The walk of an accepted job's body gives what the body's flat code gives, action for action, from
/// any state at the code's beginning: the same prints, the same outward statements with the same
/// operands, whatever they are answered, and the same end.
pub fn flat_code_follows_the_walk()
    ensures { (job : Job) → KeepsByParts job → (code : List Instr) (begin : ℕ) → IsCode (facts_of job) code begin job.body
        → (view : View) (state : State) → Follows code (job_walk job view state) view (start begin state) }
{}
