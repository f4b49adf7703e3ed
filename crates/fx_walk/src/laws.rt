//! Laws of walks.

ghost use Rattle.std.specs.List.{list_all};
ghost use Rattle.std.specs.Prelude.{◌≡◌, ◌++◌, ℕ, List, true};
ghost use Rattle.fx_script.specs.declared.job.Job.{Job};
ghost use Rattle.fx_script.specs.declared.job.Stmt.{Stmt};
ghost use Rattle.fx_script.specs.Spelling.{stmts_fit};
ghost use Rattle.fx_check.specs.Facts.{Facts};
ghost use Rattle.fx_check.specs.Parts.{KeepsByParts};
ghost use Rattle.fx_check.specs.Work.{work_of};
ghost use Rattle.fx_walk.specs.declared.action.View.{View};
ghost use Rattle.fx_walk.specs.State.{State};
ghost use Rattle.fx_walk.specs.Lengths.{IsWithin, OnlyPrints, is_plain};
ghost use Rattle.fx_walk.specs.Walk.{Reply, Walk, walk_of};
ghost use Rattle.fx_walk.specs.Along.{outputs, outputs_from, rest_after, stop_of};
ghost use Rattle.fx_walk.specs.Plan.{Keeps, shared_of};
ghost use Rattle.fx_walk.specs.InStep.{AreGivenAlike, StampsStay, effects, is_outside, job_plan, job_walk, latest_after, met, next_of, plan_after, plan_met};

/// A walk with more replies goes on where the walk with fewer stopped: what it shows begins with
/// what was shown with fewer, and comes after that from what was left.
pub fn more_replies_go_on()
    ensures shows { (walk : Walk) (first more : List Reply) → outputs walk (first ++ more) ≡ outputs walk first ++ outputs_from (rest_after walk first) more }
    ensures stops { (walk : Walk) (first more : List Reply) → stop_of walk (first ++ more) ≡ stop_of (rest_after walk first) more }
    ensures leaves { (walk : Walk) (first more : List Reply) → rest_after walk (first ++ more) ≡ rest_after (rest_after walk first) more }
{}

/// All ranks of an accepted job follow one plan of its body, blocks of `when` aside, whatever their
/// roles, places and arrays are. It comes of the size, the newest stamps and the counters alone. What
/// a rank comes past, and what is left for it, is what the plan has with the numbers and the newest
/// stamps that its replies set. Replies inside `when` leave the newest stamps as they are.
pub fn all_ranks_have_one_plan()
    ensures begins { (job : Job) → KeepsByParts job → (view : View) (state : State) → Keeps (job_walk job view state) (job_plan job (shared_of view state)) view.latest }
    ensures past { (job : Job) → KeepsByParts job → (view : View) (state : State) (replies : List Reply) → StampsStay (job_walk job view state) view.latest replies
        → met (job_walk job view state) replies ≡ plan_met (job_plan job (shared_of view state)) (effects (job_walk job view state) replies) }
    ensures goes_on { (job : Job) → KeepsByParts job → (view : View) (state : State) (replies : List Reply) → StampsStay (job_walk job view state) view.latest replies
        → Keeps (rest_after (job_walk job view state) replies) (plan_after (job_plan job (shared_of view state)) (effects (job_walk job view state) replies)) (latest_after (job_walk job view state) view.latest replies) }
{}

/// Two ranks of an accepted job are in step, whatever their roles, places and arrays are, if they
/// began with the same size, counters and newest stamps, if the replies outside `when` set the same
/// numbers and newest stamps, and if those inside leave the newest stamps as they are. They have come
/// past the same statements outside `when`: at the same spots, with the same groups, members and
/// stamps, and with the same counters. They see the same newest stamps, and come next to the same
/// statement, or to the end, where neither waits inside a `when`.
pub fn ranks_are_in_step()
    ensures past { (job : Job) → KeepsByParts job → (one other : View) (state beside : State) (replies others : List Reply) → AreGivenAlike job one other state beside replies others
        → met (job_walk job one state) replies ≡ met (job_walk job other beside) others }
    ensures stamps { (job : Job) → KeepsByParts job → (one other : View) (state beside : State) (replies others : List Reply) → AreGivenAlike job one other state beside replies others
        → latest_after (job_walk job one state) one.latest replies ≡ latest_after (job_walk job other beside) other.latest others }
    ensures next { (job : Job) → KeepsByParts job → (one other : View) (state beside : State) (replies others : List Reply) → AreGivenAlike job one other state beside replies others
        → is_outside (next_of (rest_after (job_walk job one state) replies)) ≡ true → is_outside (next_of (rest_after (job_walk job other beside) others)) ≡ true
        → next_of (rest_after (job_walk job one state) replies) ≡ next_of (rest_after (job_walk job other beside) others) }
{}

/// The work of a body bounds the actions of its walk, whatever is replied.
pub fn a_body_is_within_its_work()
    ensures { (f : Facts) (body : List Stmt) (view : View) (state : State) → IsWithin (walk_of f body view state) (work_of body) }
{}

/// Plain statements that can be written ask nothing, and what they print has a name.
pub fn plain_statements_only_print()
    ensures { (f : Facts) (body : List Stmt) (room : ℕ) → stmts_fit body room ≡ true → list_all is_plain body ≡ true → (view : View) (state : State) → OnlyPrints (walk_of f body view state) }
{}
