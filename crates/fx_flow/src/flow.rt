ghost use Rattle.std.specs.Prelude.{◌≡◌, ℤ, List, [], Some, None, IfOk, OnOk, OnErr, slice_get};
ghost use Rattle.std.specs.List.{find};
ghost use Rattle.std.specs.Option.{option_map};
ghost use Rattle.fx_script.specs.declared.job.Job.{Job};
ghost use Rattle.fx_script.specs.declared.job.Stmt.{Stmt};
ghost use Rattle.fx_check.specs.Facts.{facts_of};
ghost use Rattle.fx_walk.specs.declared.action.At.TheVariants as at;
ghost use Rattle.fx_walk.specs.declared.action.View.{View};
ghost use Rattle.fx_walk.specs.Along.{at_of, outputs, stop_of};
ghost use Rattle.fx_walk.specs.Callbacks.{callback_run, called_of, prints_of, state_at, state_behind, state_behind_callbacks};
ghost use Rattle.fx_walk.specs.InStep.{job_walk};
ghost use Rattle.fx_walk.specs.State.{at_init, blank};
ghost use Rattle.fx_walk.specs.Walk.{Elements, Entries, Nothing, Number, Walk, walk_of};
ghost use Rattle.fx_flow.specs.declared.instr.Instr.TheVariants as instr;
ghost use Rattle.fx_flow.specs.Code.{Moves, acts};
ghost use Rattle.fx_flow.specs.Emits.{Grows};
ghost use Rattle.fx_flow.specs.Flowing.{AreRoutines, AsksFor, DoesRest, IsAtBegin, IsDue, IsFlowOf, IsGivenFitting, Ran, TellsNeed, WantsElements, WantsEntries, WantsNumber, WasAnswered, WentOn, before, counter_of, is_routine_of, next_of, outward_in, part_of, restored_of, state_of, target_of};

use crate::asking::wanted_by;
use crate::cursor::Cursor;
use crate::emit::{emit_stmts, put};
use crate::instr::{Instr, Loop, Outward, Routine};
use fx_base::{Elems, MemberId, NoMemory, Role, Seq, Sparse};
use fx_check::{Accepted, IndexedJob};
use fx_walk::{At, CallbackRun, Called, Printed, Prints, View, Wanted};
use std::alloc::Global;
use std::marker::Model;
use std::rc::Rc;

/// The flat code of a job's body, with a cursor in it, counters, arrays and registered callbacks. Flows of one job can share
/// their code.
#[derive(Debug, Drop)]
pub struct Flow {
    alloc: Global,
    code: Rc<Code, Global>,
    cursor: Cursor,
}

// The flat code of a job: its instructions, where the body begins, and where each callback does.
#[derive(Debug, Drop)]
struct Code {
    instrs: Seq<Instr>,
    begin: usize,
    routines: Seq<Routine>,
}

impl Model for Flow {
    ghost use Rattle.fx_flow.specs.Flowing.{Flowing};
    ghost use Rattle.fx_flow.specs.Stands.{flow_code};

    ghost Value = { Flowing };

    ghost coded = { flow_code };

    ghost view = { λ f. record { code = f.code.value.instrs; begin = f.code.value.begin; routines = f.code.value.routines; stand = f.cursor } };
}

impl Flow {
    /// A flow of the job, at the beginning of its body: counters and elements are 0, and no callback
    /// is registered.
    pub fn new(alloc: Global, job: &Accepted) -> Result<Flow, NoMemory>
        ensures of_job { IfOk result (λ flow. IsFlowOf job.now flow) }
        ensures begins { IfOk result (λ flow. (view : View) → DoesRest view (job_walk job.now view (blank (facts_of job.now))) flow) }
        ensures blank { IfOk result (λ flow. state_of flow ≡ blank (facts_of job.now)) }
    {
        let job = job.job();
        let indexed = IndexedJob::new(alloc, job)?;
        let mut code = Seq::new(alloc);
        code.reserve(job.body.len())?;
        let _ = put(&mut code, Instr::End)?;
        let begin = emit_stmts(alloc, &indexed, &mut code, job.body.as_slice(), 0)?;
        let routines = emit_routines(alloc, &indexed, &mut code)?;
        let cursor = Cursor::new(alloc, job.names.as_slice(), begin)?;
        let code = Rc::new(
            alloc,
            Code {
                instrs: code,
                begin,
                routines,
            },
        )?;
        Ok(Flow {
            alloc,
            code,
            cursor,
        })
    }

    /// Another flow of the same job, at the beginning of its body. The two share their code.
    pub fn another(&self, job: &Accepted) -> Result<Flow, NoMemory>
        requires { IsFlowOf job.now self.now }
        ensures of_job { IfOk result (λ flow. IsFlowOf job.now flow) }
        ensures begins { IfOk result (λ flow. (view : View) → DoesRest view (job_walk job.now view (blank (facts_of job.now))) flow) }
        ensures blank { IfOk result (λ flow. state_of flow ≡ blank (facts_of job.now)) }
    {
        Ok(Flow {
            alloc: self.alloc,
            code: self.code.clone()?,
            cursor: Cursor::new(self.alloc, job.job().names.as_slice(), self.code.begin)?,
        })
    }

    /// Which kind of action comes next: exactly that of the walk. It takes no memory.
    pub fn at(&self) -> At
        ensures same { result ≡ next_of self.now }
        ensures of_walk { (view : View) (walk : Walk) → DoesRest view walk self.now → result ≡ at_of walk }
    {
        match self.code.instrs.nth(self.cursor.place()) {
            None | Some(Instr::End) => {
                if self.cursor.is_open() {
                    At::Plain
                } else {
                    At::Finish
                }
            }
            Some(Instr::Outward { .. }) => At::Outward,
            Some(_) => At::Plain,
        }
    }

    /// Takes one plain action, which must come next, and gives what a `print` prints: `None` exactly
    /// where the action isn't one. Without memory nothing changes.
    pub fn advance(&mut self, view: &View) -> Result<Option<Printed>, NoMemory>
        requires { next_of self.old ≡ at.Plain }
        ensures goes_on { IfOk result (λ printed. (walk : Walk) → DoesRest view.now walk self.old → WentOn view.now walk printed self.new) }
        ensures came_from { IfOk result (λ printed. (rest : Walk) → DoesRest view.now rest self.new → DoesRest view.now (before printed rest) self.old) }
        ensures same_job { OnOk result ((job : Job) → IsFlowOf job self.old → IsFlowOf job self.new) }
        ensures no_memory { OnErr result (self.new ≡ self.old) }
    {
        self.act(view)
    }

    /// Takes back what was printed, once nobody needs it: its room is used again by the next print.
    pub fn give_back(&mut self, printed: Printed)
        ensures { self.new ≡ self.old }
    {
        self.cursor.give_back(printed);
    }

    /// What the outward statement that must come next asks, with the values of its operands: exactly
    /// what the walk asks.
    pub fn wanted(&self, view: &View) -> Result<Wanted, NoMemory>
        requires { next_of self.now ≡ at.Outward }
        ensures asked { IfOk result (λ wanted. (walk : Walk) → DoesRest view.now walk self.now → AsksFor walk wanted) }
        ensures need { IfOk result (λ wanted. TellsNeed self.now wanted) }
    {
        match outward_at(&self.code.instrs, self.cursor.place()) {
            Some((what, _)) => wanted_by(self.alloc, what, view, self.cursor.values()),
            None => unreachable!(),
        }
    }

    /// Answers a sum, min, max or agree, which must be wanted: the number is set in its counter. It
    /// takes no memory.
    pub fn give_counter(&mut self, value: i64)
        requires { WantsNumber self.old }
        ensures goes_on { (view : View) (walk : Walk) (latest : List ℤ) → DoesRest view walk self.old → WasAnswered view walk (record { given = Number value; latest = latest }) self.new }
        ensures same_job { (job : Job) → IsFlowOf job self.old → IsFlowOf job self.new }
    {
        if let Some((what, next)) = outward_at(&self.code.instrs, self.cursor.place())
            && let Some(counter) = counter_of(what)
        {
            self.cursor.take_number(counter, value, next);
        }
    }

    /// Answers a shift, which must be wanted: the elements become those of its array. The flow stays
    /// one of its job where they are as many as the shift gives away.
    pub fn give_array(&mut self, values: Elems)
        requires { WantsElements self.old }
        ensures goes_on { (view : View) (walk : Walk) (latest : List ℤ) → DoesRest view walk self.old → WasAnswered view walk (record { given = Elements values; latest = latest }) self.new }
        ensures same_job { (job : Job) (view : View) (walk : Walk) → IsFlowOf job self.old → DoesRest view walk self.old → IsGivenFitting job.names walk (Elements values) → IsFlowOf job self.new }
    {
        if let Some((what, next)) = outward_at(&self.code.instrs, self.cursor.place())
            && let Some(target) = target_of(what)
        {
            self.cursor.take_elements(target, values, next);
        }
    }

    /// Answers a restore of this member, which must be wanted: the elements are written at exactly
    /// their indices of its array, and all others stay. It takes no memory.
    pub fn give_some(&mut self, member: MemberId, values: &Sparse)
        requires { WantsEntries self.old member }
        ensures goes_on { (view : View) (walk : Walk) (latest : List ℤ) → DoesRest view walk self.old → WasAnswered view walk (record { given = Entries values.now; latest = latest }) self.new }
        ensures same_job { (job : Job) → IsFlowOf job self.old → IsFlowOf job self.new }
    {
        if let Some((what, next)) = outward_at(&self.code.instrs, self.cursor.place())
            && let Some((_, array)) = restored_of(what)
        {
            self.cursor.take_entries(array, values, next);
        }
    }

    /// Passes an outward statement, which must come next: it is given nothing. It takes no memory.
    pub fn pass(&mut self)
        requires { next_of self.old ≡ at.Outward }
        ensures goes_on { (view : View) (walk : Walk) (latest : List ℤ) → DoesRest view walk self.old → WasAnswered view walk (record { given = Nothing; latest = latest }) self.new }
        ensures same_job { (job : Job) → IsFlowOf job self.old → IsFlowOf job self.new }
    {
        if let Some((_, next)) = outward_at(&self.code.instrs, self.cursor.place()) {
            self.cursor.move_to(next);
        }
    }

    /// Goes back to the beginning of the body, from wherever it stands. The counters are 0; a
    /// survivor's arrays and callbacks stay, and another's elements are 0 and its callbacks
    /// forgotten. It takes no memory.
    pub fn rewind(&mut self, role: Role)
        ensures goes_back { IsAtBegin self.new }
        ensures begins { (job : Job) → IsFlowOf job self.old → (view : View) → DoesRest view (job_walk job view (at_init (facts_of job) role (state_of self.old))) self.new }
        ensures keeps { (job : Job) → IsFlowOf job self.old → state_of self.new ≡ at_init (facts_of job) role (state_of self.old) }
        ensures same_job { (job : Job) → IsFlowOf job self.old → IsFlowOf job self.new }
    {
        self.cursor.rewind(self.code.begin, role);
    }

    /// Runs the registered callbacks, in the order of registration, each from the state that the one
    /// before left, and gives what each printed. The place stays. Without memory some of them may
    /// have run.
    pub fn run_callbacks(&mut self, view: &View) -> Result<CallbackRun, NoMemory>
        ensures run { IfOk result (λ run. (job : Job) → IsFlowOf job self.old → run ≡ callback_run (facts_of job) view.now (state_of self.old)) }
        ensures leaves { OnOk result ((job : Job) → IsFlowOf job self.old → state_of self.new ≡ state_behind_callbacks (facts_of job) view.now (state_of self.old)) }
        ensures begins { (job : Job) → IsFlowOf job self.old → IsAtBegin self.old → (view : View) → DoesRest view (job_walk job view (state_of self.new)) self.new }
        ensures same_job { (job : Job) → IsFlowOf job self.old → IsFlowOf job self.new }
    {
        let place = self.cursor.place();
        let run = self.run_registered(view);
        self.cursor.move_to(place);
        run
    }

    /// Runs the registered callbacks, and stays where the last one ends.
    fn run_registered(&mut self, view: &View) -> Result<CallbackRun, NoMemory>
        ensures run { IfOk result (λ run. (job : Job) → IsFlowOf job self.old → run ≡ callback_run (facts_of job) view.now (state_of self.old)) }
        ensures leaves { OnOk result ((job : Job) → IsFlowOf job self.old → state_of self.new ≡ state_behind_callbacks (facts_of job) view.now (state_of self.old)) }
        ensures stays { (job : Job) → IsFlowOf job self.old → Ran job self.old self.new }
    {
        let mut run = CallbackRun::new(self.alloc);
        for at in 0..self.cursor.values().callbacks().len() {
            if let Some(name) = self.cursor.values().callbacks().get(at) {
                let name = name.copy()?;
                let prints = self.run_callback(view, name.as_slice())?;
                run.push(Called { name, prints })?;
            }
        }
        Ok(run)
    }

    /// Runs the callback of a name, stays where it ends, and gives what it prints.
    fn run_callback(&mut self, view: &View, name: &[u8]) -> Result<Prints, NoMemory>
        ensures prints { IfOk result (λ prints. (job : Job) → IsFlowOf job self.old → record { name = name.now; prints = prints } ≡ called_of (facts_of job) view.now (state_of self.old) name.now) }
        ensures leaves { OnOk result ((job : Job) → IsFlowOf job self.old → state_of self.new ≡ state_behind (facts_of job) view.now (state_of self.old) name.now) }
        ensures stays { (job : Job) → IsFlowOf job self.old → Ran job self.old self.new }
    {
        match routine_of(self.code.routines.as_slice(), name) {
            Some(part) => {
                self.cursor.move_to(part.begin);
                self.run_statements(view, part.count)
            }
            None => Ok(Prints::new(self.alloc)),
        }
    }

    /// Runs so many statements, which must be those of a callback, from where it stands, and gives
    /// what they print.
    fn run_statements(&mut self, view: &View, count: usize) -> Result<Prints, NoMemory>
        ensures prints { IfOk result (λ prints. (job : Job) (body : List Stmt) → IsDue job body count self.old → prints ≡ prints_of (outputs (walk_of (facts_of job) body view.now (state_of self.old)) [])) }
        ensures leaves { OnOk result ((job : Job) (body : List Stmt) → IsDue job body count self.old → state_of self.new ≡ state_at (stop_of (walk_of (facts_of job) body view.now (state_of self.old)) [])) }
        ensures stays { (job : Job) (body : List Stmt) → IsDue job body count self.old → Ran job self.old self.new }
    {
        let mut prints = Prints::new(self.alloc);
        let mut left = count;
        while left > 0 && self.at() == At::Plain {
            if let Some(printed) = self.act(view)? {
                prints.push(printed)?;
            }
            left -= 1;
        }
        Ok(prints)
    }

    /// Takes the action of the next instruction.
    fn act(&mut self, view: &View) -> Result<Option<Printed>, NoMemory>
        requires { next_of self.old ≡ at.Plain }
        ensures same { OnOk result (self.new ≡ record self.old { stand = self.new.stand }) }
        ensures acts { IfOk result (λ printed. acts self.old.code view.now self.old.stand ≡ Moves printed self.new.stand) }
        ensures no_memory { OnErr result (self.new ≡ self.old) }
    {
        match self.code.instrs.nth(self.cursor.place()) {
            None | Some(Instr::End) => {
                self.cursor.end_turn();
                Ok(None)
            }
            Some(Instr::Let { array, value, next }) => {
                self.cursor.compute_array(view, *array, value, *next)?;
                Ok(None)
            }
            Some(
                Instr::Set {
                    counter,
                    value,
                    next,
                },
            ) => {
                self.cursor.compute_counter(view, *counter, value, *next);
                Ok(None)
            }
            Some(
                Instr::Print {
                    name,
                    variable,
                    next,
                },
            ) => {
                let printed = self.cursor.printed(self.alloc, name, *variable)?;
                self.cursor.move_to(*next);
                Ok(Some(printed))
            }
            Some(Instr::Register { name, next }) => {
                self.cursor.register(name, *next)?;
                Ok(None)
            }
            Some(Instr::When { role, inside, next }) => {
                self.cursor.enter(view, *role, *inside, *next);
                Ok(None)
            }
            Some(
                Instr::If {
                    test,
                    left,
                    right,
                    chosen,
                    other,
                },
            ) => {
                self.cursor
                    .choose(view, *test, left, right, *chosen, *other);
                Ok(None)
            }
            Some(
                Instr::For {
                    counter,
                    first,
                    last,
                    inside,
                    next,
                },
            ) => {
                let turn = Loop {
                    counter: *counter,
                    last: *last,
                    inside: *inside,
                    next: *next,
                    turns: 0,
                };
                self.cursor.begin_loop(view, first, turn)?;
                Ok(None)
            }
            Some(Instr::Outward { .. }) => unreachable!(),
        }
    }
}

/// The outward statement at a place, if one stands there, and the place behind it.
fn outward_at(code: &Seq<Instr>, place: usize) -> Option<(&Outward, usize)>
    ensures { option_map (λ due. (due.0.now, due.1)) result ≡ outward_in (slice_get code.now place) }
{
    match code.nth(place) {
        Some(Instr::Outward { what, next }) => Some((what, *next)),
        _ => None,
    }
}

/// The counter that is set to a number.
fn counter_of(what: &Outward) -> Option<usize>
    ensures { result ≡ counter_of what.now }
{
    match what {
        Outward::Reduce { counter, .. } | Outward::Agree { counter, .. } => Some(*counter),
        _ => None,
    }
}

/// The array whose elements become others.
fn target_of(what: &Outward) -> Option<usize>
    ensures { result ≡ target_of what.now }
{
    match what {
        Outward::Shift { target, .. } => Some(*target),
        _ => None,
    }
}

/// The member that is restored, and its array.
fn restored_of(what: &Outward) -> Option<(MemberId, usize)>
    ensures { result ≡ restored_of what.now }
{
    match what {
        Outward::Restore { member, array, .. } => Some((*member, *array)),
        _ => None,
    }
}

/// Where the code of a callback begins, and how many statements it has.
#[derive(Clone, Copy, Debug)]
struct Part {
    begin: usize,
    count: usize,
}

/// The code of the callback of a name.
fn routine_of(routines: &[Routine], name: &[u8]) -> Option<Part>
    ensures { option_map (λ part. (part.begin, part.count)) result ≡ part_of (find (is_routine_of name.now) routines.now) }
{
    for routine in routines {
        if routine.name.as_slice() == name {
            return Some(Part {
                begin: routine.begin,
                count: routine.count,
            });
        }
    }
    None
}

/// Puts the code of the callbacks behind the code, and tells where each begins.
fn emit_routines(
    alloc: Global,
    job: &IndexedJob,
    code: &mut Seq<Instr>,
) -> Result<Seq<Routine>, NoMemory>
    ensures grew { OnOk result (Grows code.old code.new) }
    ensures are { IfOk result (λ routines. slice_get code.old 0 ≡ Some instr.End → AreRoutines (facts_of job.now) code.new routines job.now.callbacks) }
{
    let mut routines = Seq::new(alloc);
    for callback in job.callbacks() {
        let begin = emit_stmts(alloc, job, code, callback.body.as_slice(), 0)?;
        routines.push(Routine {
            name: callback.name.copy()?,
            begin,
            count: callback.body.len(),
        })?;
    }
    Ok(routines)
}
