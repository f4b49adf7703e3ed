//! Laws of formulas and of states of one shape.

ghost use Rattle.std.specs.Prelude.{◌≡◌, ℕ, ℤ, List, [], length, get_or, slice_set};
ghost use Rattle.fx_base.specs.declared.names.Role.{Role};
ghost use Rattle.fx_script.specs.declared.expr.Expr.{Expr};
ghost use Rattle.fx_script.specs.declared.job.Job.{Job};
ghost use Rattle.fx_check.specs.Facts.{Facts};
ghost use Rattle.fx_check.specs.Parts.{KeepsByParts};
ghost use Rattle.fx_walk.specs.declared.action.View.{View};
ghost use Rattle.fx_walk.specs.InStep.{job_walk};
ghost use Rattle.fx_walk.specs.State.{State, at_init, with_callback, zero_arrays};
ghost use Rattle.fx_walk.specs.Values.{Sight, value_of, values_from};
ghost use Rattle.fx_value.specs.Shape.{IsShaped, StaysShaped, blank_of};
ghost use Rattle.fx_value.specs.Terms.{term_of, term_value, term_values};

/// A formula has the value of its expression, and at each index of an array too.
pub fn formulas_have_the_values_of_their_expressions()
    ensures once { (f : Facts) (expr : Expr) (x : Sight) → term_value (term_of f.names expr) x ≡ value_of f expr x }
    ensures at_each_index { (f : Facts) (expr : Expr) (x : Sight) (i : ℕ) (olds : List ℤ) → term_values (term_of f.names expr) x i olds ≡ values_from f expr x i olds }
{}

/// What a rank has of its declarations keeps their shape, whatever is written to it, so long as an
/// array keeps its length. Its arrays are as long as they are declared.
pub fn states_keep_their_shape()
    ensures blank { (f : Facts) → IsShaped f.names (blank_of f.names) }
    ensures counter { (f : Facts) (state : State) (slot : ℕ) (value : ℤ) → IsShaped f.names state → IsShaped f.names (record state { counters = slice_set state.counters slot value }) }
    ensures array { (f : Facts) (state : State) (slot : ℕ) (elements : List ℤ) → length elements ≡ length (get_or state.arrays slot []) → IsShaped f.names state → IsShaped f.names (record state { arrays = slice_set state.arrays slot elements }) }
    ensures callback { (f : Facts) (state : State) (name : List ℕ) → IsShaped f.names state → IsShaped f.names (with_callback state name) }
    ensures init { (f : Facts) (role : Role) (state : State) → IsShaped f.names state → IsShaped f.names (at_init f role state) }
    ensures lengths { (f : Facts) (state : State) (slot : ℕ) → IsShaped f.names state → length (get_or state.arrays slot []) ≡ length (get_or (zero_arrays f.names) slot []) }
{}

/// The walk of an accepted job's body that begins in a state of the declared shape has one wherever it
/// stops, if each shift is given as many elements as it gives away: source and target of a shift are
/// as long as each other.
pub fn walks_keep_the_shape()
    ensures { (job : Job) (state : State) → KeepsByParts job → IsShaped job.names state → (view : View) → StaysShaped job.names (job_walk job view state) }
{}
