ghost use Rattle.std.specs.Prelude.{◌≡◌, ◌∷◌, [], IfOk};
ghost use Rattle.fx_check.specs.Facts.{Facts, facts_of};
ghost use Rattle.fx_walk.specs.State.{array_slot, counter_slot};
ghost use Rattle.fx_value.specs.Terms.{term_of};
ghost use Rattle.fx_flow.specs.declared.instr.Instr.TheVariants as instr;
ghost use Rattle.fx_flow.specs.Code.{variable_of};
ghost use Rattle.fx_flow.specs.Emits.{Emits, Puts};

use crate::instr::{Instr, Outward, Variable};
use crate::operands::{
    agreement, attachment, creation, deletion, group_id, last_of, reduction, restoring, shifting,
    storing,
};
use fx_base::{Bytes, NoMemory, Seq};
use fx_check::IndexedJob;
use fx_script::{Decl, Expr, Stmt, Test};
use fx_value::{Formula, array_slot, counter_slot, is_array};
use std::alloc::Global;

/// The places that may come behind a test: inside its block, or next to it.
#[derive(Clone, Copy, Debug)]
struct Fork {
    inside: usize,
    next: usize,
}

/// Puts an instruction behind the code, and gives its place.
pub fn put(code: &mut Seq<Instr>, instr: Instr) -> Result<usize, NoMemory>
    ensures { IfOk result (λ place. Puts code.old code.new place instr) }
{
    let place = code.len();
    code.push(instr)?;
    Ok(place)
}

fn put_outward(code: &mut Seq<Instr>, what: Outward, next: usize) -> Result<usize, NoMemory>
    ensures { IfOk result (λ place. Puts code.old code.new place (instr.Outward what next)) }
{
    put(code, Instr::Outward { what, next })
}

fn put_let(
    alloc: Global,
    names: &[Decl],
    code: &mut Seq<Instr>,
    array: &Bytes,
    value: &Expr,
    next: usize,
) -> Result<usize, NoMemory>
    ensures { IfOk result (λ place. Puts code.old code.new place (instr.Let (array_slot names.now array.now) (term_of names.now value.now) next)) }
{
    let array = array_slot(names, array.as_slice());
    let value = Formula::new(alloc, names, value)?;
    put(code, Instr::Let { array, value, next })
}

fn put_set(
    alloc: Global,
    names: &[Decl],
    code: &mut Seq<Instr>,
    counter: &Bytes,
    value: &Expr,
    next: usize,
) -> Result<usize, NoMemory>
    ensures { IfOk result (λ place. Puts code.old code.new place (instr.Set (counter_slot names.now counter.now) (term_of names.now value.now) next)) }
{
    let counter = counter_slot(names, counter.as_slice());
    let value = Formula::new(alloc, names, value)?;
    put(
        code,
        Instr::Set {
            counter,
            value,
            next,
        },
    )
}

/// The array or the counter of this name.
pub fn variable_of(names: &[Decl], name: &Bytes) -> Variable
    ensures { (f : Facts) → f.names ≡ names.now → result ≡ variable_of f name.now }
{
    let name = name.as_slice();
    if is_array(names, name) {
        Variable::Array(array_slot(names, name))
    } else {
        Variable::Counter(counter_slot(names, name))
    }
}

fn put_print(
    names: &[Decl],
    code: &mut Seq<Instr>,
    name: &Bytes,
    next: usize,
) -> Result<usize, NoMemory>
    ensures { IfOk result (λ place. (f : Facts) → f.names ≡ names.now → Puts code.old code.new place (instr.Print name.now (variable_of f name.now) next)) }
{
    let variable = variable_of(names, name);
    let name = name.copy()?;
    put(
        code,
        Instr::Print {
            name,
            variable,
            next,
        },
    )
}

fn put_register(code: &mut Seq<Instr>, name: &Bytes, next: usize) -> Result<usize, NoMemory>
    ensures { IfOk result (λ place. Puts code.old code.new place (instr.Register name.now next)) }
{
    let name = name.copy()?;
    put(code, Instr::Register { name, next })
}

fn put_if(
    alloc: Global,
    names: &[Decl],
    code: &mut Seq<Instr>,
    test: Test,
    left: &Expr,
    right: &Expr,
    fork: Fork,
) -> Result<usize, NoMemory>
    ensures { IfOk result (λ place. Puts code.old code.new place (instr.If test (term_of names.now left.now) (term_of names.now right.now) fork.inside fork.next)) }
{
    let left = Formula::new(alloc, names, left)?;
    let right = Formula::new(alloc, names, right)?;
    put(
        code,
        Instr::If {
            test,
            left,
            right,
            chosen: fork.inside,
            other: fork.next,
        },
    )
}

fn put_for(
    alloc: Global,
    names: &[Decl],
    code: &mut Seq<Instr>,
    counter: &Bytes,
    first: &Expr,
    last: u32,
    fork: Fork,
) -> Result<usize, NoMemory>
    ensures { IfOk result (λ place. Puts code.old code.new place (instr.For (counter_slot names.now counter.now) (term_of names.now first.now) last fork.inside fork.next)) }
{
    let counter = counter_slot(names, counter.as_slice());
    let first = Formula::new(alloc, names, first)?;
    put(
        code,
        Instr::For {
            counter,
            first,
            last,
            inside: fork.inside,
            next: fork.next,
        },
    )
}

/// Puts the code of statements behind the code, the last statement first, and gives the place where
/// they begin. Behind them the code goes on at `after`.
#[cycle(emitting)]
pub fn emit_stmts(
    alloc: Global,
    job: &IndexedJob,
    code: &mut Seq<Instr>,
    body: &[Stmt],
    after: usize,
) -> Result<usize, NoMemory>
    ensures { IfOk result (λ begin. Emits (facts_of job.now) code.old code.new begin body.now after) }
{
    let mut next = after;
    let mut left = body.len();
    while left > 0 {
        left -= 1;
        next = emit_stmt(alloc, job, code, &body[left], next)?;
    }
    Ok(next)
}

#[cycle(emitting)]
fn emit_stmt(
    alloc: Global,
    job: &IndexedJob,
    code: &mut Seq<Instr>,
    statement: &Stmt,
    after: usize,
) -> Result<usize, NoMemory>
    ensures { IfOk result (λ begin. Emits (facts_of job.now) code.old code.new begin (statement.now ∷ []) after) }
{
    match statement {
        Stmt::Let { array, value, .. } => put_let(alloc, job.names(), code, array, value, after),
        Stmt::Set { counter, value, .. } => {
            put_set(alloc, job.names(), code, counter, value, after)
        }
        Stmt::Print { name, .. } => put_print(job.names(), code, name, after),
        Stmt::Register { name, .. } => put_register(code, name, after),
        Stmt::RoleOnly { role, body, .. } => {
            let inside = emit_stmts(alloc, job, code, body.as_slice(), after)?;
            put(
                code,
                Instr::When {
                    role: *role,
                    inside,
                    next: after,
                },
            )
        }
        Stmt::Branch {
            test,
            left,
            right,
            yes,
            no,
            ..
        } => {
            let inside = emit_stmts(alloc, job, code, yes.as_slice(), after)?;
            match no {
                None => {
                    let fork = Fork {
                        inside,
                        next: after,
                    };
                    put_if(alloc, job.names(), code, *test, left, right, fork)
                }
                Some(no) => {
                    let next = emit_stmts(alloc, job, code, no.as_slice(), after)?;
                    put_if(
                        alloc,
                        job.names(),
                        code,
                        *test,
                        left,
                        right,
                        Fork { inside, next },
                    )
                }
            }
        }
        Stmt::Loop {
            counter,
            first,
            last,
            body,
            ..
        } => {
            let inside = emit_stmts(alloc, job, code, body.as_slice(), 0)?;
            let fork = Fork {
                inside,
                next: after,
            };
            put_for(
                alloc,
                job.names(),
                code,
                counter,
                first,
                last_of(last),
                fork,
            )
        }
        Stmt::Barrier { .. } => put_outward(code, Outward::Barrier, after),
        Stmt::Reduce {
            op,
            counter,
            array,
            ..
        } => put_outward(code, reduction(job.names(), *op, counter, array), after),
        Stmt::Agree {
            counter,
            array,
            index,
            ..
        } => put_outward(code, agreement(job.names(), counter, array, index), after),
        Stmt::Shift {
            source,
            target,
            by,
            ..
        } => put_outward(code, shifting(job.names(), source, target, by), after),
        Stmt::Group {
            group,
            start,
            depth,
            ..
        } => put_outward(code, creation(group, start, depth), after),
        Stmt::Member { group, member, .. } => put_outward(code, attachment(group, member), after),
        Stmt::Store {
            group,
            member,
            subset,
            ..
        } => {
            let what = storing(alloc, job, group, member, subset)?;
            put_outward(code, what, after)
        }
        Stmt::Commit { group, .. } => {
            let group = group_id(group);
            put_outward(code, Outward::Commit { group }, after)
        }
        Stmt::CommitBarrier { group, .. } => {
            let group = group_id(group);
            put_outward(code, Outward::Close { group }, after)
        }
        Stmt::Restore {
            group,
            member,
            stamp,
            ..
        } => {
            let what = restoring(alloc, job, group, member, stamp)?;
            put_outward(code, what, after)
        }
        Stmt::Drop { group, stamp, .. } => {
            let what = deletion(alloc, job.names(), group, stamp)?;
            put_outward(code, what, after)
        }
    }
}
