ghost use Rattle.std.specs.Prelude.{◌≡◌, [], ◌∷◌, ◌++◌, OnOk, codes};
ghost use Rattle.std.specs.Fmt.{signed_decimal};
ghost use Rattle.fx_script.specs.Canonical.{line_of_words, text_of};
ghost use Rattle.fx_script.specs.Exprs.{expr_words};
ghost use Rattle.fx_script.specs.Spelling.{stmt_entries, stmts_entries, test_text};

use crate::expr::Expr;
use crate::job::{Stmt, Test};
use crate::print_line::{
    put_bare, put_computed, put_drop, put_member, put_named, put_numbered, put_restore, put_store,
    put_three_numbered, put_two_named, put_two_sized,
};
use crate::print_word::{op_text, put_bounds, put_exprs, role_text, test_text};
use fx_base::{Bytes, NoMemory};
use fx_text::put_word;

/// Writes the lines of statements and a last line of one word.
#[cycle(printing)]
pub fn put_block(out: &mut Bytes, body: &[Stmt], last: &[u8]) -> Result<(), NoMemory>
    ensures { OnOk result (out.new ≡ out.old ++ (text_of (stmts_entries body.now) ++ (line_of_words (last.now ∷ []) ++ 10 ∷ []))) }
{
    put_stmts(out, body)?;
    put_bare(out, last)
}

// Writes the lines of statements.
#[cycle(printing)]
fn put_stmts(out: &mut Bytes, stmts: &[Stmt]) -> Result<(), NoMemory>
    ensures { OnOk result (out.new ≡ out.old ++ text_of (stmts_entries stmts.now)) }
{
    for stmt in stmts {
        put_stmt(out, stmt)?;
    }
    Ok(())
}

#[cycle(printing)]
fn put_stmt(out: &mut Bytes, stmt: &Stmt) -> Result<(), NoMemory>
    ensures { OnOk result (out.new ≡ out.old ++ text_of (stmt_entries stmt.now)) }
{
    match stmt {
        Stmt::Let { array, value, .. } => put_computed(out, b"let", array.as_slice(), value),
        Stmt::Set { counter, value, .. } => put_computed(out, b"set", counter.as_slice(), value),
        Stmt::Print { name, .. } => put_named(out, b"print", name.as_slice()),
        Stmt::Register { name, .. } => put_named(out, b"register", name.as_slice()),
        Stmt::RoleOnly { role, body, .. } => {
            put_named(out, b"when", role_text(*role))?;
            put_block(out, body.as_slice(), b"endwhen")
        }
        Stmt::Branch {
            test,
            left,
            right,
            yes,
            no,
            ..
        } => {
            put_if(out, *test, left, right)?;
            match no {
                None => put_block(out, yes.as_slice(), b"endif"),
                Some(no) => {
                    put_block(out, yes.as_slice(), b"else")?;
                    put_block(out, no.as_slice(), b"endif")
                }
            }
        }
        Stmt::Loop {
            counter,
            first,
            last,
            body,
            ..
        } => {
            put_for(out, counter.as_slice(), first, *last)?;
            put_block(out, body.as_slice(), b"endfor")
        }
        Stmt::Barrier { .. } => put_bare(out, b"barrier"),
        Stmt::Reduce {
            op,
            counter,
            array,
            ..
        } => put_two_named(out, op_text(*op), counter.as_slice(), array.as_slice()),
        Stmt::Agree {
            counter,
            array,
            index,
            ..
        } => put_two_sized(out, b"agree", counter.as_slice(), array.as_slice(), *index),
        Stmt::Shift {
            source,
            target,
            by,
            ..
        } => put_two_sized(out, b"shift", source.as_slice(), target.as_slice(), *by),
        Stmt::Group {
            group,
            start,
            depth,
            ..
        } => put_three_numbered(out, b"group", *group, *start, *depth),
        Stmt::Member {
            group,
            member,
            array,
            ..
        } => put_member(out, *group, *member, array.as_slice()),
        Stmt::Store {
            group,
            member,
            subset,
            ..
        } => put_store(out, *group, *member, subset),
        Stmt::Commit { group, .. } => put_numbered(out, b"commit", *group),
        Stmt::CommitBarrier { group, .. } => put_numbered(out, b"commitbarrier", *group),
        Stmt::Restore {
            group,
            member,
            stamp,
            ..
        } => put_restore(out, *group, *member, stamp),
        Stmt::Drop { group, stamp, .. } => put_drop(out, *group, stamp),
    }
}

fn put_if(out: &mut Bytes, test: Test, left: &Expr, right: &Expr) -> Result<(), NoMemory>
    ensures { OnOk result (out.new ≡ out.old ++ (line_of_words (codes "if" ∷ test_text test ∷ (expr_words left.now ++ expr_words right.now)) ++ 10 ∷ [])) }
{
    out.append(b"if")?;
    put_word(out, test_text(test))?;
    put_exprs(out, left, right)?;
    out.push(b'\n')
}

fn put_for(out: &mut Bytes, counter: &[u8], first: &Expr, last: i64) -> Result<(), NoMemory>
    ensures { OnOk result (out.new ≡ out.old ++ (line_of_words (codes "for" ∷ counter.now ∷ (expr_words first.now ++ signed_decimal last ∷ [])) ++ 10 ∷ [])) }
{
    out.append(b"for")?;
    put_word(out, counter)?;
    put_bounds(out, first, last)?;
    out.push(b'\n')
}
