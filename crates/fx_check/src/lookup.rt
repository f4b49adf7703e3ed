ghost use Rattle.std.specs.Prelude.{◌≡◌, is_some};
ghost use Rattle.std.specs.List.{list_any};
ghost use Rattle.std.specs.Option.{option_copied};
ghost use Rattle.std.specs.Ordering.{int_eq};
ghost use Rattle.std.specs.Str.{bytes_eq};
ghost use Rattle.fx_check.specs.Facts.{array_in, attached_by, attached_in, created_by, created_in, decl_spot, facts_of, first_attached, first_created, is_array, is_call_of, is_callback, is_counter, is_counter_of, is_of, is_value, name_of};

use crate::tables::{Created, IndexedJob};
use fx_base::Spot;
use fx_script::{Callback, Decl, Stmt};

// ---- declarations

pub fn name_of(decl: &Decl) -> &[u8]
    ensures { result.now ≡ name_of decl.now }
{
    match decl {
        Decl::Array { name, .. } => name.as_slice(),
        Decl::Counter { name, .. } => name.as_slice(),
    }
}

pub fn decl_spot(decl: &Decl) -> Spot
    ensures { result ≡ decl_spot decl.now }
{
    match decl {
        Decl::Array { spot, .. } => *spot,
        Decl::Counter { spot, .. } => *spot,
    }
}

/// Whether one of these declarations has this name.
pub fn is_declared(name: &[u8], names: &[Decl]) -> bool
    ensures { result ≡ list_any (is_of name.now) names.now }
{
    names.iter().any(|decl| name_of(decl) == name)
}

/// Whether one of these callbacks has this name.
pub fn is_called(name: &[u8], callbacks: &[Callback]) -> bool
    ensures { result ≡ list_any (is_call_of name.now) callbacks.now }
{
    callbacks
        .iter()
        .any(|callback| callback.name.as_slice() == name)
}

/// The length of the first array of this name.
pub fn array_in(names: &[Decl], name: &[u8]) -> Option<i64>
    ensures { result ≡ array_in names.now name.now }
{
    for decl in names {
        if let Decl::Array { name: own, len, .. } = decl
            && own.as_slice() == name
        {
            return Some(*len);
        }
    }
    None
}

pub fn is_array(names: &[Decl], name: &[u8]) -> bool
    ensures { result ≡ is_array names.now name.now }
{
    array_in(names, name).is_some()
}

pub fn is_counter(names: &[Decl], name: &[u8]) -> bool
    ensures { result ≡ is_counter names.now name.now }
{
    names.iter().any(|decl| is_counter_of(name, decl))
}

fn is_counter_of(name: &[u8], decl: &Decl) -> bool
    ensures { result ≡ is_counter_of name.now decl.now }
{
    match decl {
        Decl::Array { .. } => false,
        Decl::Counter { name: own, .. } => own.as_slice() == name,
    }
}

/// Whether an array or a counter has this name.
pub fn is_value(job: &IndexedJob, name: &[u8]) -> bool
    ensures { result ≡ is_value (facts_of job.now) name.now }
{
    is_declared(name, job.names())
}

// ---- groups and members

/// The first creation of a group in a body.
#[cycle(created_in)]
pub fn created_in(body: &[Stmt], group: &i64) -> Option<Created>
    ensures { result ≡ first_created (created_in body.now) group.now }
{
    for statement in body {
        let first = created_by(statement, group);
        if first.is_some() {
            return first;
        }
    }
    None
}

#[cycle(created_in)]
fn created_by(statement: &Stmt, wanted: &i64) -> Option<Created>
    ensures { result ≡ first_created (created_by statement.now) wanted.now }
{
    match statement {
        Stmt::Group {
            group,
            start,
            depth,
            ..
        } if *group == *wanted => Some(Created {
            group: *group,
            start: *start,
            depth: *depth,
        }),
        Stmt::RoleOnly { body, .. } => created_in(body.as_slice(), wanted),
        Stmt::Branch { yes, no, .. } => match no {
            None => created_in(yes.as_slice(), wanted),
            Some(no) => {
                let first = created_in(yes.as_slice(), wanted);
                if first.is_some() {
                    return first;
                }
                created_in(no.as_slice(), wanted)
            }
        },
        Stmt::Loop { body, .. } => created_in(body.as_slice(), wanted),
        _ => None,
    }
}

/// The array that is attached first to a member of a group in a body.
#[cycle(attached_in)]
pub fn attached_in<'a>(body: &'a [Stmt], group: &i64, member: &i64) -> Option<&'a [u8]>
    ensures { option_copied result ≡ first_attached (attached_in body.now) group.now member.now }
{
    for statement in body {
        let first = attached_by(statement, group, member);
        if first.is_some() {
            return first;
        }
    }
    None
}

#[cycle(attached_in)]
fn attached_by<'a>(statement: &'a Stmt, of: &i64, wanted: &i64) -> Option<&'a [u8]>
    ensures { option_copied result ≡ first_attached (attached_by statement.now) of.now wanted.now }
{
    match statement {
        Stmt::Member {
            group,
            member,
            array,
            ..
        } if *group == *of && *member == *wanted => Some(array.as_slice()),
        Stmt::RoleOnly { body, .. } => attached_in(body.as_slice(), of, wanted),
        Stmt::Branch { yes, no, .. } => match no {
            None => attached_in(yes.as_slice(), of, wanted),
            Some(no) => {
                let first = attached_in(yes.as_slice(), of, wanted);
                if first.is_some() {
                    return first;
                }
                attached_in(no.as_slice(), of, wanted)
            }
        },
        Stmt::Loop { body, .. } => attached_in(body.as_slice(), of, wanted),
        _ => None,
    }
}
