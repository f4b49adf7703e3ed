ghost use Rattle.std.specs.Prelude.{◌≡◌, ◌∷◌, [], IfOk, OnOk};
ghost use Rattle.std.specs.Option.{option_copied};
ghost use Rattle.fx_check.specs.Facts.{GrewAttached, GrewCreated, attached_by, attached_in, created_by, created_in, first_attached, first_created, is_one_of_eight};

use crate::limits::LAST_OF_EIGHT;
use crate::lookup::{attached_in, created_in};
use fx_base::{Bytes, NoMemory, Seq};
use fx_script::{Callback, Decl, Job, Stmt};
use std::alloc::Global;
use std::marker::Model;

/// A group that a statement creates, with its start stamp and its depth.
#[derive(Clone, Copy, Debug, PartialEq, Eq)]
pub struct Created {
    pub group: i64,
    pub start: i64,
    pub depth: i64,
}

/// An array that a statement attaches to a member of a group.
#[derive(Debug, Drop)]
pub struct Attached {
    pub group: i64,
    pub member: i64,
    pub array: Bytes,
}

/// A job, with the first creation of each of the eight groups and the first attachment of each of
/// their eight members, so that a look-up of one of them doesn't go through the body. It is seen as
/// the job.
#[derive(Drop)]
pub struct IndexedJob<'a> {
    job: &'a Job,
    created: Seq<Created>,
    attached: Seq<Attached>,
}

impl<'a> Model for IndexedJob<'a> {
    ghost use Rattle.fx_script.specs.contracts.job.Job as the_job;
    ghost use Rattle.fx_script.specs.declared.job.Job.{Job};
    ghost use Rattle.fx_check.specs.Facts.{AreTables};

    ghost Value = { Job };

    ghost coded = { the_job.the_row.coded };

    ghost view = { λ i. i.job.now };

    ghost invariant = { λ i. AreTables i.created i.attached i.job.now.body };
}

impl<'a> IndexedJob<'a> {
    /// Goes once through the body for what it creates and attaches.
    pub fn new(alloc: Global, job: &'a Job) -> Result<IndexedJob<'a>, NoMemory>
        ensures { IfOk result (λ indexed. indexed ≡ job.now) }
    {
        let mut created = Seq::new(alloc);
        gather_created(&mut created, job.body.as_slice())?;
        let mut attached = Seq::new(alloc);
        gather_attached(&mut attached, job.body.as_slice())?;
        Ok(IndexedJob {
            job,
            created,
            attached,
        })
    }

    /// The arrays and counters.
    pub fn names(&self) -> &[Decl]
        ensures { result.now ≡ self.now.names }
    {
        self.job.names.as_slice()
    }

    /// The callbacks.
    pub fn callbacks(&self) -> &[Callback]
        ensures { result.now ≡ self.now.callbacks }
    {
        self.job.callbacks.as_slice()
    }

    /// The first creation of a group in the body. Groups other than the eight aren't in the table.
    pub fn creation_of(&self, group: i64) -> Option<Created>
        ensures { result ≡ first_created (created_in self.now.body) group }
    {
        if is_one_of_eight(group) {
            first_created(self.created.as_slice(), group)
        } else {
            created_in(self.job.body.as_slice(), &group)
        }
    }

    /// The array that is attached first to a member of a group in the body.
    pub fn attachment_of(&self, group: i64, member: i64) -> Option<&[u8]>
        ensures { option_copied result ≡ first_attached (attached_in self.now.body) group member }
    {
        if is_one_of_eight(group) && is_one_of_eight(member) {
            first_attached(self.attached.as_slice(), group, member)
        } else {
            attached_in(self.job.body.as_slice(), &group, &member)
        }
    }
}

/// Whether a number is that of a group or of a member.
pub fn is_one_of_eight(number: i64) -> bool
    ensures { result ≡ is_one_of_eight number }
{
    0 <= number && number <= LAST_OF_EIGHT
}

// ---- groups

#[tactic(auto, using(crate::proofs::Gathering::created_done))]
#[cycle(gather_created)]
fn gather_created(created: &mut Seq<Created>, body: &[Stmt]) -> Result<(), NoMemory>
    ensures { OnOk result (GrewCreated created.old created.new (created_in body.now)) }
{
    for statement in body {
        gather_created_by(created, statement)?;
    }
    Ok(())
}

#[tactic(auto, using(crate::proofs::Gathering::created_step, crate::proofs::Gathering::created_none))]
#[cycle(gather_created)]
fn gather_created_by(created: &mut Seq<Created>, statement: &Stmt) -> Result<(), NoMemory>
    ensures { OnOk result (GrewCreated created.old created.new (created_by statement.now)) }
{
    match statement {
        Stmt::Group {
            group,
            start,
            depth,
            ..
        } => add_created(
            created,
            Created {
                group: *group,
                start: *start,
                depth: *depth,
            },
        ),
        Stmt::RoleOnly { body, .. } => gather_created(created, body.as_slice()),
        Stmt::Branch { yes, no, .. } => {
            gather_created(created, yes.as_slice())?;
            if let Some(no) = no {
                gather_created(created, no.as_slice())?;
            }
            Ok(())
        }
        Stmt::Loop { body, .. } => gather_created(created, body.as_slice()),
        _ => Ok(()),
    }
}

#[tactic(auto, using(crate::proofs::Gathering::created_skipped, crate::proofs::Gathering::created_found, crate::proofs::Gathering::created_pushed))]
fn add_created(created: &mut Seq<Created>, more: Created) -> Result<(), NoMemory>
    ensures { OnOk result (GrewCreated created.old created.new (more ∷ [])) }
{
    if is_one_of_eight(more.group) && first_created(created.as_slice(), more.group).is_none() {
        created.push(more)?;
    }
    Ok(())
}

pub fn first_created(created: &[Created], group: i64) -> Option<Created>
    ensures { result ≡ first_created created.now group }
{
    created.iter().copied().find(|other| other.group == group)
}

// ---- members

#[tactic(auto, using(crate::proofs::Gathering::attached_done))]
#[cycle(gather_attached)]
fn gather_attached(attached: &mut Seq<Attached>, body: &[Stmt]) -> Result<(), NoMemory>
    ensures { OnOk result (GrewAttached attached.old attached.new (attached_in body.now)) }
{
    for statement in body {
        gather_attached_by(attached, statement)?;
    }
    Ok(())
}

#[tactic(auto, using(crate::proofs::Gathering::attached_step, crate::proofs::Gathering::attached_none))]
#[cycle(gather_attached)]
fn gather_attached_by(attached: &mut Seq<Attached>, statement: &Stmt) -> Result<(), NoMemory>
    ensures { OnOk result (GrewAttached attached.old attached.new (attached_by statement.now)) }
{
    match statement {
        Stmt::Member {
            group,
            member,
            array,
            ..
        } => add_attached(attached, *group, *member, array),
        Stmt::RoleOnly { body, .. } => gather_attached(attached, body.as_slice()),
        Stmt::Branch { yes, no, .. } => {
            gather_attached(attached, yes.as_slice())?;
            if let Some(no) = no {
                gather_attached(attached, no.as_slice())?;
            }
            Ok(())
        }
        Stmt::Loop { body, .. } => gather_attached(attached, body.as_slice()),
        _ => Ok(()),
    }
}

#[tactic(auto, using(crate::proofs::Gathering::attached_skipped, crate::proofs::Gathering::attached_found, crate::proofs::Gathering::attached_pushed))]
fn add_attached(
    attached: &mut Seq<Attached>,
    group: i64,
    member: i64,
    array: &Bytes,
) -> Result<(), NoMemory>
    ensures { OnOk result (GrewAttached attached.old attached.new (record { group = group; member = member; array = array.now } ∷ [])) }
{
    if is_one_of_eight(group)
        && is_one_of_eight(member)
        && first_attached(attached.as_slice(), group, member).is_none()
    {
        attached.push(Attached {
            group,
            member,
            array: array.copy()?,
        })?;
    }
    Ok(())
}

pub fn first_attached(attached: &[Attached], group: i64, member: i64) -> Option<&[u8]>
    ensures { option_copied result ≡ first_attached attached.now group member }
{
    let first = attached
        .iter()
        .find(|other| other.group == group && other.member == member)?;
    Some(first.array.as_slice())
}
