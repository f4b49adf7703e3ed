ghost use Rattle.std.specs.Prelude.{◌≡◌};
ghost use Rattle.fx_cli.specs.Built.{body_marks, first_in, first_unbuilt, stmt_marks};

use fx_base::Spot;
use fx_script::{Job, Stmt};

/// The place of the first line of an accepted job that can't be run yet. It stands in the body: each event can be run.
pub fn first_unbuilt(job: &Job) -> Option<Spot>
    ensures { result ≡ first_unbuilt job.now }
{
    first_of_body(job.body.as_slice())
}

#[cycle(first_of_body)]
fn first_of_body(body: &[Stmt]) -> Option<Spot>
    ensures { result ≡ first_in (body_marks body.now) }
{
    for statement in body {
        let first = first_of(statement);
        if first.is_some() {
            return first;
        }
    }
    None
}

#[cycle(first_of_body)]
fn first_of(statement: &Stmt) -> Option<Spot>
    ensures { result ≡ first_in (stmt_marks statement.now) }
{
    match statement {
        Stmt::Let { .. } | Stmt::Set { .. } | Stmt::Print { .. } | Stmt::Register { .. } => None,
        Stmt::Barrier { .. } | Stmt::Reduce { .. } | Stmt::Agree { .. } | Stmt::Shift { .. } =>
            None,
        Stmt::RoleOnly { body, .. } => first_of_body(body.as_slice()),
        Stmt::Branch { yes, no, .. } => match no {
            None => first_of_body(yes.as_slice()),
            Some(no) => {
                let first = first_of_body(yes.as_slice());
                if first.is_some() {
                    return first;
                }
                first_of_body(no.as_slice())
            }
        },
        Stmt::Loop { body, .. } => first_of_body(body.as_slice()),
        other => Some(other.spot()),
    }
}
