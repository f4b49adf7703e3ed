ghost use Rattle.std.specs.Prelude.{◌≡◌, ◌≤◌, ◌+◌, ◌*◌, min};
ghost use Rattle.fx_check.specs.Rules.{count_of};
ghost use Rattle.fx_check.specs.Work.{work_of, work_of_stmt};

use fx_script::Stmt;

/// One more than the most statements that one pass may take. No work is counted further.
const PAST_LIMIT: u32 = 20_001;

/// The work of statements, or 20,001 where it is more than 20,000.
#[cycle(work)]
pub fn work_up_to_limit(body: &[Stmt]) -> u32
    ensures { result ≡ min (work_of body.now) 20001 }
{
    let mut work = 0;
    for statement in body {
        work = sum_up_to_limit(work, statement_work(statement));
    }
    work
}

#[cycle(work)]
fn statement_work(statement: &Stmt) -> u32
    ensures { result ≡ min (work_of_stmt statement.now) 20001 }
{
    match statement {
        Stmt::RoleOnly { body, .. } => sum_up_to_limit(1, work_up_to_limit(body.as_slice())),
        Stmt::Branch { yes, no: None, .. } => sum_up_to_limit(1, work_up_to_limit(yes.as_slice())),
        Stmt::Branch {
            yes,
            no: Some(no),
            ..
        } => {
            let chosen = work_up_to_limit(yes.as_slice());
            let other = work_up_to_limit(no.as_slice());
            sum_up_to_limit(1, sum_up_to_limit(chosen, other))
        }
        Stmt::Loop { last, body, .. } => loop_work(*last, work_up_to_limit(body.as_slice())),
        _ => 1,
    }
}

fn loop_work(last: i64, body: u32) -> u32
    requires { body ≤ 20001 }
    ensures { result ≡ min (1 + (count_of last + 1) * (1 + body)) 20001 }
{
    let turns = count_up_to_limit(last) + 1;
    (1 + turns * (1 + body)).min(PAST_LIMIT)
}

fn count_up_to_limit(number: i64) -> u32
    ensures { result ≡ min (count_of number) 20001 }
{
    number.clamp(0, i64::from(PAST_LIMIT)) as u32
}

fn sum_up_to_limit(left: u32, right: u32) -> u32
    requires left_in { left ≤ 20001 }
    requires right_in { right ≤ 20001 }
    ensures { result ≡ min (left + right) 20001 }
{
    (left + right).min(PAST_LIMIT)
}
