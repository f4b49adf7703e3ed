//! Laws of the definitions alone.

ghost use Rattle.std.specs.Prelude.{◌≡◌, ◌↔◌, List, None, Some, map};
ghost use Rattle.fx_script.specs.Spelling.{chained};
ghost use Rattle.fx_script.specs.declared.job.Job.{Job};
ghost use Rattle.fx_script.specs.declared.job.Stmt.{Stmt};
ghost use Rattle.fx_check.specs.Acceptance.{IsAccepted, Refused, refusal_of, stmts_lines};
ghost use Rattle.fx_check.specs.Facts.{Facts, attached_in, created_in};
ghost use Rattle.fx_check.specs.Parts.{IsRefusal};
ghost use Rattle.fx_check.specs.Statements.{attachment_in, creation_in, line_at, standing_in};
ghost use Rattle.fx_check.specs.declared.surroundings.Surroundings.{Surroundings};

/// A job keeps every rule exactly where it is refused for nothing.
pub fn accepted_where_not_refused()
    ensures { (job : Job) → IsAccepted job ↔ (refusal_of job ≡ None) }
{}

/// A job is refused exactly at the first line that breaks a rule, for the reason of the first rule
/// that it breaks; or, where no line breaks one, exactly for too much work, at the line `begin`.
pub fn the_first_line_and_reason_are_told()
    ensures { (job : Job) (refused : Refused) → (refusal_of job ≡ Some refused) ↔ IsRefusal job refused }
{}

/// What a body comes to is what its statements come to, one by one in the order of their lines,
/// those in one another included: its lines, the groups that it creates, the members that it
/// attaches.
pub fn a_body_is_its_statements()
    ensures lines { (f : Facts) (body : List Stmt) (place : Surroundings) → stmts_lines f body place ≡ map (line_at f) (standing_in body place) }
    ensures created { (body : List Stmt) (place : Surroundings) → created_in body ≡ chained (map (λ s. creation_in s.bare) (standing_in body place)) }
    ensures attached { (body : List Stmt) (place : Surroundings) → attached_in body ≡ chained (map (λ s. attachment_in s.bare) (standing_in body place)) }
{}
