//! Laws of the definitions alone.

ghost use Rattle.std.specs.Prelude.{◌≡◌, ◌↔◌, ℕ, ◌-◌, List, take, Ok, Err};
ghost use Rattle.fx_text.specs.Lines.{Line, lines_of};
ghost use Rattle.fx_script.specs.declared.job.Job.{Job};
ghost use Rattle.fx_script.specs.Canonical.{canonical, without_spots, HasText, CanBeWritten, SpellsAlone};
ghost use Rattle.fx_script.specs.Reading.{Refusal, job_in, sound};
ghost use Rattle.fx_script.specs.Refused.{behind_ends, in_front_of, refused_through, GoesOnAtLength, GoesOnBehind, IsRefusedForWords};
ghost use Rattle.fx_script.specs.SaidLines.{lines_joined, AreTextLines, IsSound};
ghost use Rattle.fx_script.specs.Spelling.{Spells};

/// A text spells at most one job.
pub fn a_text_spells_one_job()
    ensures { (text : List ℕ) (a b : Job) → Spells text a → Spells text b → a ≡ b }
{}

/// The job that a text spells is the one that is read from it, and what is read from it is what it spells.
pub fn reading_is_spelling()
    ensures read { (text : List ℕ) (job : Job) → Spells text job → job_in text ≡ Ok job }
    ensures spelled { (text : List ℕ) (job : Job) → job_in text ≡ Ok job → Spells text job }
{}

/// The canonical text of a job spells it and, spots aside, no other job.
pub fn the_canonical_text_spells_its_job_alone()
    ensures { (job : Job) → HasText job → SpellsAlone (canonical job) job }
{}

/// Jobs that are the same but for their spots have one canonical text.
pub fn jobs_alike_have_one_text()
    ensures { (a b : Job) → without_spots a ≡ without_spots b → canonical a ≡ canonical b }
{}

/// The lines of a text are its bytes, cut behind each line end.
pub fn a_text_is_its_lines()
    ensures whole { (text : List ℕ) → lines_joined (lines_of text) ≡ text }
    ensures cut { (text : List ℕ) → AreTextLines (lines_of text) }
{}

/// Nothing is wrong with a line exactly where it is sound.
pub fn nothing_is_wrong_with_a_sound_line()
    ensures { (line : Line) → (sound line ≡ Ok tt) ↔ IsSound line }
{}

/// A text that agrees with a refused one up to and with the refused bytes spells no job.
pub fn no_text_goes_on_behind_a_refused_word()
    ensures { (text other : List ℕ) (r : Refusal) (job : Job) → job_in text ≡ Err r → take (refused_through text r) other ≡ take (refused_through text r) text → Spells other job → ⊥ }
{}

/// Some text that agrees with a refused one on the lines in front of the refused line spells a job.
pub fn the_lines_in_front_of_a_refused_one_go_on()
    ensures { (text : List ℕ) (r : Refusal) → job_in text ≡ Err r → GoesOnBehind text (behind_ends text (r.spot.line - 1)) }
{}

/// Some text that agrees with one that is refused for its words up to before the refused word spells a job, but for
/// the length of its lines.
pub fn a_text_goes_on_up_to_a_refused_word()
    ensures { (text : List ℕ) (r : Refusal) → job_in text ≡ Err r → IsRefusedForWords text r → GoesOnAtLength text (in_front_of text r.spot) }
{}

/// The jobs that have a text are exactly those that can be written in lines of at most 1,024 bytes.
pub fn the_jobs_that_have_a_text()
    ensures { (job : Job) → HasText job ↔ CanBeWritten job }
{}
