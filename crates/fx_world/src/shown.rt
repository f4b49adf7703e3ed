ghost use Rattle.std.specs.Prelude.{◌≡◌};
ghost use Rattle.fx_fleet.specs.Rounds.{is_of_journal};
ghost use Rattle.fx_world.specs.Texts.{is_shown, process_of};

use fx_base::Proc;
use fx_item::Item;

/// Which items are written, each as a line.
#[derive(Clone, Copy, Debug, PartialEq, Eq)]
pub enum Shown {
    /// Those of the journal: all but sends, deliveries and notices.
    Journal,
    /// All.
    Wire,
    /// Those of the journal whose lines name the process first: what happens to it.
    Only(Proc),
    /// None.
    Nothing,
}

/// Whether an item is written.
pub(crate) fn is_shown(shown: Shown, item: &Item) -> bool
    ensures { result ≡ is_shown shown item.now }
{
    match shown {
        Shown::Journal => is_of_journal(item),
        Shown::Wire => true,
        Shown::Only(process) => is_of_journal(item) && process_of(item) == process,
        Shown::Nothing => false,
    }
}

fn is_of_journal(item: &Item) -> bool
    ensures { result ≡ is_of_journal item.now }
{
    !matches!(
        item,
        Item::Send { .. } | Item::Deliver { .. } | Item::Told { .. }
    )
}

// The process that an item's line names first.
fn process_of(item: &Item) -> Proc
    ensures { result ≡ process_of item.now }
{
    match item {
        Item::Kill { p }
        | Item::Join { p, .. }
        | Item::Repaired { p, .. }
        | Item::Callback { p, .. }
        | Item::Init { p, .. }
        | Item::Print { p, .. }
        | Item::Attach { p, .. }
        | Item::Store { p, .. }
        | Item::Commit { p, .. }
        | Item::Restore { p, .. }
        | Item::Refused { p, .. }
        | Item::Barrier { p, .. }
        | Item::Reduce { p, .. }
        | Item::Agree { p, .. }
        | Item::Shift { p, .. }
        | Item::Group { p, .. }
        | Item::Close { p, .. }
        | Item::Drop { p, .. }
        | Item::Passed { p, .. }
        | Item::Value { p, .. }
        | Item::Shifted { p, .. }
        | Item::Created { p, .. }
        | Item::Closed { p, .. }
        | Item::Failed { p, .. }
        | Item::Revoked { p, .. }
        | Item::Ended { p }
        | Item::Send { p, .. }
        | Item::Deliver { p, .. }
        | Item::Told { p, .. } => *p,
    }
}
