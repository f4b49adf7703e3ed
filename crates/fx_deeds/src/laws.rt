//! The laws on which all others about the machine of one rank and the world stand.
ghost use Rattle.std.specs.Prelude.{◌≡◌, ℕ, List, Some};
ghost use Rattle.fx_machine.specs.Nodes.{Node, Act};
ghost use Rattle.fx_machine.specs.Setup.{Setup};
ghost use Rattle.fx_machine.specs.Steps.{next};
ghost use Rattle.fx_fleet.specs.Rounds.{Moment, whole};
ghost use Rattle.fx_deeds.specs.Always.{KnowThemselves, ToldOfKilled};
ghost use Rattle.fx_deeds.specs.Deeds.{Deed};
ghost use Rattle.fx_deeds.specs.Streams.{Keeps, Streams};

/// Each step of a node is one of its deeds, with what enables it. Of other processes nothing is read away by it, nothing is learned
/// of losses, and its own votes and estimates are only added to.
pub fn each_step_is_a_deed()
    ensures deed { (s : Setup) (n : Node) (act : Act) → next s n ≡ Some act → Deed s n act }
    ensures keeps { (s : Setup) (n : Node) (act : Act) → next s n ≡ Some act → Keeps n act.node }
{}

/// In every world that arises, the node at a process is its own, and who is told lost was killed.
pub fn losses_are_true()
    ensures own { (s : Setup) (fuel bound : ℕ) (moments : List Moment) → KnowThemselves (whole s fuel bound moments) }
    ensures killed { (s : Setup) (fuel bound : ℕ) (moments : List Moment) → ToldOfKilled (whole s fuel bound moments) }
{}

/// In every world that arises, what a process that is up has of another and what is under way to it from there, in this order, is all
/// that the other ever said to it, unless it was told of the other's loss.
pub fn nothing_is_lost_under_way()
    ensures { (s : Setup) (fuel bound : ℕ) (moments : List Moment) → Streams s (whole s fuel bound moments) }
{}
