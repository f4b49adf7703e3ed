//! What follows from the definitions of the links. The functions do nothing: their contracts are theorems.
ghost use Rattle.std.specs.Prelude.{◌≡◌, ◌<◌, ◌++◌, ◌∷◌, [], ℕ, true, false};
ghost use Rattle.fx_link.specs.LinkTable.{LinkTable, IsTable, procs_of, link_of, is_closed, no_links, sent, taken, rest_of, emptied, closed_to};
ghost use Rattle.fx_link.specs.declared.message.Message.{Message};

/// Where nothing was sent nothing is on the way.
pub fn new_links_are_empty()
    ensures { (procs from to : ℕ) → from < procs → to < procs → link_of (no_links procs) from to ≡ [] }
{}

/// A send to an open process adds the message to one link, as the last, and leaves all others as they were.
pub fn a_send_adds_to_one_link()
    ensures this { (links : LinkTable) (from to : ℕ) (message : Message) → IsTable links → from < procs_of links → to < procs_of links → is_closed links to ≡ false → link_of (sent links from to message) from to ≡ link_of links from to ++ message ∷ [] }
    ensures others { (links : LinkTable) (from to : ℕ) (message : Message) (a b : ℕ) → IsTable links → from < procs_of links → to < procs_of links → (a ≡ from → b ≡ to → ⊥) → link_of (sent links from to message) a b ≡ link_of links a b }
{}

/// To take a message, or to empty a link, changes that link alone.
pub fn one_link_is_taken_from()
    ensures this { (links : LinkTable) (from to : ℕ) → IsTable links → from < procs_of links → to < procs_of links → link_of (taken links from to) from to ≡ rest_of (link_of links from to) }
    ensures others { (links : LinkTable) (from to a b : ℕ) → IsTable links → from < procs_of links → to < procs_of links → (a ≡ from → b ≡ to → ⊥) → link_of (taken links from to) a b ≡ link_of links a b }
    ensures emptied { (links : LinkTable) (from to : ℕ) → IsTable links → from < procs_of links → to < procs_of links → link_of (emptied links from to) from to ≡ [] }
    ensures others_when_emptied { (links : LinkTable) (from to a b : ℕ) → IsTable links → from < procs_of links → to < procs_of links → (a ≡ from → b ≡ to → ⊥) → link_of (emptied links from to) a b ≡ link_of links a b }
{}

/// Nothing is on the way to a closed process, whatever is sent to it, and links to others are as they were.
pub fn nothing_goes_to_a_closed_process()
    ensures closed { (links : LinkTable) (from to : ℕ) → IsTable links → from < procs_of links → to < procs_of links → link_of (closed_to links to) from to ≡ [] }
    ensures later { (links : LinkTable) (from to : ℕ) (message : Message) → IsTable links → from < procs_of links → to < procs_of links → link_of (sent (closed_to links to) from to message) from to ≡ [] }
    ensures others { (links : LinkTable) (from to a b : ℕ) → IsTable links → from < procs_of links → to < procs_of links → (b ≡ to → ⊥) → link_of (closed_to links to) a b ≡ link_of links a b }
{}

/// A send to a closed process changes nothing.
pub fn a_send_to_a_closed_process_vanishes()
    ensures { (links : LinkTable) (from to : ℕ) (message : Message) → is_closed links to ≡ true → sent links from to message ≡ links }
{}

/// At first nobody is closed, and a process is closed by being closed alone: no send, no message that is
/// taken, no link that is emptied and no closing of another process changes that.
pub fn only_closing_closes()
    ensures new { (procs who : ℕ) → is_closed (no_links procs) who ≡ false }
    ensures closed { (links : LinkTable) (to : ℕ) → to < procs_of links → is_closed (closed_to links to) to ≡ true }
    ensures others { (links : LinkTable) (to who : ℕ) → (who ≡ to → ⊥) → is_closed (closed_to links to) who ≡ is_closed links who }
    ensures sent { (links : LinkTable) (from to : ℕ) (message : Message) (who : ℕ) → is_closed (sent links from to message) who ≡ is_closed links who }
    ensures taken { (links : LinkTable) (from to who : ℕ) → is_closed (taken links from to) who ≡ is_closed links who }
    ensures emptied { (links : LinkTable) (from to who : ℕ) → is_closed (emptied links from to) who ≡ is_closed links who }
{}

/// Links stay between as many processes as they were made for.
pub fn the_processes_stay_as_many()
    ensures new { (procs : ℕ) → procs_of (no_links procs) ≡ procs }
    ensures closed { (links : LinkTable) (to : ℕ) → procs_of (closed_to links to) ≡ procs_of links }
    ensures sent { (links : LinkTable) (from to : ℕ) (message : Message) → procs_of (sent links from to message) ≡ procs_of links }
    ensures taken { (links : LinkTable) (from to : ℕ) → procs_of (taken links from to) ≡ procs_of links }
    ensures emptied { (links : LinkTable) (from to : ℕ) → procs_of (emptied links from to) ≡ procs_of links }
{}

/// Links have a row for each process, with a link to each, whatever happens.
pub fn links_stay_a_table()
    ensures new { (procs : ℕ) → IsTable (no_links procs) }
    ensures sent { (links : LinkTable) (from to : ℕ) (message : Message) → IsTable links → from < procs_of links → to < procs_of links → IsTable (sent links from to message) }
    ensures taken { (links : LinkTable) (from to : ℕ) → IsTable links → from < procs_of links → to < procs_of links → IsTable (taken links from to) }
    ensures emptied { (links : LinkTable) (from to : ℕ) → IsTable links → from < procs_of links → to < procs_of links → IsTable (emptied links from to) }
    ensures closed { (links : LinkTable) (to : ℕ) → IsTable links → IsTable (closed_to links to) }
{}
