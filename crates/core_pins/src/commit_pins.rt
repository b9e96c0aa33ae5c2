//! These pins of `update_commit` say what a core of one updater and one item gives.
//!
//! Its values, its receipts and the copies of its events are those of the history.
#![tactic(auto, unfolding(air_history::specs::Histories::is_start, air_history::specs::Histories::reads, air_history::specs::Histories::writes, air_history::specs::Histories::writes_of, air_history::specs::Histories::starts, air_history::specs::Histories::cycle_at, air_history::specs::Histories::since_start, air_history::specs::Histories::EventFits, air_history::specs::Tables::value_on_base, air_history::specs::Tables::write_of, air_history::specs::Tables::value_after, air_history::specs::Tables::table))]

ghost use Rattle.std.specs.Prelude.{◌≡◌, ◌≤◌, [], ◌∷◌, OnOk, MatchResult};
ghost use Rattle.air_history.specs.declared.histories.Event.TheVariants.{Start};
ghost use Rattle.core_pins.specs.Commits.{set_to, add_to, update_of, commit};
ghost use Rattle.core_pins.specs.SmallCores.{core_of};

use air_base::NoMemory;
use air_history::{Event, Update};
use std::alloc::Global;
use update_commit::{Core, Receipt};

/// A copy of a commit has the commit's number, and the first event after the start is copied too. It also refuses that the
/// copies begin one event too late.
/// Promise: the core appends and replies
pub fn copies_of_commits_lose_their_number(
    alloc: Global,
    core: &Core,
    out: &mut Vec<Event>,
) -> Result<(), NoMemory>
    requires core { core.now ≡ core_of (commit 0 [] (set_to 0 5) ∷ Start ∷ commit 1 [] (set_to 0 6) ∷ []) }
    requires out { out.old.items ≡ [] }
    ensures { MatchResult result (λ _. out.new.items ≡ commit 1 [] (set_to 0 6) ∷ []) (λ _. out.new.items ≡ []) }
{
    core.since_start(alloc, out)
}

/// Room that was given is there.
/// Promise: the core appends and replies
pub fn no_room_made(core: &mut Core) -> Result<(), NoMemory>
    requires { core.old.spare ≡ 0 }
    ensures { OnOk result (3 ≤ core.new.spare) }
{
    core.reserve(3)
}

/// A receipt has as read the values from before the commit, and as written those of one run; its number is the number of events
/// before it. It also refuses that the update is run twice, and that the number counts the commit itself.
/// Promise: the core appends and replies
pub fn read_values_from_after_the_commit(core: &mut Core, update: Update, into: &mut Receipt)
    requires core { core.old ≡ core_of [] }
    requires update { update ≡ update_of (0 ∷ []) (add_to 0 0 1) }
    requires into { into.old ≡ record { number = 7; cycle = 7; read = 0 ∷ []; written = 0 ∷ [] } }
    ensures { into.new ≡ record { number = 0; cycle = 0; read = 10 ∷ []; written = 11 ∷ [] } }
{
    core.commit(0, update, into);
}

/// A value is the one after all events.
/// Promise: the core appends and replies
pub fn value_from_before_all_events(core: &Core) -> u64
    requires { core.now ≡ core_of (commit 0 [] (set_to 0 5) ∷ []) }
    ensures { result ≡ 5 }
{
    core.value(0)
}
