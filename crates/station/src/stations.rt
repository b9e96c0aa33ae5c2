//! A station, and how it is made with its passes.
ghost use Rattle.std.specs.Prelude.{◌≡◌, ℕ, ◌<◌, ◌≤◌, ◌^◌, [], length, slice_get, vec_capacity, IfOk, Some};
ghost use Rattle.station.specs.PassStates.{new_pass};
ghost use Rattle.station.specs.PassFields.{pass_in, IsUpdater};

use crate::locked::StationCore;
use crate::passes::{ConductorPass, UpdaterPass};
use air_base::NoMemory;
use item_catalog::Deck;
use std::alloc::Global;
use std::marker::Model;
use turnstile::{Pass, Turnstile};
use update_commit::Core;

/// One history, which its passes make. In clauses its value is its turnstile's number.
#[derive(Drop)]
pub struct Station {
    pub(crate) turnstile: Turnstile<StationCore>,
}

impl Model for Station {
    ghost use Rattle.atomic_table.specs.Seated.{table_id_coded};
    ghost use Rattle.turnstile.specs.Passes.{TurnstileId};

    ghost Value = { TurnstileId };

    ghost coded = { table_id_coded };

    ghost view = { λ s. s.turnstile };
}

/// Makes each pass that of the updater with its number.
fn hand_out(all: Vec<Pass<StationCore>>, passes: &mut Vec<UpdaterPass>)
    requires room { (passes.old.items ≡ []) × (length all.items ≤ vec_capacity passes.old) }
    requires few { length all.items < 2 ^ 32 }
    requires each { (by : ℕ) (pass : _) → slice_get all.items by ≡ Some pass → IsUpdater pass by 0 }
    ensures count { length passes.new.items ≡ length all.items }
    ensures each { (by : ℕ) (p : _) → slice_get passes.new.items by ≡ Some p →
        (pass : _) × (slice_get all.items by ≡ Some pass) × (p ≡ pass_in pass by) }
{
    for pass in all {
        let by = passes.len() as u32;
        passes.push_reserved(UpdaterPass { pass, by, made: 0 });
    }
}

impl Station {
    /// A station over the deck's values, with a pass for each of its updaters, in their order, and one for the conductor. No pass has seen an event.
    pub fn new(
        alloc: Global,
        deck: &Deck,
    ) -> Result<(Station, Vec<UpdaterPass>, ConductorPass), NoMemory>
        ensures count { IfOk result (λ made. length made.1.items ≡ length deck.now.updates) }
        ensures each { IfOk result (λ made. (by : ℕ) (p : _) → slice_get made.1.items by ≡ Some p → p ≡ new_pass made.0 deck.now by) }
        ensures conductor { IfOk result (λ made. made.2 ≡ new_pass made.0 deck.now (length deck.now.updates)) }
    {
        let updaters = deck.updaters();
        let values = deck.values(alloc)?;
        let core = Core::new(alloc, &values, updaters)?;
        let mut passes = Vec::with_capacity(alloc, updaters as usize)?;
        let (turnstile, mut all) = Turnstile::new(alloc, StationCore { core }, updaters + 1)?;
        let Some(pass) = all.pop() else {
            unreachable!()
        };
        hand_out(all, &mut passes);
        Ok((
            Station { turnstile },
            passes,
            ConductorPass { pass, started: 0 },
        ))
    }
}
