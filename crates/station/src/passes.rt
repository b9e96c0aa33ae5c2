//! The passes of a station: one for each updater, through which alone it commits, and the conductor's, through which alone
//! cycles start.
//!
//! Contracts see a pass as a `PassState`: whose it is, and the beginning of the history that it has seen.
ghost use Rattle.std.specs.Prelude.{◌≡◌, ◌<◌, length, All};
ghost use Rattle.air_history.specs.Histories.{starts, EventFits};
ghost use Rattle.air_model.specs.Decks.{count_made};

use crate::locked::StationCore;
use std::marker::Model;
use turnstile::Pass;

/// An updater's pass.
#[derive(Drop)]
pub struct UpdaterPass {
    pub(crate) pass: Pass<StationCore>,
    pub(crate) by: u32,
    pub(crate) made: u32,
}

impl Model for UpdaterPass {
    ghost use Rattle.station.specs.PassStates.{PassState};
    ghost use Rattle.station.specs.PassFields.{pass_in, IsUpdater};

    ghost Value = { PassState };

    ghost view = { λ p. pass_in p.pass p.by };

    ghost invariant = { λ p. IsUpdater p.pass p.by p.made };
}

impl UpdaterPass {
    /// The number of its updater.
    pub fn by(&self) -> u32
        ensures told { result ≡ self.now.number }
        ensures within { result < self.now.updaters }
    {
        self.by
    }

    /// The number of commits that it made.
    pub fn made(&self) -> u32
        ensures { result ≡ count_made self.now.number self.now.seen }
    {
        self.made
    }

    /// Gives a caller's proof the fact that each event that the pass has seen fits; it does nothing.
    pub fn shows_events_fit(&self)
        ensures { All (EventFits self.now.updaters (length self.now.values)) self.now.seen }
    {
        let _by = self.by;
    }
}

/// The conductor's pass.
#[derive(Drop)]
pub struct ConductorPass {
    pub(crate) pass: Pass<StationCore>,
    pub(crate) started: u32,
}

impl Model for ConductorPass {
    ghost use Rattle.station.specs.PassStates.{PassState};
    ghost use Rattle.station.specs.PassFields.{conductor_in, IsConductor};

    ghost Value = { PassState };

    ghost view = { λ p. conductor_in p.pass };

    ghost invariant = { λ p. IsConductor p.pass p.started };
}

impl ConductorPass {
    /// The number of cycles that it started.
    pub fn started(&self) -> u32
        ensures { result ≡ starts self.now.seen }
    {
        self.started
    }

    /// Gives a caller's proof the fact that each event that the pass has seen fits; it does nothing.
    pub fn shows_events_fit(&self)
        ensures { All (EventFits self.now.updaters (length self.now.values)) self.now.seen }
    {
        let _started = self.started;
    }
}
