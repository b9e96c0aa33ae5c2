//! A run of a deck on threads.

ghost use Rattle.std.specs.Prelude.{◌≡◌, IfErr, IfOk, OnOk};
ghost use Rattle.air_model.specs.Batches.{AirsByBatches};
ghost use Rattle.air_devices.specs.Masts.{Changes, with_buckets};
ghost use Rattle.air_model.specs.Runs.{IsRun};
ghost use Rattle.air_sender.specs.AiredBytes.{aired_bytes};
ghost use Rattle.deck_runs.specs.RunAnswers.{IsRunAnswer};

pub(crate) mod sights;
pub(crate) mod stages;

use crate::jobs::conductors::ConductFault;
use crate::threads::sights::{Sights, all_sights};
use crate::threads::stages::{open_publisher, open_stage};
use air_base::NoMemory;
use air_devices::{Gate, Mast};
use air_history::History;
use air_model::reports::LookLine;
use chunk_program::Planned;
use cycle_snapshot::Told;
use std::alloc::Global;
use std::marker::Model;
use std::sync::Wait;
use std::thread::Threads;

/// A run's history; the last told note of its publisher, which tells all batches that the conductor published; and what the monitors saw: for each the
/// last look of its job, and one more look at the end.
#[derive(Drop)]
pub struct Run {
    pub history: History,
    pub last_told: Told,
    pub glances: Vec<LookLine>,
    pub looks: Vec<LookLine>,
}

impl Model for Run {
    ghost use Rattle.air_model.specs.Runs.{Run};

    ghost Value = { Run };

    ghost view = { λ r. record { history = r.history; batches = r.last_told.batches; glances = r.glances.items; looks = r.looks.items } };
}

impl Run {
    /// The run with this history, this last told note of its publisher, and what its monitors saw.
    fn new(history: History, last_told: Told, sights: Sights) -> Run
        ensures { result ≡ record { history = history; batches = last_told.batches; glances = sights.glances.items; looks = sights.looks.items } }
    {
        let Sights { glances, looks } = sights;
        Run {
            history,
            last_told,
            glances,
            looks,
        }
    }
}

/// Why a run wasn't done.
#[derive(Clone, Copy, Debug, PartialEq, Eq)]
pub enum RunFault {
    /// The mast failed, after this number of buckets of the run.
    Mast { sent: u64 },
    /// Out of memory.
    NoMemory,
}

impl From<NoMemory> for RunFault {
    ghost use Rattle.std.specs.Prelude.{◌≡◌};
    ghost use Rattle.deck_runs.specs.declared.threads.RunFault.TheVariants.{NoMemory};

    ghost from_gives = { λ _ fault. fault ≡ NoMemory };

    fn from(_error: NoMemory) -> Self {
        RunFault::NoMemory
    }
}

impl From<ConductFault> for RunFault {
    ghost use Rattle.std.specs.Prelude.{◌≡◌};
    ghost use Rattle.deck_runs.specs.RunAnswers.{run_fault};

    ghost from_gives = { λ fault answer. answer ≡ run_fault fault };

    fn from(fault: ConductFault) -> Self {
        match fault {
            ConductFault::Mast { sent } => RunFault::Mast { sent },
            ConductFault::NoMemory => RunFault::NoMemory,
        }
    }
}

/// Runs the deck on threads: its conductor, all its updaters and its monitors at the same time. The history is whole, the batches in the publisher's
/// last told note air it, the mast was sent exactly its buckets, and each monitor saw it. If the mast failed, it was sent the first `sent` buckets of a
/// whole history; after `NoMemory` the first ones, maybe none.
pub fn run_threads<R: Threads + Wait + Sync, M: Mast + Send, G: Gate + Sync>(
    rt: &R,
    alloc: Global,
    planned: &Planned,
    mast: &mut M,
    gate: &G,
) -> Result<Run, RunFault>
    ensures run { IfOk result (IsRun planned.now) }
    ensures batches { IfOk result (λ run. AirsByBatches planned.now run.history run.batches) }
    ensures aired { IfOk result (λ run. Changes (with_buckets (aired_bytes planned.now run.history)) (M.state mast.old).told (M.state mast.new).told) }
    ensures calm { OnOk result ((M.state mast.new).faults ≡ (M.state mast.old).faults) }
    ensures fault { IfErr result (IsRunAnswer M.state planned.now mast.old mast.new) }
    ensures port { (M.state mast.new).port ≡ (M.state mast.old).port }
{
    let mut stage = open_stage(alloc, planned)?;
    let (mut source, mut watchers) = open_publisher(rt, alloc, stage.planned)?;
    let conducted = stage.play(rt, alloc, &mut source, &mut watchers, mast, gate);
    let sights = all_sights(alloc, &source, watchers);
    let last_told = source.tell();
    source.close(rt);
    let history = stage.end();
    conducted?;
    let history = history?;
    let sights = sights?;
    Ok(Run::new(history, last_told, sights))
}
