//! The conductor's job.
ghost use Rattle.std.specs.Prelude.{◌≡◌, ◌<◌, ◌≤◌, ◌+◌, ◌^◌, length, IfErr, MatchResult, OnErr, OnOk};
ghost use Rattle.air_base.specs.declared.verdicts.Policy.TheVariants.{FMatrix};
ghost use Rattle.air_history.specs.Histories.{starts};
ghost use Rattle.air_model.specs.Aired.{Air};
ghost use Rattle.deck_runs.specs.PublishedBatches.{AreInStep, GoesOn, IsBoardOf, IsPublishedUpTo, PublishesOn};
ghost use Rattle.deck_runs.specs.Sendings.{CanAirIn, IsAirOf, IsFailure, SendsCycles, SendsUpTo};

use crate::jobs::airings::{Airing, WithoutGroups};
use crate::jobs::cycles::conduct_cycle;
use crate::jobs::means::Means;
use air_base::{Form, NoMemory};
use air_devices::{Gate, Mast};
use chunk_program::Plans;
use control_matrix::Board;
use cycle_snapshot::Publisher;
use group_matrix::GroupBoard;
use station::{ConductorPass, Station};
use std::alloc::Global;
use std::sync::Wait;

/// Why not all cycles were conducted.
#[derive(Clone, Copy, Debug, PartialEq, Eq)]
pub enum ConductFault {
    /// The mast failed, after this number of buckets of the call. The started cycle is published whole; of its buckets those before the failed one were sent.
    Mast { sent: u64 },
    /// Out of memory. The cycles before were conducted.
    NoMemory,
}

impl From<NoMemory> for ConductFault {
    ghost use Rattle.std.specs.Prelude.{◌≡◌};
    ghost use Rattle.deck_runs.specs.declared.jobs.conductors.ConductFault.TheVariants.{NoMemory};

    ghost from_gives = { λ _ fault. fault ≡ NoMemory };

    fn from(_error: NoMemory) -> Self {
        ConductFault::NoMemory
    }
}

/// Conducts this number of cycles, in this form. A cycle starts; its fresh events are applied to the board, once each; they are published as one
/// batch; and the buckets of the program in force in the cycle are sent.
///
/// The buckets sent are those of the history that the pass has seen, by each air of this form and these plans without groups. Regardless of the
/// answer, the board is that of what the pass has seen up to its last start. `ConductorPass::started` gives the number of cycles that the pass
/// started, `Board::n` the number of values, and `entry_size` the bytes that the buffer needs for each. `Plans::plan` makes the deck's plans, whose
/// programs have its items. Each cycle is between its two gate calls; no clause speaks of these.
pub fn conductor_job<R: Wait, M: Mast, G: Gate>(
    wait: &R,
    alloc: Global,
    station: &Station,
    pass: &mut ConductorPass,
    publisher: &mut Publisher,
    board: &mut Board,
    plans: &Plans,
    form: Form,
    cycles: u32,
    mast: &mut M,
    buf: &mut [u8],
    gate: &G,
) -> Result<(), ConductFault>
    requires own { pass.old.station ≡ station.now }
    requires step { AreInStep pass.old publisher.old board.old }
    requires room { (starts pass.old.seen + cycles ≤ publisher.old.most) × (starts pass.old.seen + cycles + 1 < 2 ^ 32) }
    requires airable { CanAirIn form pass.old.values plans.now (length buf.old) }
    ensures pass { GoesOn pass.old pass.new }
    ensures publisher { PublishesOn publisher.old publisher.new }
    ensures done { OnOk result (AreInStep pass.new publisher.new board.new × (starts pass.new.seen ≡ starts pass.old.seen + cycles)) }
    ensures board { IsBoardOf pass.new board.new }
    ensures few { OnErr result (starts pass.new.seen ≤ starts pass.old.seen + cycles) }
    ensures published { IfErr result (IsPublishedUpTo pass.new.seen publisher.new.batches) }
    ensures aired { (air : Air) → IsAirOf 0 pass.old.values form plans.now air →
        MatchResult result (λ _. SendsCycles pass.old.values air cycles pass.old.seen pass.new.seen (M.state mast.old).told (M.state mast.new).told) (SendsUpTo M.state pass.old.values air cycles pass.old pass.new publisher.old publisher.new mast.old mast.new) }
    ensures cause { MatchResult result (λ _. (M.state mast.new).faults ≡ (M.state mast.old).faults) (IsFailure (M.state mast.old).faults (M.state mast.new).faults) }
    ensures port { (M.state mast.new).port ≡ (M.state mast.old).port }
    ensures buffer { length buf.new ≡ length buf.old }
{
    let mut airing = WithoutGroups;
    conduct_all(
        wait,
        alloc,
        station,
        pass,
        publisher,
        board,
        &mut airing,
        plans,
        form,
        cycles,
        mast,
        buf,
        gate,
    )
}

/// Conducts this number of cycles as `conductor_job` does, but airs by groups: after a cycle's events are applied to the board, the groups are filled
/// from it, and the buckets have the columns of the groups. What is published has the board's own.
pub fn group_conductor_job<R: Wait, M: Mast, G: Gate>(
    wait: &R,
    alloc: Global,
    station: &Station,
    pass: &mut ConductorPass,
    publisher: &mut Publisher,
    board: &mut Board,
    groups: &mut GroupBoard,
    plans: &Plans,
    form: Form,
    cycles: u32,
    mast: &mut M,
    buf: &mut [u8],
    gate: &G,
) -> Result<(), ConductFault>
    requires own { pass.old.station ≡ station.now }
    requires step { AreInStep pass.old publisher.old board.old }
    requires room { (starts pass.old.seen + cycles ≤ publisher.old.most) × (starts pass.old.seen + cycles + 1 < 2 ^ 32) }
    requires airable { CanAirIn form pass.old.values plans.now (length buf.old) }
    requires groups { (length groups.old.values ≡ length pass.old.values) × (1 ≤ groups.old.group) }
    requires columns { form.policy ≡ FMatrix }
    ensures pass { GoesOn pass.old pass.new }
    ensures publisher { PublishesOn publisher.old publisher.new }
    ensures done { OnOk result (AreInStep pass.new publisher.new board.new × (starts pass.new.seen ≡ starts pass.old.seen + cycles)) }
    ensures board { IsBoardOf pass.new board.new }
    ensures few { OnErr result (starts pass.new.seen ≤ starts pass.old.seen + cycles) }
    ensures published { IfErr result (IsPublishedUpTo pass.new.seen publisher.new.batches) }
    ensures kept { (groups.new.group ≡ groups.old.group) × (length groups.new.values ≡ length groups.old.values) }
    ensures aired { (air : Air) → IsAirOf groups.old.group pass.old.values form plans.now air →
        MatchResult result (λ _. SendsCycles pass.old.values air cycles pass.old.seen pass.new.seen (M.state mast.old).told (M.state mast.new).told) (SendsUpTo M.state pass.old.values air cycles pass.old pass.new publisher.old publisher.new mast.old mast.new) }
    ensures cause { MatchResult result (λ _. (M.state mast.new).faults ≡ (M.state mast.old).faults) (IsFailure (M.state mast.old).faults (M.state mast.new).faults) }
    ensures port { (M.state mast.new).port ≡ (M.state mast.old).port }
    ensures buffer { length buf.new ≡ length buf.old }
{
    conduct_all(
        wait, alloc, station, pass, publisher, board, groups, plans, form, cycles, mast, buf, gate,
    )
}

/// Conducts this number of cycles, aired from the board or from its groups.
fn conduct_all<R: Wait, A: Airing, M: Mast, G: Gate>(
    wait: &R,
    alloc: Global,
    station: &Station,
    pass: &mut ConductorPass,
    publisher: &mut Publisher,
    board: &mut Board,
    airing: &mut A,
    plans: &Plans,
    form: Form,
    cycles: u32,
    mast: &mut M,
    buf: &mut [u8],
    gate: &G,
) -> Result<(), ConductFault>
    requires own { pass.old.station ≡ station.now }
    requires step { AreInStep pass.old publisher.old board.old }
    requires room { (starts pass.old.seen + cycles ≤ publisher.old.most) × (starts pass.old.seen + cycles + 1 < 2 ^ 32) }
    requires airable { CanAirIn form pass.old.values plans.now (length buf.old) }
    requires suits { A.suits airing.old (length pass.old.values) form }
    ensures pass { GoesOn pass.old pass.new }
    ensures publisher { PublishesOn publisher.old publisher.new }
    ensures done { OnOk result (AreInStep pass.new publisher.new board.new × (starts pass.new.seen ≡ starts pass.old.seen + cycles)) }
    ensures board { IsBoardOf pass.new board.new }
    ensures few { OnErr result (starts pass.new.seen ≤ starts pass.old.seen + cycles) }
    ensures published { IfErr result (IsPublishedUpTo pass.new.seen publisher.new.batches) }
    ensures kept { (A.group airing.new ≡ A.group airing.old) × A.suits airing.new (length pass.old.values) form }
    ensures aired { (air : Air) → IsAirOf (A.group airing.old) pass.old.values form plans.now air →
        MatchResult result (λ _. SendsCycles pass.old.values air cycles pass.old.seen pass.new.seen (M.state mast.old).told (M.state mast.new).told) (SendsUpTo M.state pass.old.values air cycles pass.old pass.new publisher.old publisher.new mast.old mast.new) }
    ensures cause { MatchResult result (λ _. (M.state mast.new).faults ≡ (M.state mast.old).faults) (IsFailure (M.state mast.old).faults (M.state mast.new).faults) }
    ensures port { (M.state mast.new).port ≡ (M.state mast.old).port }
    ensures buffer { length buf.new ≡ length buf.old }
{
    let means = Means::new(wait, alloc, station, plans, form);
    let mut sent = 0u64;
    for _k in 0..cycles {
        let cycle = pass.started() + 1;
        gate.before_cycle(cycle);
        let slots = conduct_cycle(&means, sent, pass, publisher, board, airing, mast, buf)?;
        sent += u64::from(slots);
        gate.after_cycle(cycle);
    }
    Ok(())
}
