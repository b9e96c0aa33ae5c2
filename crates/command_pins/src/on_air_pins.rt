//! These pins say what `run_on_air` gives for a run: report and tape are the definitions' for one whole history. They also say when a run is refused
//! for the length of its tape, and with which number.
#![tactic(auto, unfolding(air_cli::specs::GivenRuns::IsRunRefusal))]

ghost use Rattle.std.specs.Prelude.{◌≡◌, ◌≢◌, ◌<◌, [], ◌∷◌, length, map, Err, IfOk, IfSome};
ghost use Rattle.air_model.specs.Aired.{air_of, slots_at};
ghost use Rattle.air_model.specs.Decks.{IsWhole};
ghost use Rattle.air_model.specs.Outputs.{run_output, run_tape};
ghost use Rattle.air_model.specs.declared.reports.LookLine.{LookLine};
ghost use Rattle.air_sender.specs.TapeSizes.{tape_size};
ghost use Rattle.air_model.specs.Runs.{Run};

use air_cli::{ReportAndTape, run_on_air};
use air_devices::Gate;
use air_report::Status;
use chunk_program::Planned;
use deck_runs::long_run;
use std::alloc::Global;
use std::sync::Wait;
use std::thread::Threads;

/// Report and tape are those of one whole history, with a look of each of the two monitors. A run is never refused for what was read or is to be
/// written (always a write fault). It also refuses a report of another history, another tape or none, and a report without its looks or its verdicts.
/// Promise: run prints what it aired
pub fn always_a_read_fault<R: Threads + Wait + Sync, G: Gate + Sync>(
    rt: &R,
    alloc: Global,
    planned: &Planned,
    gate: &G,
) -> Result<ReportAndTape, Status>
    requires { planned.now.settings.monitors ≡ 2 }
    ensures gives { IfOk result (λ given. (run : Run) × IsWhole planned.now run.history
        × (map (λ (line : LookLine). line.monitor) run.looks ≡ 0 ∷ 1 ∷ [])
        × (given.text ≡ run_output planned.now run.history run.glances run.looks)
        × (given.tape ≡ run_tape planned.now run.history)) }
    ensures read { result ≢ Err Status.ReadFault }
    ensures written { result ≢ Err Status.WriteFault }
{
    run_on_air(rt, alloc, planned, gate)
}

/// A tape is too long only if it has more bytes than a tape may have.
/// Promise: every answer is a named one
/// Promise: run prints what it aired
pub fn longest_run_refused(planned: &Planned) -> Option<u64>
    ensures { IfSome result (λ bytes. 1_073_741_824 < bytes) }
{
    long_run(planned)
}

/// A tape that is too long has the bytes of each of the deck's three cycles, by the program in force in it.
/// Promise: run prints what it aired
pub fn monitors_for_cycles(planned: &Planned) -> Option<u64>
    requires { planned.now.settings.cycles ≡ 3 }
    ensures { IfSome result (λ bytes. bytes ≡ tape_size planned.now.settings.version (length planned.now.items) (slots_at (air_of planned.now)) 3) }
{
    long_run(planned)
}
