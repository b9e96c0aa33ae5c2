//! The last look, after a monitor learned what is published.

use air_base::NoMemory;
use air_model::reports::LookLine;
use cycle_snapshot::publisher;
use deck_runs::last_look;
use std::alloc::Global;
use std::sync::Wait;
use std::test::Fail;

/// The last look of a monitor of two values, if nothing was published.
fn line_of_last_look<R: Wait>(wait: &R, alloc: Global) -> Result<Option<LookLine>, NoMemory> {
    let (source, mut monitors) = publisher(wait, alloc, &[10, 20], 1, 5)?;
    let line = match monitors.pop() {
        Some(mut monitor) => last_look(&mut monitor, &source),
        None => Err(NoMemory),
    };
    source.close(wait);
    match line {
        Ok(line) => Ok(Some(line)),
        Err(_) => Ok(None),
    }
}

#[test]
fn a_last_look_before_any_cycle_shows_the_first_values(rt: HostRuntime) -> Result<(), Fail> {
    let first = LookLine {
        monitor: 0,
        cycle: 0,
        total: 30,
    };
    assert_eq!(rt; line_of_last_look(&rt, rt.alloc())?, Some(first));
    Ok(())
}
