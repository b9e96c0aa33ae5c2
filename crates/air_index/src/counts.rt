//! How many records an indexed tape has, before anything is aired.

ghost use Rattle.std.specs.Prelude.{◌≡◌, ◌+◌};
ghost use Rattle.air_index.specs.IndexedTapes.{minors_after, slots_after};

use chunk_program::Plans;

/// The number of records of the indexed tape of the first `cycles` cycles, and how many of them are index records.
pub fn beam_counts(plans: &Plans, cycles: u32) -> (u64, u64)
    ensures records { result.0 ≡ slots_after plans.now 0 cycles + minors_after plans.now 0 cycles }
    ensures indexes { result.1 ≡ minors_after plans.now 0 cycles }
{
    let mut data = 0u64;
    let mut indexes = 0u64;
    let mut done = 0u32;
    for edition in 0..plans.editions() {
        let end = plans.cycles_up_to(edition, cycles);
        let more = u64::from(end - done);
        let program = plans.program(edition);
        data += more * u64::from(program.slots());
        indexes += more * u64::from(program.minors());
        done = end;
    }
    (data + indexes, indexes)
}
