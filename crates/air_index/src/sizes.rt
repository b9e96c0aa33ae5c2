//! How long an indexed tape is, before anything is aired.

ghost use Rattle.std.specs.Prelude.{◌≡◌, ◌⊎◌, ◌≤◌, ◌+◌, ◌*◌, length, sum_by};
ghost use Rattle.air_base.specs.declared.limits.TheConstants.{MOST_ITEMS, MOST_SLOTS};
ghost use Rattle.air_model.specs.Disks.{all_items};
ghost use Rattle.air_model.specs.Programs.{program as slots_of};
ghost use Rattle.chunk_program.specs.Editions.{HaveItems};
ghost use Rattle.air_index.specs.IndexedTapes.{indexed_size, marks_size, slot_size};
ghost use Rattle.air_index.specs.OnAir.{marks_of};

use crate::places::{DATA_HEAD, INDEX_ENTRY, INDEX_HEAD};
use air_base::Form;
use bucket_codec::entry_size;
use bucket_codec::offsets::{ENTRY_BYTES, HEAD_BYTES, LENGTH_BYTES};
use chunk_program::{Plans, Program};

/// The bytes of a data record on a tape, before the entries of its bucket.
const RECORD_HEAD: u64 = (LENGTH_BYTES + DATA_HEAD + HEAD_BYTES) as u64;

/// The length in bytes of the data records of one cycle.
fn data_len(program: &Program, n: u16, version: u8) -> u64
    requires { length (all_items program.now.disks) ≡ n }
    ensures len { result ≡ sum_by (slot_size version n) (slots_of program.now.disks) }
    ensures few { result ≤ (LENGTH_BYTES + DATA_HEAD + HEAD_BYTES + ENTRY_BYTES * MOST_ITEMS) * MOST_SLOTS }
{
    program.shows_well_made();
    let entries = (entry_size(version) * usize::from(n)) as u64;
    let mut len = 0;
    for slot in 0..program.slots() {
        len += match program.slot_item(slot) {
            None => RECORD_HEAD,
            Some(_) => RECORD_HEAD + entries,
        };
    }
    len
}

/// The length in bytes of all records of one cycle of a program with n items, in this version.
fn beamed_len(program: &Program, n: u16, version: u8) -> u64
    requires { length (all_items program.now.disks) ≡ n }
    ensures len { result ≡ marks_size version n (marks_of program.now.disks) }
    ensures few { result ≤ (LENGTH_BYTES + INDEX_HEAD + INDEX_ENTRY * MOST_ITEMS + (LENGTH_BYTES + DATA_HEAD + HEAD_BYTES + ENTRY_BYTES * MOST_ITEMS)) * MOST_SLOTS }
{
    program.shows_well_made();
    let _slots = program.slots();
    let index = (LENGTH_BYTES + INDEX_HEAD + INDEX_ENTRY * usize::from(n)) as u64;
    let data = data_len(program, n, version);
    u64::from(program.minors()) * index + data
}

/// The exact length in bytes of the indexed tape of the first `cycles` cycles in this form, where each edition has n items.
pub fn beam_bytes(plans: &Plans, n: u16, cycles: u32, form: Form) -> u64
    requires items { HaveItems n plans.now.programs }
    requires version { (form.version ≡ 1) ⊎ (form.version ≡ 2) }
    ensures { result ≡ indexed_size form.version n plans.now cycles }
{
    let mut bytes = 0u64;
    let mut done = 0u32;
    for edition in 0..plans.editions() {
        let end = plans.cycles_up_to(edition, cycles);
        bytes += u64::from(end - done) * beamed_len(plans.program(edition), n, form.version);
        done = end;
    }
    bytes
}
