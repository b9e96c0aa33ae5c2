//! Writing the records of an indexed tape, each with its length ahead of it.

ghost use Rattle.std.specs.Prelude.{◌≡◌, ◌<◌, ◌≤◌, ◌+◌, ◌*◌, ◌^◌, ◌++◌, List, OnOk, ℕ, length, take};
ghost use Rattle.air_base.specs.declared.limits.TheConstants.{MOST_ITEMS};
ghost use Rattle.air_model.specs.Disks.{all_items};
ghost use Rattle.air_model.specs.Programs.{num_minors};
ghost use Rattle.air_model.specs.Tapes.{record_bytes};
ghost use Rattle.bucket_codec.specs.declared.offsets.TheConstants.{ENTRY_BYTES, HEAD_BYTES};
ghost use Rattle.air_index.specs.Indexes.{index_bytes};
ghost use Rattle.air_index.specs.Records.{data_bytes};
ghost use Rattle.air_index.specs.Private.Beaming.{data_head, entries_between, index_head};

use crate::entries::entry;
use crate::places::{DATA_HEAD, INDEX_ENTRY, INDEX_HEAD};
use air_base::NoMemory;
use chunk_program::Program;

/// The bytes of an index record on a tape, before its entries: of its cycle the lowest four.
fn index_head(n: u16, cycle: u64, minor: u16) -> [u8; 17]
    ensures { result ≡ index_head n cycle minor }
{
    let len = (INDEX_HEAD as u32 + INDEX_ENTRY as u32 * u32::from(n)).to_be_bytes();
    let cycle = cycle.to_be_bytes();
    let minor = minor.to_be_bytes();
    let count = n.to_be_bytes();
    [
        len[0], len[1], len[2], len[3], 0, 0, 0, 0, 0, cycle[4], cycle[5], cycle[6], cycle[7],
        minor[0], minor[1], count[0], count[1],
    ]
}

/// The bytes of a data record on a tape, before those of its bucket.
fn data_head(len: u32, wait: u32) -> [u8; 9]
    requires { len + DATA_HEAD < 2 ^ 32 }
    ensures { result ≡ data_head len wait }
{
    let len = (DATA_HEAD as u32 + len).to_be_bytes();
    let wait = wait.to_be_bytes();
    [
        len[0], len[1], len[2], len[3], 1, wait[0], wait[1], wait[2], wait[3],
    ]
}

/// Puts the index record of a minor cycle at the end: of a program with n items, where the next cycle has the next program.
pub(crate) fn put_index(
    program: &Program,
    next: &Program,
    n: u16,
    cycle: u64,
    minor: u32,
    out: &mut Vec<u8>,
) -> Result<(), NoMemory>
    requires minor { minor < num_minors program.now.disks }
    requires items { length (all_items program.now.disks) ≡ n }
    requires next { length (all_items next.now.disks) ≡ n }
    ensures written { OnOk result (out.new.items ≡ out.old.items ++ record_bytes (index_bytes cycle minor (entries_between program.now.disks next.now.disks n minor))) }
    ensures begun { take (length out.old.items) out.new.items ≡ out.old.items }
{
    let _slots = program.slots();
    out.extend_from_slice(&index_head(n, cycle, minor as u16))?;
    for item in 0..n {
        out.extend_from_slice(&entry(program, next, minor, item).to_be_bytes())?;
    }
    Ok(())
}

/// Puts a data record at the end.
pub(crate) fn put_data(wait: u32, bucket: &[u8], out: &mut Vec<u8>) -> Result<(), NoMemory>
    requires { length bucket.now ≤ HEAD_BYTES + ENTRY_BYTES * MOST_ITEMS }
    ensures written { OnOk result (out.new.items ≡ out.old.items ++ record_bytes (data_bytes wait bucket.now)) }
    ensures begun { take (length out.old.items) out.new.items ≡ out.old.items }
{
    out.extend_from_slice(&data_head(bucket.len() as u32, wait))?;
    out.extend_from_slice(bucket)?;
    Ok(())
}
