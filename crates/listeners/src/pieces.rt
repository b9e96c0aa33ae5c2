//! A tape piece by piece: its next records, each decoded and judged once for all readers of a deck.

ghost use Rattle.std.specs.Prelude.{◌≡◌, ◌<◌, ◌+◌, ◌^◌, ◌++◌, All, None, IfOk, OnOk, length, map};
ghost use Rattle.std.specs.Result.{result_ok};
ghost use Rattle.air_model.specs.Buckets.{IsInRange, bucket_in};
ghost use Rattle.receiver_core.specs.Receivers.{heard_count};
ghost use Rattle.listeners.specs.Listeners.{hears};
ghost use Rattle.listeners.specs.Private.JudgedPieces.{IsJudged};

use crate::judged::JudgedPiece;
use crate::listener::Listener;
use air_base::NoMemory;
use air_model::bucket::BucketFault;
use bucket_codec::{BucketView, TapeReader, decode};
use receiver_core::Air;
use std::alloc::Global;

/// How many records are decoded before they are heard.
const PIECE: usize = 4_096;

/// What came of the next records of a tape that isn't cut; of none at its end.
fn next_members<'a>(
    alloc: Global,
    records: &mut TapeReader<'a>,
) -> Result<Vec<Result<BucketView<'a>, BucketFault>>, NoMemory>
    requires { records.old.cut ≡ None }
    ensures whole { OnOk result (records.new.cut ≡ None) }
    ensures members { IfOk result (λ piece. map bucket_in records.old.records ≡ map result_ok piece.items ++ map bucket_in records.new.records) }
    ensures range { IfOk result (λ piece. All (λ heard. IfOk heard IsInRange) piece.items) }
    ensures end { IfOk result (λ piece. length piece.items ≡ 0 → length records.new.records ≡ 0) }
{
    let mut piece = Vec::new(alloc);
    while piece.len() < PIECE {
        let Some(bytes) = records.next_whole() else {
            return Ok(piece);
        };
        piece.push(decode(bytes))?;
    }
    Ok(piece)
}

/// The next records of a tape that isn't cut, judged for readers who know this air; none at its end.
pub(crate) fn next_piece<'a>(
    alloc: Global,
    air: &Air,
    records: &mut TapeReader<'a>,
) -> Result<JudgedPiece<'a>, NoMemory>
    requires { records.old.cut ≡ None }
    ensures whole { OnOk result (records.new.cut ≡ None) }
    ensures members { IfOk result (λ piece. map bucket_in records.old.records ≡ map result_ok piece.heard.items ++ map bucket_in records.new.records) }
    ensures range { IfOk result (λ piece. All (λ heard. IfOk heard IsInRange) piece.heard.items) }
    ensures judged { IfOk result (IsJudged air.now) }
    ensures end { IfOk result (λ piece. length piece.heard.items ≡ 0 → length records.new.records ≡ 0) }
{
    let heard = next_members(alloc, records)?;
    JudgedPiece::new(alloc, air, heard)
}

/// Lets a listener hear the members of a piece that was judged by its air.
pub(crate) fn hear_piece(
    alloc: Global,
    listener: &mut Listener,
    piece: &JudgedPiece<'_>,
) -> Result<(), NoMemory>
    requires counts { heard_count listener.old.state.counts + length piece.now.heard.items < 2 ^ 64 }
    requires range { All (λ heard. IfOk heard IsInRange) piece.now.heard.items }
    requires judged { IsJudged listener.old.air piece.now }
    ensures heard { OnOk result (listener.new ≡ hears (map result_ok piece.now.heard.items) listener.old) }
    ensures air { listener.new.air ≡ listener.old.air }
{
    let mut place = 0usize;
    while place < piece.heard.len() {
        place = listener.hear_from(alloc, piece, place)?;
    }
    Ok(())
}
