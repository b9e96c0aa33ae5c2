//! What hears the records of a tape, one after another, while a file gives them in pieces.

ghost use Rattle.std.specs.Prelude.{◌≡◌, ◌<◌, ◌+◌, ◌^◌, ◌++◌, All, ℕ, List, None, OnOk, length, map};
ghost use Rattle.std.specs.Thread.{IsSync};
ghost use Rattle.air_index.specs.Searches.{seeker_tells};
ghost use Rattle.air_model.specs.Buckets.{bucket_in};
ghost use Rattle.air_model.specs.Tapes.{tape_read};
ghost use Rattle.listeners.specs.Listeners.{hears};
ghost use Rattle.receiver_core.specs.Receivers.{heard_count};

use air_base::NoMemory;
use air_index::Seeker;
use bucket_codec::TapeReader;
use listeners::Together;
use std::alloc::Global;
use std::thread::Threads;

/// Hears the records of a tape, one after another.
pub(crate) trait TapeHearer {
    /// These records, and no others, were heard since the hearer was in its first state.
    ghost HasHeard: { List (List ℕ) → Self → Self → Type 0 };

    /// Hears the records of a piece that isn't cut.
    fn hear_piece<T: Threads + Sync>(
        &mut self,
        threads: &T,
        alloc: Global,
        piece: &[u8],
    ) -> Result<(), NoMemory>
        requires sync { IsSync T.row }
        requires whole { (tape_read piece.now).cut ≡ None }
        requires few { (first : Self) × (so_far : List (List ℕ)) × HasHeard so_far first self.old × (length so_far + length (tape_read piece.now).records < 2 ^ 64) }
        ensures { (first : Self) (so_far : List (List ℕ)) → HasHeard so_far first self.old →
            OnOk result (HasHeard (so_far ++ (tape_read piece.now).records) first self.new) };
}

/// The readers of a deck hear each piece side by side. In their first state they had heard nothing.
impl TapeHearer for Together {
    ghost HasHeard = { λ records first now. All (λ l. heard_count l.state.counts ≡ 0) first × (now ≡ map (hears (map bucket_in records)) first) };

    fn hear_piece<T: Threads + Sync>(
        &mut self,
        threads: &T,
        alloc: Global,
        piece: &[u8],
    ) -> Result<(), NoMemory> {
        self.hear(threads, alloc, piece)?;
        Ok(())
    }
}

/// A seeker hears one record after another, without memory.
impl TapeHearer for Seeker {
    ghost HasHeard = { λ records first now. (rest : List (List ℕ)) → seeker_tells now rest ≡ seeker_tells first (records ++ rest) };

    fn hear_piece<T: Threads + Sync>(
        &mut self,
        _threads: &T,
        _alloc: Global,
        piece: &[u8],
    ) -> Result<(), NoMemory> {
        seek_on(self, piece);
        Ok(())
    }
}

/// Lets a seeker hear the records of a piece that isn't cut.
fn seek_on(seeker: &mut Seeker, piece: &[u8])
    requires { (tape_read piece.now).cut ≡ None }
    ensures { (rest : List (List ℕ)) → seeker_tells seeker.new rest ≡ seeker_tells seeker.old ((tape_read piece.now).records ++ rest) }
{
    let mut records = TapeReader::new(piece);
    while let Some(record) = records.next_whole() {
        seeker.hear(record);
    }
}
