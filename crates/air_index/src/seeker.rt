//! Finding an item on an indexed tape.
//!
//! What a seeker tells depends only on the records that follow (`seeker_tells`). All that it opens is ahead, so it hears each record once
//! and keeps none.

ghost use Rattle.std.specs.Prelude.{◌≡◌, ◌<◌, ℕ, List, [], ◌∷◌, None, IfErr, IfOk, OnOk};
ghost use Rattle.air_model.specs.Tapes.{tape_read};
ghost use Rattle.bucket_codec.specs.Readers.{only_cut_at};
ghost use Rattle.air_index.specs.Searches.{seeker_tells};
ghost use Rattle.air_index.specs.Seeks.{sought};

use crate::searches::{Search, SearchStage};
use crate::sought::Sought;
use crate::steps::after;
use bucket_codec::{TapeFault, TapeReader};
use std::marker::Model;

/// Seeks one item, record by record.
#[derive(Drop)]
pub struct Seeker {
    item: u16,
    search: Search,
}

impl Model for Seeker {
    ghost use Rattle.air_index.specs.Searches.{IsInReach, SeekerState};

    ghost Value = { SeekerState };

    ghost view = { λ s. record { item = s.item; search = s.search } };

    ghost invariant = { λ s. IsInReach s.search };
}

impl Seeker {
    /// Seeks an item from record `from` on; records count from 0.
    pub fn new(item: u16, from: u32) -> Seeker
        ensures { (records : List (List ℕ)) → seeker_tells result records ≡ sought records item from }
    {
        Seeker {
            item,
            search: Search {
                skip: from,
                place: u64::from(from),
                stage: SearchStage::First,
            },
        }
    }

    /// Hears the next record.
    pub fn hear(&mut self, bytes: &[u8])
        ensures { (records : List (List ℕ)) → seeker_tells self.new records ≡ seeker_tells self.old (bytes.now ∷ records) }
    {
        self.search = after(self.item, self.search, bytes);
    }

    /// What came of it, where no record follows.
    pub fn end(&self) -> Sought
        ensures { result ≡ seeker_tells self.now [] }
    {
        match self.search.stage {
            SearchStage::First => Sought::Lost { opens: 0 },
            SearchStage::Index => Sought::Lost { opens: 1 },
            SearchStage::Item { opens } => Sought::Lost { opens },
            SearchStage::Nothing { answer } => answer,
        }
    }
}

/// Seeks an item on a tape, from record `from` on.
pub fn seek(tape: &[u8], item: u16, from: u32) -> Result<Sought, TapeFault>
    ensures whole { OnOk result ((tape_read tape.now).cut ≡ None) }
    ensures cut { IfErr result (λ fault. (tape_read tape.now).cut ≡ (only_cut_at fault).cut) }
    ensures sought { IfOk result (λ answer. answer ≡ sought (tape_read tape.now).records item from) }
{
    let mut records = TapeReader::new(tape);
    let mut seeker = Seeker::new(item, from);
    while let Some(record) = records.next()? {
        seeker.hear(record);
    }
    Ok(seeker.end())
}
