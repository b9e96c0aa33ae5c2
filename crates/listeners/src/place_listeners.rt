//! A listener with its own ether without bytes: it hears each cycle from the cycle's source, as the ether gives the places.

ghost use Rattle.std.specs.Prelude.{◌≡◌, ◌⊎◌, ◌<◌, ◌≤◌, ◌+◌, ◌*◌, ◌^◌, ◌++◌, false, ℕ, List, [], Some, IfOk, OnOk, length, map};
ghost use Rattle.air_ether.specs.declared.ether.TheConstants.{MOST_PUSHES};
ghost use Rattle.air_ether.specs.HeardPlaces.{left_before};
ghost use Rattle.air_model.specs.Buckets.{bucket_in, entry_len, most_count};
ghost use Rattle.air_model.specs.Decks.{Deck};
ghost use Rattle.air_model.specs.Disks.{all_items};
ghost use Rattle.air_model.specs.Ethers.{heard_by};
ghost use Rattle.air_model.specs.Outputs.{odds_in};
ghost use Rattle.air_model.specs.Programs.{program as slots_of};
ghost use Rattle.air_sender.specs.BoardBuckets.{EntriesBelow};
ghost use Rattle.bucket_codec.specs.declared.offsets.TheConstants.{HEAD_BYTES};
ghost use Rattle.receiver_core.specs.Receivers.{heard_count};
ghost use Rattle.listeners.specs.declared.readers.TheConstants.{MOST_TAPE_RECORDS};
ghost use Rattle.listeners.specs.AiredCycles.{AreFitting};
ghost use Rattle.listeners.specs.Listeners.{hears, listener_of};
ghost use Rattle.listeners.specs.PlaceListeners.{AreRecent, IsPlaceListener};
ghost use Rattle.listeners.specs.Private.PlaceSteps.{HearsPlaces};

use crate::last_buckets::LastBuckets;
use crate::listener::Listener;
use air_base::{Form, NoMemory};
use air_ether::PlaceEther;
use air_sender::Source;
use bucket_codec::decode;
use chunk_program::{Planned, Program};
use std::alloc::Global;

/// A listener, and the ether without bytes through which it hears.
#[derive(Drop)]
pub(crate) struct PlaceListener {
    pub ether: PlaceEther,
    pub listener: Listener,
}

impl PlaceListener {
    /// The deck's reader of a number with its ether, before anything was pushed.
    pub fn new(alloc: Global, planned: &Planned, number: u32) -> Result<PlaceListener, NoMemory>
        requires { number < length planned.now.readers }
        ensures { IfOk result (IsPlaceListener planned.now number []) }
    {
        let deck = planned.deck();
        let set = deck.settings();
        Ok(PlaceListener {
            ether: PlaceEther::new(alloc, set.seed, number, set.loss, set.again, set.late)?,
            listener: Listener::new(alloc, planned, number)?,
        })
    }

    /// Hears what its ether gives of a source's cycle, whose first slot has this place. Of the cycles before, the last buckets are kept.
    pub fn hear_cycle<S: Source>(
        &mut self,
        alloc: Global,
        program: &Program,
        source: &S,
        form: Form,
        first: u64,
        recent: &LastBuckets,
        buf: &mut [u8],
    ) -> Result<(), NoMemory>
        requires at { self.old.ether.pushes ≡ first }
        requires fitting { AreFitting self.old.listener.air form program.now.edition (slots_of program.now.disks) (S.board source.now) }
        requires open { self.old.ether.ended ≡ false }
        requires last { first + length (slots_of program.now.disks) ≤ MOST_PUSHES }
        requires counts { heard_count self.old.listener.state.counts + left_before (first + length (slots_of program.now.disks)) self.old.ether < 2 ^ 64 }
        requires version { (form.version ≡ 1) ⊎ (form.version ≡ 2) }
        requires few { length (S.board source.now).values ≤ most_count form.version }
        requires started { 1 ≤ (S.board source.now).cycle }
        requires below { EntriesBelow (S.board source.now) }
        requires allowed { S.airs form.policy }
        requires items { length (all_items program.now.disks) ≡ length (S.board source.now).values }
        requires room { HEAD_BYTES + entry_len form.version * length (S.board source.now).values ≤ length buf.old }
        ensures heard { OnOk result (HearsPlaces form program.now.edition (slots_of program.now.disks) (S.board source.now) first recent.now self.old self.new) }
        ensures buffer { length buf.new ≡ length buf.old }
    {
        let mut more = true;
        while more {
            more = self.listener.hear_places(
                alloc,
                &mut self.ether,
                program,
                source,
                form,
                first,
                recent,
                buf,
            )?;
        }
        Ok(())
    }

    /// Hears all the rest: of what was pushed, the last buckets are kept.
    pub fn end(&mut self, alloc: Global, recent: &LastBuckets) -> Result<(), NoMemory>
        requires { (deck : Deck) × (number : ℕ) × (pushed : List (List ℕ)) × IsPlaceListener deck number pushed self.old × AreRecent pushed recent.now × (length pushed ≤ MOST_TAPE_RECORDS) }
        ensures { (deck : Deck) (number : ℕ) (pushed : List (List ℕ)) → IsPlaceListener deck number pushed self.old → AreRecent pushed recent.now →
            OnOk result (self.new.listener ≡ hears (map bucket_in (heard_by deck.settings.seed number (odds_in deck) pushed)) (listener_of deck number)) }
    {
        self.ether.end();
        while let Some(place) = self.ether.next() {
            self.listener.hear(alloc, &decode(recent.at(place)))?;
        }
        Ok(())
    }
}
