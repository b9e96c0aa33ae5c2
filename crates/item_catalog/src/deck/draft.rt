//! A deck while it is read: what its records declare, one record after another.
//!
//! Each call takes a record of one tag. It adds what the record spells if no kind of fault applies, and otherwise answers the
//! least kind. No clause says what a draft is after a fault: it is dropped.

ghost use Rattle.std.specs.Prelude.{◌≡◌, ◌<◌, ◌≤◌, [], IfOk, drop, length, replicate};
ghost use Rattle.csv.specs.Records.{fields_of};
ghost use Rattle.air_model.specs.Decks.{IsDeck};
ghost use Rattle.item_catalog.specs.RecordKinds.{first_of};
ghost use Rattle.item_catalog.specs.DeckLimits.{WithinLimits};
ghost use Rattle.item_catalog.specs.Private.Drafts.{AddsDeclaration, deck_from, draft_of};
ghost use Rattle.item_catalog.specs.Settings.{number_in};
ghost use Rattle.item_catalog.specs.Declarations.{disk_by, item_by, reader_by, spelled_declaration};
ghost use Rattle.item_catalog.specs.Faults.{end_tests};
ghost use Rattle.air_base.specs.Parts.{three_of, two_of};

mod lists;
mod replans;
pub(crate) mod settings;

use crate::deck::Deck;
use crate::deck::draft::settings::{
    Name, Setting, delta_in, groups_vectors, most_items, settings_in,
};
use crate::faults::FaultKind;
use crate::parts::{
    DiskPart, ItemPart, Queries, ReplanPart, Updates, is_no_freq, narrow_freq, read_freq, sizes_of,
    some_differs,
};
use crate::reading::{Tag, read_tag};
use crate::records::fields::{three, two};
use crate::records::refusals::Refusal;
use crate::scripts::Script;
use crate::updates::item_lists::ItemList;
use crate::updates::write_lists::WriteList;
use air_base::limits::{
    MOST_AGE, MOST_DELTA, MOST_DISKS, MOST_ITEMS, MOST_RATE, MOST_READERS, MOST_ROOM, MOST_SIZE,
    MOST_TRIES, MOST_UPDATERS,
};
use air_base::{NoMemory, read_u64};
use air_model::deck::ReaderPlan;
use csv::ByteRecord;
use std::alloc::Global;
use std::marker::Model;

/// What is declared so far, with a list for each updater and each reader that there can be, and the lists of the current record.
#[derive(Debug, Drop)]
pub struct Draft {
    items: Vec<ItemPart>,
    disks: Vec<DiskPart>,
    replans: Vec<ReplanPart>,
    last_replan_cycle: u32,
    updates: Vec<Updates>,
    updaters: u32,
    update_count: u32,
    readers: Vec<ReaderPlan>,
    queries: Vec<Queries>,
    query_count: u32,
    script: Script,
    set: Vec<Setting>,
    item_list: ItemList,
    write_list: WriteList,
}

impl Model for Draft {
    ghost use Rattle.item_catalog.specs.Private.Drafts.{DraftValue};
    ghost use Rattle.item_catalog.specs.Private.DraftFields.{DraftKept, draft_seen};

    ghost Value = { DraftValue };

    ghost view = { draft_seen };

    ghost invariant = { DraftKept };
}

/// A list for each updater that there can be.
fn no_updates(alloc: Global) -> Result<Vec<Updates>, NoMemory>
    ensures { IfOk result (λ lists. lists.items ≡ replicate MOST_UPDATERS []) }
{
    let mut lists = Vec::new(alloc);
    for _by in 0..MOST_UPDATERS {
        lists.push(Updates::new(alloc))?;
    }
    Ok(lists)
}

/// A list for each reader that there can be.
fn no_queries(alloc: Global) -> Result<Vec<Queries>, NoMemory>
    ensures { IfOk result (λ lists. lists.items ≡ replicate MOST_READERS []) }
{
    let mut lists = Vec::new(alloc);
    for _reader in 0..MOST_READERS {
        lists.push(Queries::new(alloc))?;
    }
    Ok(lists)
}

impl Draft {
    /// Nothing is declared.
    pub fn new(alloc: Global) -> Result<Draft, NoMemory>
        ensures { IfOk result (λ draft. draft ≡ draft_of []) }
    {
        Ok(Draft {
            items: Vec::new(alloc),
            disks: Vec::new(alloc),
            replans: Vec::new(alloc),
            last_replan_cycle: 0,
            updates: no_updates(alloc)?,
            updaters: 0,
            update_count: 0,
            readers: Vec::new(alloc),
            queries: no_queries(alloc)?,
            query_count: 0,
            script: Script::new(alloc),
            set: Vec::new(alloc),
            item_list: ItemList::new(),
            write_list: WriteList::new(),
        })
    }

    /// Adds the item of a record.
    pub fn add_item(&mut self, fields: &ByteRecord) -> Result<(), Refusal<FaultKind>>
        ensures { AddsDeclaration result (item_by (three_of (drop 1 (fields_of fields.now)))) self.old self.new }
    {
        let Some((id, value, rate)) = three(fields) else {
            return Err(Refusal::Kind(FaultKind::Fields));
        };
        let Some(id) = read_u64(id) else {
            return Err(Refusal::Kind(FaultKind::Form));
        };
        let Some(value) = read_u64(value) else {
            return Err(Refusal::Kind(FaultKind::Form));
        };
        let Some(rate) = read_u64(rate) else {
            return Err(Refusal::Kind(FaultKind::Form));
        };
        if id != self.items.len() as u64 {
            return Err(Refusal::Kind(FaultKind::Id));
        }
        if MOST_RATE < rate || MOST_ITEMS <= self.items.len() {
            return Err(Refusal::Kind(FaultKind::Limit));
        }
        let rate = rate as u32;
        self.items.push(ItemPart { value, rate })?;
        Ok(())
    }

    /// Adds the disk of a record.
    pub fn add_disk(&mut self, fields: &ByteRecord) -> Result<(), Refusal<FaultKind>>
        ensures { AddsDeclaration result (disk_by (two_of (drop 1 (fields_of fields.now)))) self.old self.new }
    {
        let Some((size, freq)) = two(fields) else {
            return Err(Refusal::Kind(FaultKind::Fields));
        };
        let Some(size) = read_u64(size) else {
            return Err(Refusal::Kind(FaultKind::Form));
        };
        let Some(freq) = read_freq(freq) else {
            return Err(Refusal::Kind(FaultKind::Form));
        };
        if size < 1 || MOST_SIZE < size || is_no_freq(freq) || MOST_DISKS <= self.disks.len() {
            return Err(Refusal::Kind(FaultKind::Limit));
        }
        self.disks.push(DiskPart {
            size: size as u16,
            freq: narrow_freq(freq),
        })?;
        Ok(())
    }

    /// Adds the reader of a record.
    pub fn add_reader(&mut self, fields: &ByteRecord) -> Result<(), Refusal<FaultKind>>
        ensures { AddsDeclaration result (reader_by (three_of (drop 1 (fields_of fields.now)))) self.old self.new }
    {
        let Some((room, age, tries)) = three(fields) else {
            return Err(Refusal::Kind(FaultKind::Fields));
        };
        let Some(room) = read_u64(room) else {
            return Err(Refusal::Kind(FaultKind::Form));
        };
        let Some(age) = read_u64(age) else {
            return Err(Refusal::Kind(FaultKind::Form));
        };
        let Some(tries) = read_u64(tries) else {
            return Err(Refusal::Kind(FaultKind::Form));
        };
        if MOST_ROOM < room
            || MOST_AGE < age
            || tries < 1
            || MOST_TRIES < tries
            || MOST_READERS <= self.readers.len()
        {
            return Err(Refusal::Kind(FaultKind::Limit));
        }
        self.readers.push(ReaderPlan {
            room: room as u32,
            age: age as u32,
            tries: tries as u32,
        })?;
        Ok(())
    }

    /// Adds what a record spells.
    pub fn add(&mut self, alloc: Global, fields: &ByteRecord) -> Result<(), Refusal<FaultKind>>
        ensures { AddsDeclaration result (spelled_declaration (fields_of fields.now)) self.old self.new }
    {
        match read_tag(fields) {
            Some(Tag::Item) => self.add_item(fields),
            Some(Tag::Disk) => self.add_disk(fields),
            Some(Tag::Replan) => self.add_replan(alloc, fields),
            Some(Tag::Update) => self.add_update(alloc, fields),
            Some(Tag::Reader) => self.add_reader(fields),
            Some(Tag::Query) => self.add_query(alloc, fields),
            Some(Tag::Script) => self.add_events(fields),
            Some(Tag::Set) => self.add_setting(fields),
            None => Err(Refusal::Kind(FaultKind::Tag)),
        }
    }

    /// The least kind that applies at the end.
    pub fn end_kind(&self) -> Option<FaultKind>
        ensures { result ≡ first_of (end_tests (length self.now.items) self.now.disks self.now.replans self.now.set) }
    {
        let items = self.items.len();
        if sizes_of(&self.disks) as usize != items || some_differs(items, &self.replans) {
            return Some(FaultKind::Sizes);
        }
        if self.items.is_empty() || self.disks.is_empty() || most_items(&self.set) < items {
            return Some(FaultKind::Limit);
        }
        if groups_vectors(&self.set) {
            return Some(FaultKind::Setting);
        }
        None
    }

    /// The deck of what is declared, which is well made and within the limits.
    pub fn into_deck(self) -> Deck
        requires made { IsDeck (deck_from self) }
        requires limits { WithinLimits (deck_from self) }
        requires delta { number_in Name.Delta self.set ≤ MOST_DELTA }
        ensures { result ≡ deck_from self }
    {
        let mut updates = self.updates;
        updates.truncate(self.updaters as usize);
        let mut queries = self.queries;
        queries.truncate(self.readers.len());
        let (script, starts) = self.script.into_events();
        Deck {
            items: self.items,
            disks: self.disks,
            replans: self.replans,
            delta: delta_in(&self.set),
            updates,
            readers: self.readers,
            queries,
            script,
            starts,
            settings: settings_in(&self.set),
        }
    }
}
