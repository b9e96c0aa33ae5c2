//! Records with lists: updates, queries and events of the script.

ghost use Rattle.std.specs.Prelude.{◌≡◌, OnOk, drop};
ghost use Rattle.csv.specs.Records.{fields_of};
ghost use Rattle.item_catalog.specs.Private.Drafts.{AddsDeclaration, QueryRead, UpdateRead};
ghost use Rattle.item_catalog.specs.Declarations.{query_by, script_by, update_by};
ghost use Rattle.air_base.specs.Parts.{one_of, three_of, two_of};
ghost use Rattle.item_catalog.specs.Private.ListKinds.{seen_query_kind, seen_update_kind};

use crate::deck::draft::Draft;
use crate::faults::FaultKind;
use crate::parts::Query;
use crate::records::fields::{one, three, two};
use crate::records::refusals::Refusal;
use crate::updates::item_lists::ItemList;
use crate::updates::write_lists::WriteList;
use air_base::limits::{
    MOST_ASKED, MOST_QUERIES, MOST_READS, MOST_UPDATERS, MOST_UPDATES, MOST_WRITES,
};
use air_base::read_u64;
use air_history::Update;
use csv::ByteRecord;
use std::alloc::Global;

/// The least kind that applies to an update, if this many updates were given before it.
#[inline(always)]
fn update_kind(reads: &ItemList, writes: &WriteList, by: u64, given: u32) -> Option<FaultKind>
    ensures { result ≡ seen_update_kind reads.now writes.now by given }
{
    if reads.has_undeclared() || writes.has_undeclared() {
        return Some(FaultKind::Undeclared);
    }
    if reads.has_repeated() || writes.has_repeated() {
        return Some(FaultKind::Twice);
    }
    let count = writes.writes().len();
    if MOST_UPDATERS as u64 <= by
        || MOST_READS < reads.items().len()
        || count < 1
        || MOST_WRITES < count
        || MOST_UPDATES <= given
    {
        return Some(FaultKind::Limit);
    }
    if writes.has_unread() {
        return Some(FaultKind::Unread);
    }
    None
}

/// The least kind that applies to a query, if this many readers and queries were declared before it.
fn query_kind(asked: &ItemList, readers: usize, reader: u64, given: u32) -> Option<FaultKind>
    ensures { result ≡ seen_query_kind asked.now readers reader given }
{
    if readers as u64 <= reader || asked.has_undeclared() {
        return Some(FaultKind::Undeclared);
    }
    if asked.has_repeated() {
        return Some(FaultKind::Twice);
    }
    let count = asked.items().len();
    if count < 1 || MOST_ASKED < count || MOST_QUERIES <= given {
        return Some(FaultKind::Limit);
    }
    None
}

impl Draft {
    /// Reads the update of a record, and adds nothing.
    fn read_update(
        &mut self,
        alloc: Global,
        fields: &ByteRecord,
    ) -> Result<(u64, Update), Refusal<FaultKind>>
        ensures same { OnOk result (self.new ≡ self.old) }
        ensures read { UpdateRead result (update_by (three_of (drop 1 (fields_of fields.now)))) self.old }
    {
        let Some((by, reads, writes)) = three(fields) else {
            return Err(Refusal::Kind(FaultKind::Fields));
        };
        let Some(by) = read_u64(by) else {
            return Err(Refusal::Kind(FaultKind::Form));
        };
        let declared = self.items.len() as u16;
        if !self.item_list.read(declared, reads) {
            return Err(Refusal::Kind(FaultKind::Form));
        }
        if !self.write_list.read(declared, &self.item_list, writes) {
            return Err(Refusal::Kind(FaultKind::Form));
        }
        if let Some(kind) = update_kind(&self.item_list, &self.write_list, by, self.update_count) {
            return Err(Refusal::Kind(kind));
        }
        let update = Update::of_lists(alloc, self.item_list.items(), self.write_list.writes())?;
        Ok((by, update))
    }

    /// Adds the update of a record.
    pub fn add_update(
        &mut self,
        alloc: Global,
        fields: &ByteRecord,
    ) -> Result<(), Refusal<FaultKind>>
        ensures { AddsDeclaration result (update_by (three_of (drop 1 (fields_of fields.now)))) self.old self.new }
    {
        let (by, update) = self.read_update(alloc, fields)?;
        self.updates[by as usize].push(update)?;
        self.update_count += 1;
        self.updaters = self.updaters.max(by as u32 + 1);
        Ok(())
    }

    /// Reads the query of a record, and adds nothing.
    fn read_query(
        &mut self,
        alloc: Global,
        fields: &ByteRecord,
    ) -> Result<(u64, Query), Refusal<FaultKind>>
        ensures same { OnOk result (self.new ≡ self.old) }
        ensures read { QueryRead result (query_by (two_of (drop 1 (fields_of fields.now)))) self.old }
    {
        let Some((reader, asked)) = two(fields) else {
            return Err(Refusal::Kind(FaultKind::Fields));
        };
        let Some(reader) = read_u64(reader) else {
            return Err(Refusal::Kind(FaultKind::Form));
        };
        let declared = self.items.len() as u16;
        if !self.item_list.read(declared, asked) {
            return Err(Refusal::Kind(FaultKind::Form));
        }
        if let Some(kind) = query_kind(
            &self.item_list,
            self.readers.len(),
            reader,
            self.query_count,
        ) {
            return Err(Refusal::Kind(kind));
        }
        let items = Vec::from_slice(alloc, self.item_list.items())?;
        Ok((reader, Query::from_vec(items)))
    }

    /// Adds the query of a record.
    pub fn add_query(
        &mut self,
        alloc: Global,
        fields: &ByteRecord,
    ) -> Result<(), Refusal<FaultKind>>
        ensures { AddsDeclaration result (query_by (two_of (drop 1 (fields_of fields.now)))) self.old self.new }
    {
        let (reader, query) = self.read_query(alloc, fields)?;
        self.queries[reader as usize].push(query)?;
        self.query_count += 1;
        Ok(())
    }

    /// Adds the events of a record.
    pub fn add_events(&mut self, fields: &ByteRecord) -> Result<(), Refusal<FaultKind>>
        ensures { AddsDeclaration result (script_by (one_of (drop 1 (fields_of fields.now)))) self.old self.new }
    {
        let Some(events) = one(fields) else {
            return Err(Refusal::Kind(FaultKind::Fields));
        };
        match self.script.read(events)? {
            None => return Err(Refusal::Kind(FaultKind::Form)),
            Some(true) => return Err(Refusal::Kind(FaultKind::Limit)),
            Some(false) => {}
        }
        if self.script.overdraws(&self.updates) {
            return Err(Refusal::Kind(FaultKind::Overdrawn));
        }
        Ok(())
    }
}
