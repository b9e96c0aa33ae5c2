//! What the records before a faulty one say, of a deck or of a report. They have no fault, so each is taken as its tag says.

use crate::decks::settings::setting_place;
use crate::records::lists::sum_of;
use crate::records::tags::{RecordTag, TaggedForm, deck_form, report_form, section};
use air_base::limits::{MOST_REPLANS, MOST_UPDATERS};
use air_base::read_u64;
use csv::ByteRecord;

/// The number of each kind of record, the sums that limits are about, and the settings that a note on the end tells; of a report also the row numbers
/// at which its sections begin.
#[derive(Clone, Copy)]
pub struct RecordsBefore {
    pub items: u64,
    pub disks: u64,
    pub sizes: u64,
    pub replans: u64,
    pub replan_sizes: [u64; MOST_REPLANS],
    pub last_cycle: u64,
    pub updates: u64,
    pub updates_by: [u64; MOST_UPDATERS],
    pub readers: u64,
    pub queries: u64,
    pub events: u64,
    pub starts: u64,
    pub commits_by: [u64; MOST_UPDATERS],
    pub set: [bool; 11],
    pub group: u64,
    pub policy: &'static str,
    pub begun: [Option<(u32, &'static str)>; 5],
}

/// Adds one.
fn raise(count: &mut u64) {
    *count = count.saturating_add(1);
}

/// Adds one to an updater's count.
fn raise_of(counts: &mut [u64; MOST_UPDATERS], by: u64) {
    if by < MOST_UPDATERS as u64 {
        let place = by as usize;
        counts[place] = counts[place].saturating_add(1);
    }
}

/// The text in a field.
fn text_in(record: &ByteRecord, place: usize) -> &str {
    match record.get(place) {
        Some(bytes) => match std::str::from_utf8(bytes) {
            Ok(text) => text,
            Err(_) => "",
        },
        None => "",
    }
}

/// The number in a field; 0 if there is none.
fn number_in(record: &ByteRecord, place: usize) -> u64 {
    read_u64(text_in(record, place).as_bytes()).unwrap_or(0)
}

/// The letter of a policy.
fn policy_letter(text: &str) -> &'static str {
    match text {
        "D" => "D",
        "R" => "R",
        _ => "F",
    }
}

impl RecordsBefore {
    /// The counts before any record.
    pub fn new() -> RecordsBefore {
        RecordsBefore {
            items: 0,
            disks: 0,
            sizes: 0,
            replans: 0,
            replan_sizes: [0; MOST_REPLANS],
            last_cycle: 0,
            updates: 0,
            updates_by: [0; MOST_UPDATERS],
            readers: 0,
            queries: 0,
            events: 0,
            starts: 0,
            commits_by: [0; MOST_UPDATERS],
            set: [false; 11],
            group: 0,
            policy: "F",
            begun: [None; 5],
        }
    }

    /// Takes one more event of the script.
    fn add_event(&mut self, event: &str) {
        raise(&mut self.events);
        if event == "s" {
            raise(&mut self.starts);
        } else if let Some(by) = read_u64(event.as_bytes()) {
            raise_of(&mut self.commits_by, by);
        }
    }

    /// Takes the events of a script record.
    pub fn add_events(&mut self, events: &str) {
        if events.is_empty() {
            return;
        }
        for event in events.split(' ') {
            self.add_event(event);
        }
    }

    /// The number of the next replan, which is the edition of its program.
    pub fn edition(&self) -> u64 {
        self.replans.saturating_add(1)
    }

    /// Takes one more replan.
    fn add_replan(&mut self, record: &ByteRecord) {
        if self.replans < MOST_REPLANS as u64 {
            let place = self.replans as usize;
            self.replan_sizes[place] = sum_of(text_in(record, 2));
        }
        raise(&mut self.replans);
        self.last_cycle = number_in(record, 1);
    }

    /// Takes one more setting.
    fn add_setting(&mut self, record: &ByteRecord) {
        let name = text_in(record, 1);
        if let Some(place) = setting_place(name) {
            self.set[place] = true;
        }
        match name {
            "group" => self.group = number_in(record, 2),
            "policy" => self.policy = policy_letter(text_in(record, 2)),
            _ => {}
        }
    }

    /// Takes one more record of a deck.
    fn add_to_deck(&mut self, record: &ByteRecord, tag: RecordTag) {
        match tag {
            RecordTag::Item => raise(&mut self.items),
            RecordTag::Disk => {
                raise(&mut self.disks);
                self.sizes = self.sizes.saturating_add(number_in(record, 1));
            }
            RecordTag::Replan => self.add_replan(record),
            RecordTag::Update => {
                raise(&mut self.updates);
                raise_of(&mut self.updates_by, number_in(record, 1));
            }
            RecordTag::Reader => raise(&mut self.readers),
            RecordTag::Query => raise(&mut self.queries),
            RecordTag::Script => self.add_events(text_in(record, 1)),
            _ => self.add_setting(record),
        }
    }

    /// Takes one more record of a report.
    fn add_to_report(&mut self, record: &ByteRecord, row: u32, known: TaggedForm) {
        if known.tag == RecordTag::Start {
            raise(&mut self.starts);
        } else if known.tag == RecordTag::Commit {
            raise_of(&mut self.commits_by, number_in(record, 1));
        }
        let place = section(known.tag);
        if self.begun[place].is_none() {
            self.begun[place] = Some((row, known.name));
        }
    }

    /// Takes the record of a row number.
    pub fn add(&mut self, record: &ByteRecord, row: u32) {
        let tag = text_in(record, 0);
        if let Some(known) = deck_form(tag) {
            self.add_to_deck(record, known.tag);
        } else if let Some(known) = report_form(tag) {
            self.add_to_report(record, row, known);
        }
    }
}
