//! The record of a row number: where it begins, its fields, and what the records before it say.

pub(crate) mod before;
pub(crate) mod fields;
pub(crate) mod lists;
pub(crate) mod quotes;
pub(crate) mod shapes;
pub(crate) mod tags;

use crate::records::before::RecordsBefore;
use crate::words::sentences::Sentence;
use crate::words::texts::ShownText;
use air_base::{NoMemory, read_u64};
use csv::{ByteRecord, ReaderBuilder};
use std::alloc::Global;

/// The fields of a record, as texts. Bytes that aren't text are replaced by a character.
#[derive(Drop)]
pub struct Record {
    fields: Vec<String>,
}

/// What a row number has.
#[derive(Clone, Copy)]
pub enum Kind {
    Record,
    End,
    Nothing,
}

/// What is found at a row number: the line at which the record begins, or 0 if there is no record; the record; and what the records before it say.
#[derive(Drop)]
pub struct FoundRecord {
    pub kind: Kind,
    pub line: u64,
    pub record: Record,
    pub before: RecordsBefore,
}

impl Record {
    /// The fields of what the csv reader gives.
    fn of(alloc: Global, record: &ByteRecord) -> Result<Record, NoMemory> {
        let mut fields = Vec::new(alloc);
        for field in record.iter() {
            fields.push(String::from_utf8_lossy(alloc, field)?)?;
        }
        Ok(Record { fields })
    }

    /// The number of fields.
    pub fn len(&self) -> usize {
        self.fields.len()
    }

    /// The field at a place; empty if there is none.
    pub fn field(&self, place: usize) -> &str {
        match self.fields.get(place) {
            Some(field) => field.as_str(),
            None => "",
        }
    }

    /// The number in a field; 0 if there is none.
    pub fn number(&self, place: usize) -> u64 {
        read_u64(self.field(place).as_bytes()).unwrap_or(0)
    }
}

impl FoundRecord {
    /// A note: the file's name, the line of the record, its row number, what the note is about, and what is wrong.
    pub fn note(
        &self,
        alloc: Global,
        name: &str,
        row: u32,
        subject: Sentence<'_>,
        sentence: Sentence<'_>,
    ) -> Result<String, NoMemory> {
        let name = ShownText::whole(name);
        let place = self.place();
        let row = row as u64;
        Ok(format!(in alloc; "{name}{place}record {row}: {subject}{sentence}")?)
    }

    /// The line of the record, as it is written after the name of the file.
    pub fn place(&self) -> Sentence<'static> {
        let wording = match self.kind {
            Kind::Record => ":#first#: ",
            Kind::End => ": the end, ",
            Kind::Nothing => ": ",
        };
        Sentence::numbers(wording, self.line, 0, 0)
    }
}

/// Whether a byte ends a line.
fn ends_line(byte: u8) -> bool {
    byte == b'\n' || byte == b'\r'
}

/// The line, counted from 1, at which the record begins that was read from this place on. It is after the empty lines there.
pub fn line_at(bytes: &[u8], place: u64) -> u64 {
    let mut line = 1_u64;
    let mut before = 0_u8;
    for (at, byte) in bytes.iter().enumerate() {
        if place <= at as u64 && !ends_line(*byte) {
            return line;
        }
        if ends_line(*byte) && !(before == b'\r' && *byte == b'\n') {
            line = line.saturating_add(1);
        }
        before = *byte;
    }
    line
}

/// Finds what a text has at a row number.
pub fn find(alloc: Global, bytes: &[u8], row: u32) -> Result<FoundRecord, NoMemory> {
    let mut records = ReaderBuilder::new()
        .has_headers(false)
        .flexible(true)
        .from_reader(alloc, bytes);
    let mut record = ByteRecord::new(alloc);
    let mut before = RecordsBefore::new();
    let mut kind = Kind::Nothing;
    let mut line = 0;
    for at in 1..=row {
        match records.read_byte_record(&mut record) {
            Ok(true) if at < row => before.add(&record, at),
            Ok(true) => {
                let place = match record.position() {
                    Some(position) => position.byte(),
                    None => 0,
                };
                line = line_at(bytes, place);
                kind = Kind::Record;
            }
            Ok(false) if at == row => kind = Kind::End,
            _ => break,
        }
    }
    let record = Record::of(alloc, &record)?;
    Ok(FoundRecord {
        kind,
        line,
        record,
        before,
    })
}
