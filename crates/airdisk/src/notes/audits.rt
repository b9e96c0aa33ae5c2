//! Notes on an audit that was refused, or that found lines which differ.

use crate::notes::word;
use crate::plain_files::ReadsAgain;
use air_base::NoMemory;
use air_report::Status;
use air_report::reading::limits::MOST_REPORT_BYTES;
use fault_notes::{ShownText, report_note};
use live_replay::audit_report;
use live_replay::limits::MOST_REPLAYED;
use std::alloc::Global;

/// What is wrong with a report, compared with its deck if both can be read again.
fn refused_report_note<F: ReadsAgain>(
    alloc: Global,
    words: &[String],
    files: &mut F,
    row: u32,
    kind: u8,
) -> Result<Option<String>, NoMemory> {
    let deck = files.deck(alloc, word(words, 1));
    let name = word(words, 2);
    let note = match files.bytes(alloc, name, MOST_REPORT_BYTES) {
        Some(bytes) => report_note(alloc, name, deck.as_ref(), &bytes, row, kind)?,
        None => report_note(alloc, name, deck.as_ref(), &[], row, kind)?,
    };
    Ok(Some(note))
}

/// The number of lines of a report that differ from their replays, or `None` if it can't be read again.
fn count_differing<F: ReadsAgain>(
    alloc: Global,
    files: &mut F,
    deck: &str,
    report: &str,
) -> Option<u64> {
    let deck = files.deck(alloc, deck)?;
    let bytes = files.bytes(alloc, report, MOST_REPORT_BYTES)?;
    if MOST_REPORT_BYTES < bytes.len() {
        return None;
    }
    let audited = audit_report(alloc, &deck, &bytes).ok()?;
    let mut count = 0_u64;
    for line in audited.text.split(|byte| *byte == b'\n') {
        if line.starts_with(b"differs,") {
            count = count.saturating_add(1);
        }
    }
    Some(count)
}

/// A note that lines of a report differ from their replays.
fn difference_note<F: ReadsAgain>(
    alloc: Global,
    files: &mut F,
    words: &[String],
) -> Result<Option<String>, NoMemory> {
    let report = word(words, 2);
    let count = count_differing(alloc, files, word(words, 1), report);
    let name = ShownText::whole(report);
    let said = match count {
        Some(1) => format!(in alloc; "{name}: 1 line differs from its replay")?,
        Some(count) => format!(in alloc; "{name}: {count} lines differ from their replays")?,
        None => format!(in alloc; "{name}: lines differ from their replays")?,
    };
    Ok(Some(said))
}

/// A note on an audit that was refused, or that found lines which differ, or `None` for another status.
pub fn audit_note<F: ReadsAgain>(
    alloc: Global,
    words: &[String],
    files: &mut F,
    status: Status,
) -> Result<Option<String>, NoMemory> {
    match status {
        Status::Report { row, kind } => { refused_report_note(alloc, words, files, row, kind) }
        Status::Differs => difference_note(alloc, files, words),
        Status::TooMuch { product } => {
            let report = ShownText::whole(word(words, 2));
            Ok(Some(format!(in alloc;
                "{report}: its audit would take {product} steps, which are its commits times its verdict, glance and look lines, and an audit may take {MOST_REPLAYED}"
            )?))
        }
        _ => Ok(None),
    }
}
