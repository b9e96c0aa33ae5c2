//! Cases of audits of reports: `audit` adds the finding of each line, with its row, `letters` adds a letter for each, and `sums` the number of lines
//! that agree.

ghost use Rattle.air_report.specs.KeptReports.{KeepsGrammar};

use air_base::NoMemory;
use air_report::ReadReport;
use case_lines::add_line;
use item_catalog::Deck;
use live_replay::{AuditError, Cause, Finding, audit};
use std::alloc::Global;

/// The finding of a line in a word: that it agrees, or the cause for which it differs.
fn word_of(finding: &Finding) -> &'static [u8] {
    match finding.differs {
        None => b"agrees",
        Some(Cause::Value) => b"value",
        Some(Cause::Verdict) => b"verdict",
        Some(Cause::Clash) => b"clash",
        Some(Cause::Total) => b"total",
    }
}

/// Adds for each finding its word and the row of its line.
fn add_findings(found: &[Finding], came: &mut Vec<u8>) -> Result<(), NoMemory> {
    for finding in found {
        add_line(word_of(finding), &[u64::from(finding.row)], came)?;
    }
    Ok(())
}

/// Adds a letter for each finding: a dash if the line agrees, `V` for a value, `v` for a verdict, `c` for a clash and `t` for a total.
fn add_letters(found: &[Finding], came: &mut Vec<u8>) -> Result<(), NoMemory> {
    for finding in found {
        came.push(match finding.differs {
            None => b'-',
            Some(Cause::Value) => b'V',
            Some(Cause::Verdict) => b'v',
            Some(Cause::Clash) => b'c',
            Some(Cause::Total) => b't',
        })?;
    }
    Ok(())
}

/// Adds the number of findings, and the number of lines that agree.
fn add_sums(found: &[Finding], came: &mut Vec<u8>) -> Result<(), NoMemory> {
    let mut agree = 0_u64;
    for finding in found {
        if finding.differs.is_none() {
            agree = agree.saturating_add(1);
        }
    }
    add_line(b"findings", &[found.len() as u64], came)?;
    add_line(b"agree", &[agree], came)
}

/// Audits a report, and adds what the word asks for.
pub fn add_audit(
    alloc: Global,
    deck: &Deck,
    read: &ReadReport,
    word: &[u8],
    came: &mut Vec<u8>,
) -> Result<(), NoMemory>
    requires { KeepsGrammar deck.now read.now }
{
    match audit(alloc, deck, read) {
        Ok(found) => match word {
            b"audit" => add_findings(&found, came),
            b"letters" => add_letters(&found, came),
            _ => add_sums(&found, came),
        },
        Err(AuditError::TooMuch { product }) => add_line(b"too much", &[product], came),
        Err(AuditError::NoMemory) => Err(NoMemory),
    }
}
