//! The line that a refusal prints: a row with the word `fault` and then numbers.

ghost use Rattle.std.specs.Prelude.{◌≡◌, ◌∷◌, [], IfOk, codes, map};
ghost use Rattle.air_base.specs.Numbers.{number_text};
ghost use Rattle.air_model.specs.Rows.{rows_text};
ghost use Rattle.air_report.specs.Statuses.{status_line};

use crate::status::Status;
use crate::writing::fields::{finish, put_numbers, row_writer};
use air_base::NoMemory;
use std::alloc::Global;

/// The line that a refusal prints; empty if the status is no fault.
pub fn refusal_line(alloc: Global, status: &Status) -> Result<Vec<u8>, NoMemory>
    ensures { IfOk result (λ text. text.items ≡ status_line status.now) }
{
    let code = u64::from(status.code());
    match *status {
        Status::Ok | Status::WriteFault | Status::NoMemory | Status::Differs => Ok(Vec::new(alloc)),
        Status::Words | Status::ReadFault => fault_text(alloc, &[code]),
        Status::Deck { row, kind } | Status::Report { row, kind } => {
            fault_text(alloc, &[code, u64::from(row), u64::from(kind)])
        }
        Status::TapeCut { at } | Status::AirFault { at } => fault_text(alloc, &[code, at]),
        Status::TooLarge { limit } => fault_text(alloc, &[code, limit]),
        Status::TooMuch { product } => fault_text(alloc, &[code, product]),
        Status::TooLong { bytes } => fault_text(alloc, &[code, bytes]),
        Status::PlanTooLong { slots } => fault_text(alloc, &[code, slots]),
    }
}

/// The line of a fault with these numbers.
#[tactic(auto, unfolding(air_model::specs::Rows::rows_text))]
fn fault_text(alloc: Global, numbers: &[u64]) -> Result<Vec<u8>, NoMemory>
    ensures { IfOk result (λ text. text.items ≡ rows_text ((codes "fault" ∷ map number_text numbers.now) ∷ [])) }
{
    let wtr = put_numbers(alloc, row_writer(Vec::new(alloc)), b"fault", numbers)?;
    let text = finish(wtr)?;
    Ok(text)
}
