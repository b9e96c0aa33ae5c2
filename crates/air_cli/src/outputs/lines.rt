//! The text of a command that prints one line.

ghost use Rattle.std.specs.Prelude.{◌≡◌, ◌∷◌, [], IfOk, map};
ghost use Rattle.air_base.specs.Numbers.{number_text};
ghost use Rattle.air_model.specs.Rows.{rows_text};

use air_base::NoMemory;
use air_report::{finish, put_numbers, row_writer};
use std::alloc::Global;

/// The text of a line of a word and numbers.
#[tactic(auto, unfolding(air_model::specs::Rows::rows_text))]
pub fn line_text(alloc: Global, word: &[u8], numbers: &[u64]) -> Result<Vec<u8>, NoMemory>
    ensures { IfOk result (λ text. text.items ≡ rows_text ((word.now ∷ map number_text numbers.now) ∷ [])) }
{
    let wtr = put_numbers(alloc, row_writer(Vec::new(alloc)), word, numbers)?;
    let text = finish(wtr)?;
    Ok(text)
}
