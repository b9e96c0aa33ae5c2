//! These pins of `seek` say what is found on short tapes, and with how many records opened.

ghost use Rattle.std.specs.Prelude.{◌≡◌, IfOk};
ghost use Rattle.air_model.specs.Tapes.{tape_read};
ghost use Rattle.air_index.specs.declared.sought.Sought.TheVariants.{Found, Lost};
ghost use Rattle.index_pins.specs.ShortTapes.{no_index, two_cycles, wrong_entry};

use air_index::{Sought, seek};
use bucket_codec::TapeFault;

/// The records between the ones that lead to the item aren't opened.
/// Promise: a search is its definition
/// Promise: few records are opened
pub fn each_record_opened(tape: &[u8]) -> Result<Sought, TapeFault>
    requires { (tape_read tape.now).records ≡ two_cycles }
    ensures { IfOk result (λ answer. answer ≡ Found 3 5 2 20) }
{
    seek(tape, 1, 1)
}

/// A data record of the item is found by itself, with no index opened.
/// Promise: a search is its definition
pub fn own_record_passed_over(tape: &[u8]) -> Result<Sought, TapeFault>
    requires { (tape_read tape.now).records ≡ two_cycles }
    ensures { IfOk result (λ answer. answer ≡ Found 1 4 2 10) }
{
    seek(tape, 0, 4)
}

/// A record after the end isn't there, so it isn't opened.
/// Promise: a search is its definition
pub fn record_behind_the_end_counted(tape: &[u8]) -> Result<Sought, TapeFault>
    requires { (tape_read tape.now).records ≡ two_cycles }
    ensures { IfOk result (λ answer. answer ≡ Lost 1) }
{
    seek(tape, 0, 5)
}

/// A record that was opened counts, also where it isn't the index that was wanted.
/// Promise: a search is its definition
pub fn wrong_record_not_counted(tape: &[u8]) -> Result<Sought, TapeFault>
    requires { (tape_read tape.now).records ≡ no_index }
    ensures { IfOk result (λ answer. answer ≡ Lost 2) }
{
    seek(tape, 1, 0)
}

/// The record to which an entry leads has to have the item.
/// Promise: a search is its definition
pub fn another_item_found(tape: &[u8]) -> Result<Sought, TapeFault>
    requires { (tape_read tape.now).records ≡ wrong_entry }
    ensures { IfOk result (λ answer. answer ≡ Lost 2) }
{
    seek(tape, 1, 0)
}
