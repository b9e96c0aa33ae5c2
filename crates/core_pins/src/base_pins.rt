//! These pins of `air_base` say which numbers, and lists of them, are read from small texts and written as such, and what a list
//! of values has after a change.
#![tactic(auto, unfolding(air_base::specs::Numbers::number_of, air_base::specs::Numbers::number_text, air_base::specs::NumberLists::all_some, air_base::specs::NumberLists::bad_part_at))]

ghost use Rattle.std.specs.Prelude.{◌≡◌, ◌⊎◌, [], ◌∷◌, codes, Some, None, MatchResult};
ghost use Rattle.air_base.specs.declared.number_lists.ListFault.TheVariants.{BadNumber, NoMemory as NoRoom};

use air_base::{ListFault, NoMemory, ReadOf, Reads, Values, read_list, read_u64, write_u64};
use std::alloc::Global;

/// A value is put at its own place.
/// Promise: shared parts are their definitions
pub fn another_value_replaced(list: &mut Values)
    requires { list.old ≡ 10 ∷ 20 ∷ [] }
    ensures { list.new ≡ 10 ∷ 5 ∷ [] }
{
    list.put(1, 5);
}

/// A double space makes an empty part, which is no number: it begins at byte 2. It also refuses that the byte after it is named.
/// Promise: every answer is a named one
/// Promise: texts are exact
pub fn double_space_taken(alloc: Global, text: &[u8]) -> Result<Vec<u64>, ListFault>
    requires { text.now ≡ codes "1  2" }
    ensures { MatchResult result (λ _. ⊥) (λ fault. (fault ≡ BadNumber 2) ⊎ (fault ≡ NoRoom)) }
{
    read_list(alloc, text)
}

/// After out of memory nothing is written; otherwise all digits are. It also refuses that the last digit is left out.
/// Promise: a refusal leaves its objects
pub fn half_written_after_no_memory(out: &mut Vec<u8>) -> Result<(), NoMemory>
    requires { out.old.items ≡ codes "x" }
    ensures { MatchResult result (λ _. out.new.items ≡ codes "x120") (λ _. out.new.items ≡ codes "x") }
{
    write_u64(120, out)
}

/// No number has a zero before others.
/// Promise: texts are exact
pub fn leading_zero_taken(text: &[u8]) -> Option<u64>
    requires { text.now ≡ codes "07" }
    ensures { result ≡ None }
{
    read_u64(text)
}

/// The number is what its digits say, and not how many they are.
/// Promise: texts are exact
pub fn length_for_the_number(text: &[u8]) -> Option<u64>
    requires { text.now ≡ codes "12345" }
    ensures { result ≡ Some 12345 }
{
    read_u64(text)
}

/// No number has a sign.
/// Promise: texts are exact
pub fn plus_sign_taken(text: &[u8]) -> Option<u64>
    requires { text.now ≡ codes "+7" }
    ensures { result ≡ None }
{
    read_u64(text)
}

/// A text whose value needs more than 64 bits spells no number.
/// Promise: texts are exact
pub fn too_great_number_is_the_greatest(text: &[u8]) -> Option<u64>
    requires { text.now ≡ codes "18446744073709551620" }
    ensures { result ≡ None }
{
    read_u64(text)
}

/// A list lends all its items, in their order.
/// Promise: shared parts are their definitions
pub fn item_left_out_of_a_list(list: &Values) -> &[u64]
    requires { list.now ≡ 10 ∷ 20 ∷ [] }
    ensures { result.now ≡ 10 ∷ 20 ∷ [] }
{
    list.as_slice()
}

/// A list of reads lends all of them, in their order.
/// Promise: shared parts are their definitions
pub fn read_left_out_of_a_list(list: &Reads) -> &[ReadOf]
    requires { list.now ≡ record { item = 0; cycle = 1; value = 10 } ∷ record { item = 1; cycle = 2; value = 20 } ∷ [] }
    ensures { result.now ≡ record { item = 0; cycle = 1; value = 10 } ∷ record { item = 1; cycle = 2; value = 20 } ∷ [] }
{
    list.as_slice()
}
