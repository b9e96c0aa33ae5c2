//! These pins fix what `item_catalog` draws by the first words of a seed: an item, an update and a query. They also fix the
//! settings, which are the same in each drill except for the seed.

ghost use Rattle.std.specs.Prelude.{◌≡◌, [], ◌∷◌, IfOk};
ghost use Rattle.air_base.specs.declared.verdicts.Policy.TheVariants.{FMatrix};
ghost use Rattle.air_model.specs.Draws.{generator};
ghost use Rattle.text_pins.specs.SmallWrites.{write_from_base};

use air_base::NoMemory;
use air_history::Update;
use air_model::deck::Settings;
use item_catalog::{draw_item, draw_query, draw_update, drill_settings};
use rand_pcg::Lcg64Xsh32;
use std::alloc::Global;

/// The first item of seed 1 has a rate of 65: the word gives 64, counted from 0.
/// Promise: the drill's deck is its definition
#[tactic(auto, unfolding(air_model::specs::Draws::draw))]
pub fn rate_from_nought(words: &mut Lcg64Xsh32) -> (u64, u32)
    requires { words.old ≡ generator 1 1 }
    ensures value { result.0 ≡ 849 }
    ensures rate { result.1 ≡ 65 }
{
    draw_item(words)
}

/// The first update of seed 3, among five items: the bases of its writes are the items that it reads, in turn. It also refuses that two reads
/// are never drawn.
/// Promise: the drill's deck is its definition
pub fn base_among_the_written(
    alloc: Global,
    words: Lcg64Xsh32,
) -> Result<(Update, Lcg64Xsh32), NoMemory>
    requires { words ≡ generator 3 1 }
    ensures { IfOk result (λ drawn. drawn.0 ≡ record { reads = 4 ∷ 0 ∷ []; writes = write_from_base 0 4 97 ∷ write_from_base 1 0 49 ∷ [] }) }
{
    draw_update(alloc, words, 5)
}

/// The first query of seed 2, among eighteen items: each is the seventh after the one before, and the first item comes after the last.
/// Promise: the drill's deck is its definition
#[tactic(auto, unfolding(air_model::specs::Draws::draw, air_model::specs::Drills::draw_query))]
pub fn queries_six_apart(
    alloc: Global,
    words: Lcg64Xsh32,
) -> Result<(Vec<u16>, Lcg64Xsh32), NoMemory>
    requires { words ≡ generator 2 1 }
    ensures { IfOk result (λ drawn. drawn.0.items ≡ 6 ∷ 13 ∷ 2 ∷ []) }
{
    draw_query(alloc, words, 18)
}

/// Of a hundred buckets five are lost, three heard again and ten delayed.
/// Promise: the drill's deck is its definition
pub fn late_for_again() -> Settings
    ensures { result ≡ record { policy = FMatrix; version = 1; group = 0; cycles = 10; seed = 7; loss = 5; again = 3; late = 10; monitors = 0; hears = 1000000 } }
{
    drill_settings(7)
}
