//! The deck of a drill: made from a seed and a size, with nothing read.
//!
//! It is drawn list by list, in the order of the definition `drill_deck`.

ghost use Rattle.std.specs.Prelude.{◌≡◌, ◌≤◌, ◌<◌, ◌*◌, ◌++◌, [], length, IfOk, OnOk, map};
ghost use Rattle.std.specs.List.{range_with_len};
ghost use Rattle.air_model.specs.Draws.{draw_each};
ghost use Rattle.air_model.specs.Drills.{dealt_to, draw_item, draw_query, draw_update, drill_deck, drill_disks, drill_script, turn_of};
ghost use Rattle.item_catalog.specs.Decks.{plain_item, with_freqs};
ghost use Rattle.item_catalog.specs.declared.deck.drill.TheConstants.{MOST_DRILL_SIZE, MOST_DRILL_UPDATES};

use crate::deck::Deck;
use crate::drills::draws::{draw_item, draw_query, draw_update};
use crate::drills::settings::{drill_readers, drill_settings};
use crate::laws::drill_law;
use crate::parts::{DiskPart, ItemPart, Queries, Query, Updates};
use crate::scripts::Script;
use air_base::NoMemory;
use rand_pcg::Lcg64Xsh32;
use std::alloc::Global;

/// The greatest size of a drill.
pub const MOST_DRILL_SIZE: u32 = 100;

/// The most updates of a drill: ten for each step of its size.
const MOST_DRILL_UPDATES: u32 = 1_000;

/// Draws the items.
fn draw_items(alloc: Global, generator: &mut Lcg64Xsh32, n: u16) -> Result<Vec<ItemPart>, NoMemory>
    ensures { IfOk result (λ items. draw_each n (λ i. draw_item) generator.old ≡ (map plain_item items.items, generator.new)) }
{
    let mut items = Vec::new(alloc);
    for _i in 0..n {
        let (value, rate) = draw_item(generator);
        items.push(ItemPart { value, rate })?;
    }
    Ok(items)
}

/// A list for each of the four updaters.
fn no_updates(alloc: Global) -> Result<Vec<Updates>, NoMemory>
    ensures { IfOk result (λ lists. lists.items ≡ map (dealt_to []) (range_with_len 0 4)) }
{
    let mut lists = Vec::new(alloc);
    for _by in 0..4_u32 {
        lists.push(Updates::new(alloc))?;
    }
    Ok(lists)
}

/// Draws the updates of each updater, and gives them with the generator that is left.
fn draw_updates(
    alloc: Global,
    mut generator: Lcg64Xsh32,
    n: u16,
    count: u32,
) -> Result<(Vec<Updates>, Lcg64Xsh32), NoMemory>
    requires { 4 < n }
    ensures dealt { IfOk result (λ drawn. drawn.0.items ≡ map (dealt_to (draw_each count (λ u. draw_update n) generator).0) (range_with_len 0 4)) }
    ensures left { IfOk result (λ drawn. drawn.1 ≡ (draw_each count (λ u. draw_update n) generator).1) }
{
    let mut lists = no_updates(alloc)?;
    for u in 0..count {
        let (update, left) = draw_update(alloc, generator, n)?;
        generator = left;
        lists[(u % 4) as usize].push(update)?;
    }
    Ok((lists, generator))
}

/// Draws the queries of a reader, and gives them with the generator that is left.
fn draw_queries(
    alloc: Global,
    mut generator: Lcg64Xsh32,
    n: u16,
    count: u32,
) -> Result<(Queries, Lcg64Xsh32), NoMemory>
    requires { 4 < n }
    ensures { IfOk result (λ drawn. draw_each count (λ q. draw_query n) generator ≡ drawn) }
{
    let mut queries = Queries::new(alloc);
    for _q in 0..count {
        let (items, left) = draw_query(alloc, generator, n)?;
        generator = left;
        queries.push(Query::from_vec(items))?;
    }
    Ok((queries, generator))
}

/// Draws the queries of each of the eight readers.
fn draw_all_queries(
    alloc: Global,
    mut generator: Lcg64Xsh32,
    n: u16,
    count: u32,
) -> Result<Vec<Queries>, NoMemory>
    requires { 4 < n }
    ensures { IfOk result (λ lists. lists.items ≡ (draw_each 8 (λ r. draw_each count (λ q. draw_query n)) generator).0) }
{
    let mut lists = Vec::new(alloc);
    for _r in 0..8_u32 {
        let (queries, left) = draw_queries(alloc, generator, n, count)?;
        generator = left;
        lists.push(queries)?;
    }
    Ok(lists)
}

/// Adds the commit of an update, and before each fifth a start.
fn add_turn(script: &mut Script, u: u32) -> Result<(), NoMemory>
    requires { length script.old ≤ 2 * MOST_DRILL_UPDATES }
    ensures { OnOk result (script.new ≡ script.old ++ turn_of u) }
{
    if u % 5 == 0 {
        script.start()?;
    }
    script.commit(u64::from(u % 4))?;
    Ok(())
}

/// The script of this many updates.
fn drill_script(alloc: Global, updates: u32) -> Result<Script, NoMemory>
    requires { updates ≤ MOST_DRILL_UPDATES }
    ensures { IfOk result (λ script. script ≡ drill_script updates) }
{
    let mut script = Script::new(alloc);
    for u in 0..updates {
        add_turn(&mut script, u)?;
    }
    script.start()?;
    script.start()?;
    Ok(script)
}

/// The three disks of this many items.
fn drill_disks(alloc: Global, n: u16) -> Result<Vec<DiskPart>, NoMemory>
    ensures { IfOk result (λ disks. with_freqs 0 disks.items ≡ drill_disks n) }
{
    let hot = n / 8;
    let warm = n / 4;
    let mut disks = Vec::new(alloc);
    disks.push(DiskPart {
        size: hot,
        freq: Some(4),
    })?;
    disks.push(DiskPart {
        size: warm,
        freq: Some(2),
    })?;
    disks.push(DiskPart {
        size: n - hot - warm,
        freq: Some(1),
    })?;
    Ok(disks)
}

/// The deck of a drill.
pub fn drill_deck(alloc: Global, seed: u64, size: u32) -> Result<Deck, NoMemory>
    requires some { 1 ≤ size }
    requires few { size ≤ MOST_DRILL_SIZE }
    ensures { IfOk result (λ deck. deck ≡ drill_deck seed size) }
{
    let n = 16 + 2 * size as u16;
    let mut generator = Lcg64Xsh32::new(seed, 1);
    let items = draw_items(alloc, &mut generator, n)?;
    let (updates, left) = draw_updates(alloc, generator, n, 10 * size)?;
    let queries = draw_all_queries(alloc, left, n, size)?;
    let disks = drill_disks(alloc, n)?;
    let readers = drill_readers(alloc)?;
    let (script, starts) = drill_script(alloc, 10 * size)?.into_events();
    let replans = Vec::new(alloc);
    drill_law();
    Ok(Deck {
        items,
        disks,
        replans,
        delta: 0,
        updates,
        readers,
        queries,
        script,
        starts,
        settings: drill_settings(seed),
    })
}
