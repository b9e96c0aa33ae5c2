//! The draws of a drill: items, updates and queries, each from the next words.

ghost use Rattle.std.specs.Prelude.{◌≡◌, ◌≤◌, ◌<◌, ◌+◌, ◌*◌, ◌%◌, IfOk};
ghost use Rattle.air_model.specs.Draws.{draw, draw_each};
ghost use Rattle.air_model.specs.Drills.{around, base_in_turn, draw_item, draw_query, draw_update, draw_write};
ghost use Rattle.item_catalog.specs.declared.drills.draws.TheConstants.{MOST_DRAWN, QUERY_GAP};

use air_base::NoMemory;
use air_history::{Update, Write};
use rand_core::utils::NextWord;
use rand_pcg::Lcg64Xsh32;
use std::alloc::Global;

/// The values of items are below this number.
const VALUES: u32 = 1_000;

/// The greatest rate that is drawn for an item.
const MOST_DRAWN_RATE: u32 = 100;

/// The amounts of writes are below this number.
const AMOUNTS: u32 = 100;

/// The most items that are drawn together: those of a query.
pub const MOST_DRAWN: u32 = 4;

/// How many steps an item of a query is after the one before.
pub const QUERY_GAP: u32 = 7;

/// The next word, modulo m.
fn draw(generator: &mut Lcg64Xsh32, m: u32) -> u32
    requires { 0 < m }
    ensures drawn { draw m generator.old ≡ (result, generator.new) }
    ensures below { result < m }
{
    let word: u32 = generator.next_word();
    word % m
}

/// The next word, modulo the number of items.
fn draw_place(generator: &mut Lcg64Xsh32, n: u16) -> u16
    requires { 0 < n }
    ensures drawn { draw n generator.old ≡ (result, generator.new) }
    ensures below { result < n }
{
    draw(generator, u32::from(n)) as u16
}

/// The value and the rate of the next item.
pub fn draw_item(generator: &mut Lcg64Xsh32) -> (u64, u32)
    ensures { draw_item generator.old ≡ (record { value = result.0; rate = result.1 }, generator.new) }
{
    let value = u64::from(draw(generator, VALUES));
    let rate = 1 + draw(generator, MOST_DRAWN_RATE);
    (value, rate)
}

/// The item this many steps after another, around the catalog.
fn behind(n: u16, first: u16, steps: u32) -> u16
    requires some { 0 < n }
    requires few { steps ≤ QUERY_GAP * MOST_DRAWN }
    ensures { result ≡ (first + steps) % n }
{
    ((u32::from(first) + steps) % u32::from(n)) as u16
}

/// This many items around the catalog, each a gap after the one before.
fn around(alloc: Global, n: u16, first: u16, gap: u32, count: u32) -> Result<Vec<u16>, NoMemory>
    requires some { 0 < n }
    requires near { gap ≤ QUERY_GAP }
    requires few { count ≤ MOST_DRAWN }
    ensures { IfOk result (λ items. items.items ≡ around n first gap count) }
{
    let mut items = Vec::new(alloc);
    for t in 0..count {
        items.push(behind(n, first, gap * t))?;
    }
    Ok(items)
}

/// What was drawn for an update before its writes: how many items there are, how many of them it reads, and the first items
/// that it reads and writes.
#[derive(Clone, Copy, Debug)]
struct Reach {
    items: u16,
    reads: u32,
    first_read: u16,
    first_written: u16,
}

impl Reach {
    /// The base of a write.
    fn base(&self, t: u32) -> Option<u16>
        requires some { 0 < self.now.items }
        requires few { self.now.reads ≤ MOST_DRAWN }
        ensures { result ≡ base_in_turn self.now.items self.now.reads self.now.first_read t }
    {
        if self.reads == 0 {
            None
        } else {
            Some(behind(self.items, self.first_read, t % self.reads))
        }
    }

    /// The next write.
    fn draw_write(&self, generator: &mut Lcg64Xsh32, t: u32) -> Write
        requires some { 0 < self.now.items }
        requires few { self.now.reads ≤ MOST_DRAWN }
        requires near { t ≤ MOST_DRAWN }
        ensures { draw_write self.now.items self.now.reads self.now.first_read self.now.first_written t generator.old ≡ (result, generator.new) }
    {
        let amount = u64::from(draw(generator, AMOUNTS));
        Write {
            item: behind(self.items, self.first_written, t),
            base: self.base(t),
            minus: false,
            amount,
        }
    }

    /// Draws this many writes.
    fn draw_writes(
        &self,
        alloc: Global,
        generator: &mut Lcg64Xsh32,
        count: u32,
    ) -> Result<Vec<Write>, NoMemory>
        requires some { 0 < self.now.items }
        requires few { self.now.reads ≤ MOST_DRAWN }
        requires near { count ≤ MOST_DRAWN }
        ensures { IfOk result (λ writes. draw_each count (draw_write self.now.items self.now.reads self.now.first_read self.now.first_written) generator.old
            ≡ (writes.items, generator.new)) }
    {
        let mut writes = Vec::new(alloc);
        for t in 0..count {
            writes.push(self.draw_write(generator, t))?;
        }
        Ok(writes)
    }
}

/// The next update, and the generator that is left.
pub fn draw_update(
    alloc: Global,
    mut generator: Lcg64Xsh32,
    n: u16,
) -> Result<(Update, Lcg64Xsh32), NoMemory>
    requires { 4 < n }
    ensures { IfOk result (λ drawn. draw_update n generator ≡ drawn) }
{
    let count = draw(&mut generator, 3);
    let first = draw_place(&mut generator, n);
    let more = draw(&mut generator, 2);
    let reach = Reach {
        items: n,
        reads: count,
        first_read: first,
        first_written: draw_place(&mut generator, n),
    };
    let writes = reach.draw_writes(alloc, &mut generator, 1 + more)?;
    let reads = around(alloc, n, first, 1, count)?;
    let update = Update::of_lists(alloc, &reads, &writes)?;
    Ok((update, generator))
}

/// The items of the next query, and the generator that is left.
pub fn draw_query(
    alloc: Global,
    mut generator: Lcg64Xsh32,
    n: u16,
) -> Result<(Vec<u16>, Lcg64Xsh32), NoMemory>
    requires { 0 < n }
    ensures { IfOk result (λ drawn. draw_query n generator ≡ (drawn.0.items, drawn.1)) }
{
    let more = draw(&mut generator, MOST_DRAWN);
    let first = draw_place(&mut generator, n);
    let items = around(alloc, n, first, QUERY_GAP, 1 + more)?;
    Ok((items, generator))
}
