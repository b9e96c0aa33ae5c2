//! What the deck says of one receiver: its plan, and its queries in order.

ghost use Rattle.std.specs.Prelude.{◌≡◌, ◌↔◌, ◌<◌, ◌≤◌, [], get_or, length, map, slice_get, IfOk, IsTrue};
ghost use Rattle.air_model.specs.Sessions.{reader_of};
ghost use Rattle.air_base.specs.declared.limits.TheConstants.{MOST_ROOM, MOST_TRIES};
ghost use Rattle.receiver_core.specs.ReaderFields.{AreDistinct, AreWithin, HasFewQueries};

use air_base::NoMemory;
use air_model::deck::ReaderPlan;
use item_catalog::Deck;
use std::alloc::Global;
use std::marker::Model;

/// A plan and its queries, each the items in the order of reading.
#[derive(Drop)]
pub struct Reader {
    plan: ReaderPlan,
    queries: Vec<Vec<u16>>,
}

impl Model for Reader {
    ghost use Rattle.air_model.specs.Sessions.{Reader};

    ghost Value = { Reader };

    ghost use Rattle.receiver_core.specs.ReaderFields.{reader_in};

    ghost view = { reader_in };
}

impl Reader {
    /// Returns the deck's reader of a number.
    pub fn new(alloc: Global, deck: &Deck, number: u32) -> Result<Reader, NoMemory>
        requires { number < length deck.now.readers }
        ensures told { IfOk result (λ r. r ≡ reader_of deck.now number) }
        ensures short { IfOk result HasFewQueries }
        ensures distinct { IfOk result AreDistinct }
        ensures within { IfOk result (AreWithin (length deck.now.items)) }
        ensures room { IfOk result (λ r. r.plan.room ≤ MOST_ROOM) }
        ensures tries { IfOk result (λ r. r.plan.tries ≤ MOST_TRIES) }
    {
        deck.shows_well_made();
        Ok(Reader {
            plan: deck.reader(number),
            queries: queries(alloc, deck, number)?,
        })
    }

    /// Tells for how many copies there is room.
    pub fn room(&self) -> u32
        ensures { result ≡ self.now.plan.room }
    {
        self.plan.room
    }

    /// Tells after how many cycles a copy is too old.
    pub fn age(&self) -> u32
        ensures { result ≡ self.now.plan.age }
    {
        self.plan.age
    }

    /// Tells how often a query is tried.
    pub fn tries(&self) -> u32
        ensures { result ≡ self.now.plan.tries }
    {
        self.plan.tries
    }

    /// Tells whether there is a query of this number.
    pub fn has(&self, query: u32) -> bool
        ensures { IsTrue result ↔ (query < length self.now.queries) }
    {
        (query as usize) < self.queries.len()
    }

    /// Returns the item at a place of a query, if there is one.
    pub fn item(&self, query: u32, place: usize) -> Option<u16>
        ensures { result ≡ slice_get (get_or self.now.queries query []) place }
    {
        if !self.has(query) {
            return None;
        }
        let items = &self.queries[query as usize];
        if place >= items.len() {
            return None;
        }
        Some(items[place])
    }
}

/// Returns the queries of the deck's reader of a number.
fn queries(alloc: Global, deck: &Deck, number: u32) -> Result<Vec<Vec<u16>>, NoMemory>
    requires { number < length deck.now.readers }
    ensures { IfOk result (λ queries. map (λ q. q.items) queries.items ≡ get_or deck.now.queries number []) }
{
    let mut queries = Vec::new(alloc);
    for query in 0..deck.queries(number) {
        let items = deck.query(number, query).to_vec(alloc)?;
        queries.push(items)?;
    }
    Ok(queries)
}
