//! What a deck says of a receiver, and its settings; the laws of plain decks.
//!
//! Plain data with public fields, which the plain deck of `specs/Decks.antt` has unchanged. Each function's contract is one law
//! of its histories; the bodies are empty.

ghost use Rattle.std.specs.Prelude.{◌≡◌, ◌↔◌, ℕ, ◌≤◌, List, [], length, map, take, All};
ghost use Rattle.air_history.specs.declared.histories.Event.{Event};
ghost use Rattle.air_history.specs.Histories.{starts, EventFits};
ghost use Rattle.air_history.specs.Tables.{BasesRead};
ghost use Rattle.air_model.specs.Reports.{event_row};
ghost use Rattle.air_model.specs.Decks.{Deck, IsDeck, IsLegal, IsWhole, ScriptFits, count_made, disks_in, edition, rates_in, script_history, updates_by, values_in};
ghost use Rattle.air_model.specs.DeckLaws.{HasNumbers, commits_from, made_by};
ghost use Rattle.air_model.specs.Programs.{program};
ghost use Rattle.air_model.specs.Aired.{SlotsFit, air_of, bucket_of, edition_at, pix_at, pix_in, slots_at};
ghost use Rattle.air_model.specs.PlanTexts.{edition_rows, plan_text};
ghost use Rattle.air_model.specs.Rows.{rows_text};
ghost use Rattle.air_model.specs.Sessions.{reader_of};
ghost use Rattle.air_model.specs.SessionLaws.{QueriesFilled};

use air_base::Policy;

/// How a receiver hears: how many copies it has room for, after how many cycles a copy is too old, and how often it tries a
/// query.
#[derive(Clone, Copy, Debug, PartialEq, Eq)]
pub struct ReaderPlan {
    pub room: u32,
    pub age: u32,
    pub tries: u32,
}

/// The settings of a deck.
#[derive(Clone, Copy, Debug, PartialEq, Eq)]
pub struct Settings {
    /// How receivers judge what they read.
    pub policy: Policy,
    /// The version of the buckets: 1 or 2.
    pub version: u8,
    /// Of how many items a group is that is aired with one column, and 0 where there are no groups.
    pub group: u16,
    /// How many cycles the threads of a run start.
    pub cycles: u32,
    /// The seed of every receiver's ether.
    pub seed: u64,
    /// How many of a hundred buckets are lost.
    pub loss: u32,
    /// How many of a hundred buckets come twice.
    pub again: u32,
    /// How many of a hundred buckets are delayed.
    pub late: u32,
    /// How many monitors look at the frames of a run.
    pub monitors: u32,
    /// After how many buckets a receiver on the air ends.
    pub hears: u32,
}

/// A history is legal if and only if each updater's commits are of its first updates, in order, numbered from 0.
pub fn legal_law()
    ensures { (deck : Deck) (H : List Event) → IsLegal deck H ↔
        ((by : ℕ) → made_by by H ≡ commits_from by 0 (take (count_made by H) (updates_by deck by))) }
{}

/// A history is whole if and only if each updater's commits are of all its updates, in order, numbered from 0, and it starts
/// the deck's cycles.
pub fn whole_law()
    ensures { (deck : Deck) (H : List Event) → IsWhole deck H ↔
        (((by : ℕ) → made_by by H ≡ commits_from by 0 (updates_by deck by)) × (starts H ≡ deck.settings.cycles)) }
{}

/// The rows of legal histories determine them: for a deck whose numbers fit, two histories with equal rows are equal.
pub fn one_rows_law()
    ensures { (deck : Deck) (H G : List Event) → HasNumbers deck → IsLegal deck H → IsLegal deck G →
        map event_row H ≡ map event_row G → H ≡ G }
{}

/// The history of a script that fits is legal.
pub fn script_law()
    ensures { (deck : Deck) → ScriptFits deck → IsLegal deck (script_history deck) }
{}

/// A legal history of a well made deck has only updaters of the deck and items of the catalog, and each base is read.
pub fn events_law()
    ensures { (deck : Deck) (H : List Event) → IsDeck deck → IsLegal deck H →
        All (EventFits (length deck.updates) (length deck.items)) H × All BasesRead H }
{}

/// The slots of a well made deck have items of the catalog, and none of its queries is empty.
pub fn air_law()
    ensures { (deck : Deck) → IsDeck deck → SlotsFit (air_of deck) × ((r : ℕ) → QueriesFilled (reader_of deck r)) }
{}

/// In each cycle the air has the program of the deck's edition, and that edition's PIX numbers; editions never fall from cycle
/// to cycle.
pub fn edition_law()
    ensures edition { (deck : Deck) (c : ℕ) → edition_at (air_of deck) c ≡ edition deck c }
    ensures slots { (deck : Deck) (c : ℕ) → slots_at (air_of deck) c ≡ program (disks_in deck (edition deck c)) }
    ensures pix { (deck : Deck) (c : ℕ) → pix_at (air_of deck) c ≡ pix_in deck (edition deck c) }
    ensures rises { (deck : Deck) (c d : ℕ) → c ≤ d → edition deck c ≤ edition deck d }
{}

/// Of a deck without replans everything is of edition 0: every cycle, its slots, its PIX numbers, each bucket, and the text of the plan.
pub fn one_edition_law()
    ensures edition { (deck : Deck) (c : ℕ) → deck.replans ≡ [] → edition deck c ≡ 0 }
    ensures slots { (deck : Deck) (c : ℕ) → deck.replans ≡ [] → slots_at (air_of deck) c ≡ program (disks_in deck 0) }
    ensures pix { (deck : Deck) (c : ℕ) → deck.replans ≡ [] → pix_at (air_of deck) c ≡ pix_in deck 0 }
    ensures bucket { (deck : Deck) (H : List Event) (version c s : ℕ) → deck.replans ≡ [] →
        (bucket_of (values_in deck) (air_of deck) H version c s).edition ≡ 0 }
    ensures plan { (deck : Deck) → deck.replans ≡ [] →
        plan_text (rates_in deck) deck.disks deck.replans ≡ rows_text (edition_rows (rates_in deck) deck.disks) }
{}
