//! All readers of a deck, who hear cycle by cycle what is aired: together, or each through its own ether.
//!
//! If nothing is lost, heard again or delayed, each ether gives what is aired: then all hear the same. Else each reader hears what its
//! ether gives, by places. Either way they hear a cycle from its source, and their sessions are those over all cycles together.

ghost use Rattle.std.specs.Prelude.{◌≡◌, ◌↔◌, ◌≤◌, ◌+◌, ◌*◌, ◌++◌, ◌∷◌, ℕ, List, [], IfOk, IsTrue, length};
ghost use Rattle.air_history.specs.declared.histories.Event.{Event};
ghost use Rattle.air_history.specs.declared.histories.Event.TheVariants.{Start};
ghost use Rattle.air_model.specs.Aired.{scheme_in};
ghost use Rattle.air_model.specs.Buckets.{entry_len};
ghost use Rattle.air_model.specs.Decks.{Deck};
ghost use Rattle.air_model.specs.Ethers.{heard_by};
ghost use Rattle.air_model.specs.Judges.{by_entries};
ghost use Rattle.air_model.specs.Outputs.{odds_in, sessions_over};
ghost use Rattle.air_model.specs.Reports.{counts_lines, verdict_lines};
ghost use Rattle.air_sender.specs.AiredBytes.{aired_bytes};
ghost use Rattle.bucket_codec.specs.declared.offsets.TheConstants.{HEAD_BYTES};
ghost use Rattle.listeners.specs.declared.readers.TheConstants.{MOST_TAPE_RECORDS};
ghost use Rattle.listeners.specs.AiredCycles.{AirsAfter, AirsFrom};
ghost use Rattle.listeners.specs.Hearings.{AreHearing, CanHearAfter, IsPerfect};

use crate::deck_cycles::{hear_apart, hear_together};
use crate::listener::Listener;
use crate::place_hearers::PlaceHearers;
use crate::readers::{Sessions, end_all, listeners_of};
use air_base::NoMemory;
use air_sender::Source;
use chunk_program::Planned;
use control_matrix::Board;
use group_matrix::GroupBoard;
use item_catalog::Deck;
use std::alloc::Global;

/// All readers of a deck, who hear cycle by cycle what is aired: together, or each through its own ether.
#[derive(Drop)]
pub enum Hearers {
    /// Nothing is lost, heard again or delayed: all hear the same.
    Together(Vec<Listener>),
    /// Each hears what its own ether gives.
    Apart(PlaceHearers),
}

impl Hearers {
    /// Before anything is heard.
    pub fn new(alloc: Global, planned: &Planned) -> Result<Hearers, NoMemory>
        ensures { IfOk result (AreHearing planned.now []) }
    {
        if is_perfect(planned.deck()) {
            return Ok(Hearers::Together(listeners_of(alloc, planned)?));
        }
        Ok(Hearers::Apart(PlaceHearers::new(alloc, planned)?))
    }

    /// Lets all hear the cycle that a board airs, or its board by groups if there is one, and gives them back. If memory runs out, they are
    /// dropped. The buffer has room for a bucket's bytes.
    pub fn hear_board(
        self,
        alloc: Global,
        planned: &Planned,
        board: &Board,
        groups: &Option<GroupBoard>,
        buf: &mut [u8],
    ) -> Result<Hearers, NoMemory>
        requires source { (G : List Event) × AirsFrom planned.now G board.now groups.now × CanHearAfter planned.now G self }
        requires room { length buf.old ≡ HEAD_BYTES + entry_len planned.now.settings.version * length planned.now.items }
        ensures heard { (G : List Event) → AirsFrom planned.now G board.now groups.now → CanHearAfter planned.now G self →
            IfOk result (AreHearing planned.now (aired_bytes planned.now (G ++ Start ∷ []))) }
        ensures room { length buf.new ≡ length buf.old }
    {
        match groups {
            None => self.hear_cycle(alloc, planned, board, buf),
            Some(groups) => self.hear_cycle(alloc, planned, groups, buf),
        }
    }

    /// Lets all hear the cycle of a source, and gives them back. If memory runs out, they are dropped.
    fn hear_cycle<S: Source>(
        self,
        alloc: Global,
        planned: &Planned,
        source: &S,
        buf: &mut [u8],
    ) -> Result<Hearers, NoMemory>
        requires source { (G : List Event) × AirsAfter planned.now G (S.board source.now) × CanHearAfter planned.now G self }
        requires allowed { S.airs planned.now.settings.policy }
        requires room { length buf.old ≡ HEAD_BYTES + entry_len planned.now.settings.version * length planned.now.items }
        ensures heard { (G : List Event) → AirsAfter planned.now G (S.board source.now) → CanHearAfter planned.now G self →
            IfOk result (AreHearing planned.now (aired_bytes planned.now (G ++ Start ∷ []))) }
        ensures room { length buf.new ≡ length buf.old }
    {
        match self {
            Hearers::Together(listeners) => {
                let listeners = hear_together(alloc, planned, source, listeners, buf)?;
                Ok(Hearers::Together(listeners))
            }
            Hearers::Apart(hearers) => {
                let hearers = hear_apart(alloc, planned, source, hearers, buf)?;
                Ok(Hearers::Apart(hearers))
            }
        }
    }

    /// Ends the sessions of all, each of which has heard all that its ether gives of what was aired.
    pub fn end(self, alloc: Global) -> Result<Sessions, NoMemory>
        requires { (deck : Deck) × (pushed : List (List ℕ)) × AreHearing deck pushed self × (length pushed ≤ MOST_TAPE_RECORDS) }
        ensures verdicts { (deck : Deck) (pushed : List (List ℕ)) → AreHearing deck pushed self → IfOk result (λ s. s.verdicts.items
            ≡ verdict_lines (sessions_over (by_entries (scheme_in deck)) deck (λ r. heard_by deck.settings.seed r (odds_in deck) pushed))) }
        ensures counts { (deck : Deck) (pushed : List (List ℕ)) → AreHearing deck pushed self → IfOk result (λ s. s.counts.items
            ≡ counts_lines (sessions_over (by_entries (scheme_in deck)) deck (λ r. heard_by deck.settings.seed r (odds_in deck) pushed))) }
    {
        match self {
            Hearers::Together(listeners) => {
                let sessions = end_all(alloc, listeners)?;
                Ok(sessions)
            }
            Hearers::Apart(hearers) => hearers.end(alloc),
        }
    }
}

/// Whether nothing of what is aired is lost, heard again or delayed.
fn is_perfect(deck: &Deck) -> bool
    ensures { IsTrue result ↔ IsPerfect deck.now }
{
    let set = deck.settings();
    set.loss == 0 && set.again == 0 && set.late == 0
}
