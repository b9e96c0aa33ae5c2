//! All readers of a deck, who hear the same: side by side, with each record decoded once.
//!
//! A tape is heard by pieces of decoded records (`pieces`): all hear one to its end, and then the next is decoded. So what all readers
//! are is known after each piece. Contracts see their listeners.

ghost use Rattle.std.specs.Prelude.{◌≡◌, ◌↔◌, ◌<◌, ◌+◌, ◌^◌, All, IsTrue, IfOk, None, OnOk, true, length, map};
ghost use Rattle.std.specs.List.{range_with_len};
ghost use Rattle.std.specs.Result.{result_ok};
ghost use Rattle.air_model.specs.Buckets.{bucket_in};
ghost use Rattle.air_model.specs.Reports.{counts_lines, verdict_lines};
ghost use Rattle.air_model.specs.Tapes.{tape_read};
ghost use Rattle.receiver_core.specs.Receivers.{heard_count};
ghost use Rattle.listeners.specs.Listeners.{AreNumbered, end_state, hears, listener_of};
ghost use Rattle.air_model.specs.Aired.{Air};
ghost use Rattle.listeners.specs.Private.TogetherSteps.{CanHear, EachHeard, HasHeardMembers, KnowsAir, listeners_in};

use crate::judged::JudgedPiece;
use crate::listener::Listener;
use crate::pieces::{hear_piece, next_piece};
use crate::readers::{MOST_THREADS, Sessions, end_all};
use air_base::NoMemory;
use bucket_codec::TapeReader;
use chunk_program::Planned;
use receiver_core::Air;
use std::alloc::Global;
use std::marker::Model;
use std::thread;
use std::thread::Threads;

/// A reader that hears pieces, and whether there was memory for the last of them.
#[derive(Drop)]
pub(crate) struct TogetherReader {
    pub listener: Listener,
    pub done: bool,
}

impl TogetherReader {
    /// Hears the members of a piece, or until memory runs out.
    #[tactic(auto, unfolding(crate::specs::Private::TogetherSteps::CanHear, crate::specs::Private::TogetherSteps::HasHeardMembers))]
    fn work(&mut self, alloc: Global, piece: &JudgedPiece<'_>)
        requires { CanHear piece.now self.old }
        ensures { HasHeardMembers (map result_ok piece.now.heard.items) self.old self.new }
    {
        self.done = hear_piece(alloc, &mut self.listener, piece).is_ok();
    }
}

/// Lets all hear the members of a piece, side by side.
fn hear_side_by_side<T: Threads + Sync>(
    threads: &T,
    alloc: Global,
    readers: &mut [TogetherReader],
    piece: &JudgedPiece<'_>,
)
    requires { All (CanHear piece.now) readers.old }
    ensures { EachHeard (map result_ok piece.now.heard.items) readers.old readers.new }
{
    thread::for_each_mut(
        threads,
        readers,
        MOST_THREADS,
        &|_, reader| { reader.work(alloc, piece) },
    );
}

/// Whether there was memory for each.
fn are_done(readers: &[TogetherReader]) -> bool
    ensures { IsTrue result ↔ All (λ reader. reader.done ≡ true) readers.now }
{
    readers.iter().all(|reader| reader.done)
}

/// Lets all hear the members of a piece, side by side, if there is memory for each.
fn hear_members<T: Threads + Sync>(
    threads: &T,
    alloc: Global,
    readers: &mut [TogetherReader],
    piece: &JudgedPiece<'_>,
) -> Result<(), NoMemory>
    requires { All (CanHear piece.now) readers.old }
    ensures heard { OnOk result (listeners_in readers.new ≡ map (hears (map result_ok piece.now.heard.items)) (listeners_in readers.old)) }
    ensures air { (air : Air) → All (KnowsAir air) readers.old → All (KnowsAir air) readers.new }
{
    hear_side_by_side(threads, alloc, readers, piece);
    if !are_done(readers) {
        return Err(NoMemory);
    }
    Ok(())
}

/// Lets all hear a tape, a piece at a time.
fn hear_pieces<T: Threads + Sync>(
    threads: &T,
    alloc: Global,
    air: &Air,
    readers: &mut [TogetherReader],
    tape: &[u8],
) -> Result<(), NoMemory>
    requires whole { (tape_read tape.now).cut ≡ None }
    requires counts { All (λ l. heard_count l.state.counts + length (tape_read tape.now).records < 2 ^ 64) (listeners_in readers.old) }
    requires air { All (KnowsAir air.now) readers.old }
    ensures heard { OnOk result (listeners_in readers.new ≡ map (hears (map bucket_in (tape_read tape.now).records)) (listeners_in readers.old)) }
    ensures air { All (KnowsAir air.now) readers.new }
{
    let mut records = TapeReader::new(tape);
    let mut piece = next_piece(alloc, air, &mut records)?;
    while !piece.heard.is_empty() {
        hear_members(threads, alloc, readers, &piece)?;
        piece = next_piece(alloc, air, &mut records)?;
    }
    Ok(())
}

/// The listeners of all readers.
fn listeners_of_readers(
    alloc: Global,
    readers: Vec<TogetherReader>,
) -> Result<Vec<Listener>, NoMemory>
    ensures { IfOk result (λ ls. ls.items ≡ listeners_in readers.items) }
{
    let mut listeners = Vec::new(alloc);
    for reader in readers {
        let TogetherReader { listener, .. } = reader;
        listeners.push(listener)?;
    }
    Ok(listeners)
}

/// All readers of a deck, who hear the same, side by side: each record is decoded and judged once.
#[derive(Drop)]
pub struct Together {
    air: Air,
    readers: Vec<TogetherReader>,
}

impl Model for Together {
    ghost use Rattle.std.specs.Prelude.{List, map};
    ghost use Rattle.listeners.specs.Listeners.{Listener};

    ghost Value = { List Listener };

    ghost view = { λ t. map (λ reader. reader.listener) t.readers.items };

    ghost use Rattle.std.specs.Prelude.{All};
    ghost use Rattle.listeners.specs.Private.TogetherSteps.{KnowsAir};

    ghost invariant = { λ t. All (KnowsAir t.air) t.readers.items };
}

impl Together {
    /// Before anything is heard.
    pub fn new(alloc: Global, planned: &Planned) -> Result<Together, NoMemory>
        ensures { IfOk result (λ t. t ≡ map (listener_of planned.now) (range_with_len 0 (length planned.now.readers))) }
    {
        let air = Air::new(&planned.lend())?;
        let mut readers = Vec::new(alloc);
        for r in 0..planned.deck().readers() {
            readers.push(TogetherReader {
                listener: Listener::new(alloc, planned, r)?,
                done: true,
            })?;
        }
        Ok(Together { air, readers })
    }

    /// Lets all hear the records of a tape, or of a piece of one. `TapeReader` tells whether a tape is whole.
    pub fn hear<T: Threads + Sync>(
        &mut self,
        threads: &T,
        alloc: Global,
        tape: &[u8],
    ) -> Result<(), NoMemory>
        requires whole { (tape_read tape.now).cut ≡ None }
        requires counts { All (λ l. heard_count l.state.counts + length (tape_read tape.now).records < 2 ^ 64) self.old }
        ensures { OnOk result (self.new ≡ map (hears (map bucket_in (tape_read tape.now).records)) self.old) }
    {
        hear_pieces(threads, alloc, &self.air, &mut self.readers, tape)?;
        Ok(())
    }

    /// Ends the sessions of all, one after another.
    pub fn end(self, alloc: Global) -> Result<Sessions, NoMemory>
        requires { AreNumbered self }
        ensures verdicts { IfOk result (λ s. s.verdicts.items ≡ verdict_lines (map end_state self)) }
        ensures counts { IfOk result (λ s. s.counts.items ≡ counts_lines (map end_state self)) }
    {
        let listeners = listeners_of_readers(alloc, self.readers)?;
        let sessions = end_all(alloc, listeners)?;
        Ok(sessions)
    }
}
