//! The words of the cases.
//!
//! `policy` begins an attempt with nothing held, by the letter of a policy and over a number of items. `hold` and `try` take an item, a cycle and the
//! entries that are heard with it. `seeds` plays attempts of drawn reads. `deck` sets the text of a deck, and `receiver` makes its receiver of a
//! number, which the other words are about.

use crate::attempts::Attempt;
use crate::receivers::{call, new_receiver};
use crate::seeds::play_seeds;
use air_base::NoMemory;
use case_lines::{BadCase, Parts, Player};
use receiver_core::Receiver;
use std::alloc::Global;

/// The current attempt, the text of a deck, and the current receiver.
#[derive(Drop)]
pub struct Cases {
    pub attempt: Option<Attempt>,
    pub deck: Vec<u8>,
    pub receiver: Option<Receiver>,
}

/// A case about held reads.
fn play_held(
    alloc: Global,
    attempt: &mut Attempt,
    word: &[u8],
    parts: &mut Parts<'_>,
    came: &mut Vec<u8>,
) -> Result<(), NoMemory> {
    match word {
        b"hold" => {
            let item = parts.small();
            let cycle = parts.narrow();
            attempt.read(item, cycle, &parts.entries(alloc)?, true, came)?;
        }
        b"try" => {
            let item = parts.small();
            let cycle = parts.narrow();
            attempt.read(item, cycle, &parts.entries(alloc)?, false, came)?;
        }
        b"held" => attempt.show(came)?,
        b"clear" => attempt.clear(),
        _ => parts.refuse(BadCase::NoCall),
    }
    Ok(())
}

impl Player for Cases {
    fn play(
        &mut self,
        alloc: Global,
        word: &[u8],
        parts: &mut Parts<'_>,
        came: &mut Vec<u8>,
    ) -> Result<(), NoMemory> {
        match word {
            b"policy" => {
                let policy = parts.policy();
                self.attempt = Some(Attempt::new(alloc, policy, parts.small())?);
                self.receiver = None;
            }
            b"seeds" => play_seeds(alloc, parts, came)?,
            b"deck" => self.deck = parts.text(alloc)?,
            b"receiver" => self.receiver = new_receiver(alloc, &self.deck, parts, came)?,
            _ => match &mut self.receiver {
                Some(receiver) => call(alloc, receiver, word, parts, came)?,
                None => match &mut self.attempt {
                    Some(attempt) => play_held(alloc, attempt, word, parts, came)?,
                    None => parts.refuse(BadCase::NoCall),
                },
            },
        }
        Ok(())
    }
}
