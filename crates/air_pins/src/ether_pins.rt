//! These pins of `air_ether` say what a reader hears of the buckets that were pushed, which places an ether without bytes gives, and which words a
//! push draws.
//!
//! Each fixes a seed and the odds, so that what is due can be computed.
#![tactic(auto, unfolding(air_model::specs::Draws::words_by, air_model::specs::Ethers::times_heard, air_model::specs::Ethers::due_number, air_model::specs::Ethers::due_at, air_model::specs::Ethers::places_due, air_ether::specs::HeardSoFar::due_of))]

ghost use Rattle.std.specs.Prelude.{◌≡◌, ◌≤◌, [], ◌∷◌, codes, true, false, IfOk, MatchOption, Some};
ghost use Rattle.air_ether.specs.HeardSoFar.{IsQuiet};
ghost use Rattle.air_pins.specs.SmallEthers.{HasGivenBytes, HasGivenPlaces, nine, odds};

use air_base::NoMemory;
use air_ether::{Ether, PlaceEther};
use std::alloc::Global;

/// When the second push is made, the first one, which is delayed, is due with its own bucket. It also refuses that it is due one
/// push later.
/// Promise: the ether is its definition
pub fn bucket_of_another_place(ether: &mut Ether) -> Option<&[u8]>
    requires { HasGivenBytes 12 (odds 0 0 100) (codes "a" ∷ codes "b" ∷ []) 0 false ether.old }
    ensures { MatchOption result ⊥ (λ bytes. bytes.now ≡ codes "a") }
{
    ether.next()
}

/// The second of two copies comes right after the first.
/// Promise: the ether is its definition
pub fn copies_apart(ether: &mut Ether) -> Option<&[u8]>
    requires { HasGivenBytes 12 (odds 0 100 0) (codes "a" ∷ []) 1 false ether.old }
    ensures { MatchOption result ⊥ (λ bytes. bytes.now ≡ codes "a") }
{
    ether.next()
}

/// The first of nine pushes is heard eight pushes later, when the last one is made.
/// Promise: the ether is its definition
pub fn eight_rooms_for_nine(ether: &mut Ether) -> Option<&[u8]>
    requires { HasGivenBytes 1910 (odds 0 0 100) nine 0 false ether.old }
    ensures { MatchOption result ⊥ (λ bytes. bytes.now ≡ codes "a") }
{
    ether.next()
}

/// What waits is heard after the end too.
/// Promise: the ether is its definition
pub fn end_drops_what_waits(ether: &mut Ether) -> Option<&[u8]>
    requires { HasGivenBytes 12 (odds 0 0 100) (codes "a" ∷ []) 0 true ether.old }
    ensures { MatchOption result ⊥ (λ bytes. bytes.now ≡ codes "a") }
{
    ether.next()
}

/// The first copy of the second push is heard.
/// Promise: the ether is its definition
pub fn first_copy_passed_over(ether: &mut Ether) -> Option<&[u8]>
    requires { HasGivenBytes 12 (odds 0 0 0) (codes "a" ∷ codes "b" ∷ []) 1 false ether.old }
    ensures { MatchOption result ⊥ (λ bytes. bytes.now ≡ codes "b") }
{
    ether.next()
}

/// A push that is lost draws three words too. It also refuses that each push draws two.
/// Promise: the ether is its definition
pub fn lost_ones_draw_less(ether: &mut Ether, bytes: &[u8])
    requires ether { HasGivenBytes 12 (odds 100 0 0) [] 0 false ether.old }
    requires quiet { IsQuiet ether.old }
    requires room { 1 ≤ ether.old.most }
    requires bytes { bytes.now ≡ codes "a" }
    ensures { ether.new.generator ≡ record { state = 10277763919449554153; increment = 1 } }
{
    ether.push(bytes);
}

/// A delayed push isn't due at its own place.
/// Promise: the ether is its definition
pub fn place_before_due_number(ether: &mut Ether) -> Option<&[u8]>
    requires { HasGivenBytes 12 (odds 0 0 100) (codes "a" ∷ []) 0 false ether.old }
    ensures { MatchOption result (Unit {0}) (λ _. ⊥) }
{
    ether.next()
}

/// The words of reader 3 are its own.
/// Promise: the ether is its definition
pub fn readers_share_one_generator(alloc: Global) -> Result<Ether, NoMemory>
    ensures { IfOk result (λ ether. ether.generator ≡ record { state = 10238123810831757406; increment = 7 }) }
{
    Ether::new(alloc, 12, 3, 0, 0, 0, 4)
}

/// Of two late pushes the second is due first, and without bytes its place is given first too.
/// Promise: the ether is its definition
pub fn places_in_the_order_of_pushes(ether: &mut PlaceEther) -> Option<u64>
    requires { HasGivenPlaces 17 (odds 0 0 100) 2 0 true ether.old }
    ensures { result ≡ Some 1 }
{
    ether.next()
}

/// Nothing is due of the first two pushes when they are made, so a third one is made, at which the second is due. If the first push was the last one,
/// nothing would be heard; and if each place was due at its own push, place 0 would be.
/// Promise: the ether is its definition
pub fn one_push_before_the_next_place(ether: &mut PlaceEther) -> Option<u64>
    requires { HasGivenPlaces 17 (odds 0 0 100) 0 0 false ether.old }
    ensures { result ≡ Some 1 }
{
    ether.next_before(3)
}
