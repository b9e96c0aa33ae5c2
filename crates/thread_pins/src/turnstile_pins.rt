//! These pins of `turnstile` say which numbers new passes have, and what a pass knows after a join.
//!
//! The turnstile's value may be any chronicle.

ghost use Rattle.std.specs.Prelude.{◌≡◌, [], ◌∷◌, length, slice_get, IfOk, Some, None};
ghost use Rattle.turnstile.specs.PassEntries.{Below};

use air_base::NoMemory;
use std::alloc::Global;
use turnstile::{Chronicle, Pass, Turnstile};

/// Two passes that are made together have the numbers 0 and 1, in this order, each only its own. It also refuses passes that are handed out from the
/// last, and two passes of one number.
/// Promise: the turnstile passes on what was seen
pub fn last_pass_not_dealt<K: Chronicle + Drop>(
    alloc: Global,
    value: K,
) -> Result<(Turnstile<K>, Vec<Pass<K>>), NoMemory>
    requires { Below 2 (K.entries value) }
    ensures count { IfOk result (λ made. length made.1.items ≡ 2) }
    ensures first { IfOk result (λ made. (p : _) → slice_get made.1.items 0 ≡ Some p → p.numbers ≡ 0 ∷ []) }
    ensures second { IfOk result (λ made. (p : _) → slice_get made.1.items 1 ≡ Some p → p.numbers ≡ 1 ∷ []) }
{
    Turnstile::new(alloc, value, 2)
}

/// After a join a pass has its own number and then the other's, and has seen the longer list. It also refuses that the shorter list is kept, and that
/// the two passes change places.
/// Promise: the turnstile passes on what was seen
pub fn join_forgets_the_others_numbers<K: Chronicle>(
    turnstile: &Turnstile<K>,
    pass: &mut Pass<K>,
    other: Pass<K>,
)
    requires own { (pass.old.turnstile ≡ turnstile.now) × (other.turnstile ≡ turnstile.now) }
    requires outside { (pass.old.turn ≡ None) × (other.turn ≡ None) }
    requires numbers { (pass.old.numbers ≡ 0 ∷ []) × (other.numbers ≡ 1 ∷ []) }
    requires seen { (pass.old.seen ≡ []) × (length other.seen ≡ 1) }
    ensures numbers { pass.new.numbers ≡ 0 ∷ 1 ∷ [] }
    ensures seen { pass.new.seen ≡ other.seen }
{
    turnstile.join(pass, other);
}
