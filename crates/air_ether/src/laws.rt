//! The laws of what is due, each the contract of a function that does nothing.

ghost use Rattle.std.specs.Prelude.{◌≡◌, ℕ, Bool, true, false, List, ◌++◌};
ghost use Rattle.air_model.specs.Ethers.{Odds, heard_by};
ghost use Rattle.air_ether.specs.HeardSoFar.{due_of};

/// After the end, what is due is the heard list.
pub fn heard_law()
    ensures { (seed number : ℕ) (odds : Odds) (pushed : List (List ℕ)) → due_of seed number odds pushed true ≡ heard_by seed number odds pushed }
{}

/// What is due is the beginning of what is due after further pushes, or after the end.
pub fn due_first_law()
    ensures { (seed number : ℕ) (odds : Odds) (pushed later : List (List ℕ)) (ended : Bool) →
        (rest : List (List ℕ)) × (due_of seed number odds (pushed ++ later) ended ≡ due_of seed number odds pushed false ++ rest) }
{}
