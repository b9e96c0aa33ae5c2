//! These pins say for which words `waits` of `air_cli` answers that their command waits. The program gives the others to `air_quiet`.
#![tactic(auto, unfolding(air_base::specs::Numbers::number_of))]

ghost use Rattle.std.specs.Prelude.{◌≡◌, true, false, [], ◌∷◌, codes, map, string_bytes};

use air_cli::words::waits;

/// `run d t`, `cast d 7` and `listen d 7` wait.
/// Promise: every answer is a named one
pub fn waiting_command_left_to_air_quiet(words: &[String]) -> bool
    ensures run { map (λ w. string_bytes w) words.now ≡ codes "run" ∷ codes "d" ∷ codes "t" ∷ [] → result ≡ true }
    ensures cast { map (λ w. string_bytes w) words.now ≡ codes "cast" ∷ codes "d" ∷ codes "7" ∷ [] → result ≡ true }
    ensures listen { map (λ w. string_bytes w) words.now ≡ codes "listen" ∷ codes "d" ∷ codes "7" ∷ [] → result ≡ true }
{
    waits(words)
}

/// `script d t`, words that are no command, and no words don't wait: the program runs them by the call that ends.
/// Promise: every answer is a named one
pub fn every_command_left_to_wait(words: &[String]) -> bool
    ensures script { map (λ w. string_bytes w) words.now ≡ codes "script" ∷ codes "d" ∷ codes "t" ∷ [] → result ≡ false }
    ensures port { map (λ w. string_bytes w) words.now ≡ codes "cast" ∷ codes "d" ∷ codes "0" ∷ [] → result ≡ false }
    ensures none { map (λ w. string_bytes w) words.now ≡ [] → result ≡ false }
{
    waits(words)
}
