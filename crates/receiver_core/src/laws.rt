//! The laws of a receiver: to give out line by line is to settle, what is held of a history, and which item is wanted.
//!
//! Each function's contract is one law; the bodies are empty.

ghost use Rattle.std.specs.Prelude.{◌≡◌, ℕ, false, List, [], length, map, take, Option};
ghost use Rattle.air_history.specs.declared.histories.Event.{Event};
ghost use Rattle.air_history.specs.ClashLaws.{IsSound};
ghost use Rattle.air_history.specs.UpdateRules.{has_repeat};
ghost use Rattle.air_model.specs.Aired.{Air, SlotsFit};
ghost use Rattle.air_model.specs.Buckets.{Bucket};
ghost use Rattle.air_model.specs.Judges.{Judge, by_entries, place_of};
ghost use Rattle.air_model.specs.SessionLaws.{QueriesFilled};
ghost use Rattle.air_model.specs.Sessions.{Reader, State, end_query, hear, query_of, settle, start, wanted};
ghost use Rattle.receiver_core.specs.HeldTruths.{HoldsTruly, WasAired, first_unheld};
ghost use Rattle.receiver_core.specs.ReceiverSteps.{step};

/// After a step settling gives the same state as before it. A step that gives no line settles.
pub fn step_law()
    ensures steps { (judge : Judge) (air : Air) (reader : Reader) (s : State) →
        settle judge air reader (step judge air reader s) ≡ settle judge air reader s }
    ensures no_line { (judge : Judge) (air : Air) (reader : Reader) (s : State) →
        (step judge air reader s).lines ≡ [] → step judge air reader s ≡ settle judge air reader s }
{}

/// As long as a history aired what a receiver hears, its held reads are that history's, each in its turn accepted by the
/// policy: so it begins, and each call keeps it. Such reads are consistent, and share the cycle that the policy gives them.
pub fn held_law()
    ensures starting { (air : Air) (H : List Event) (reader : Reader) → QueriesFilled reader → HoldsTruly air H reader start }
    ensures hearing { (values : List ℕ) (air : Air) (H : List Event) (reader : Reader) (member : Option Bucket) (s : State) →
        SlotsFit air → QueriesFilled reader → WasAired values air H member → HoldsTruly air H reader s →
        HoldsTruly air H reader (hear (by_entries air.scheme) air reader member s) }
    ensures stepping { (air : Air) (H : List Event) (reader : Reader) (s : State) → QueriesFilled reader →
        HoldsTruly air H reader s → HoldsTruly air H reader (step (by_entries air.scheme) air reader s) }
    ensures ending { (air : Air) (H : List Event) (reader : Reader) (s : State) → QueriesFilled reader →
        HoldsTruly air H reader s → HoldsTruly air H reader (end_query (by_entries air.scheme) air reader s) }
    ensures sound { (air : Air) (H : List Event) (reader : Reader) (s : State) →
        HoldsTruly air H reader s → IsSound air.scheme.policy H (map place_of s.held) }
{}

/// Among distinct items, of which the first ones are held, the wanted one is the first that isn't.
pub fn wanted_law()
    ensures { (reader : Reader) (s : State) → has_repeat (query_of reader s) ≡ false →
        map (λ r. r.item) s.held ≡ take (length s.held) (query_of reader s) → wanted reader s ≡ first_unheld reader s }
{}
