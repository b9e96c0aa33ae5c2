//! The laws of sessions: both judges give one session of a list that a history aired; what each line tells; settling ends;
//! lines are only added; dozing only counts; and what a deck's readers tell.
//!
//! Each function's contract is one law of the definitions in `Judges` and `Sessions` of `specs/`; the bodies are empty.

ghost use Rattle.std.specs.Prelude.{◌≡◌, ℕ, ◌<◌, ◌≤◌, List, [], length, map, All, Option, None};
ghost use Rattle.std.specs.Option.{option_map};
ghost use Rattle.air_base.specs.declared.verdicts.Policy.TheVariants.{FMatrix};
ghost use Rattle.air_history.specs.declared.histories.Event.{Event};
ghost use Rattle.air_history.specs.Columns.{Scheme};
ghost use Rattle.air_model.specs.Buckets.{Bucket};
ghost use Rattle.air_model.specs.Decks.{Deck, IsDeck, values_in};
ghost use Rattle.air_model.specs.Aired.{scheme_in, Air, IsAired, SlotsFit, air_of};
ghost use Rattle.air_model.specs.AiredLaws.{CanAir};
ghost use Rattle.air_model.specs.Judges.{Judge, by_entries, by_history};
ghost use Rattle.air_model.specs.Sessions.{Reader, SessionLine, State, copy_of, end_query, hear, session, settle, turn, wanted};
ghost use Rattle.air_model.specs.SessionLaws.{CyclesFromOne, IsExactLine, IsOfReader, IsSoundLine, IsUnwanted, NamesHeld, QueriesFilled, after, bare, dozed_through, hear_each, newest_of};
ghost use Rattle.air_model.specs.ReceiverLaws.{IsTrueSession};
ghost use Rattle.air_model.specs.Outputs.{ether_of, sessions_over, true_sessions};

/// A list that a history aired has one session, by the history and by the entries.
pub fn judges_law()
    ensures { (values : List ℕ) (air : Air) (H : List Event) (reader : Reader) (heard : List (Option Bucket)) →
        SlotsFit air → QueriesFilled reader → IsAired values air H heard →
        session (by_history air.scheme air.items values H) air reader heard ≡ session (by_entries air.scheme) air reader heard }
{}

/// By the history a session is the same over bare buckets: it uses no column, no vector and no heard value.
pub fn bare_law()
    ensures { (values : List ℕ) (air : Air) (H : List Event) (reader : Reader) (heard : List (Option Bucket)) →
        let s = session (by_history air.scheme air.items values H) air reader heard in
        let t = session (by_history air.scheme air.items values H) air reader (map (option_map bare) heard) in
        (t.lines ≡ s.lines) × (t.counts ≡ s.counts) }
{}

/// Every line by the history is sound, for every heard list: its reads are consistent and share the policy's cycle, and its
/// values are those that their updates give when they run alone.
pub fn sound_law()
    ensures { (values : List ℕ) (air : Air) (H : List Event) (reader : Reader) (heard : List (Option Bucket)) →
        QueriesFilled reader → CyclesFromOne air heard →
        All (IsSoundLine values air.scheme.policy H) (session (by_history air.scheme air.items values H) air reader heard).lines }
{}

/// Every verdict by the history under F-Matrix without groups is exact, for every heard list. An attempt is aged if and only if
/// its reads are too far apart for the air's version. Otherwise a query is accepted if and only if its reads are whole and
/// consistent, and aborted if and only if they aren't consistent.
pub fn exact_law()
    ensures { (values : List ℕ) (air : Air) (H : List Event) (reader : Reader) (heard : List (Option Bucket)) →
        air.scheme.policy ≡ FMatrix → air.scheme.group ≡ 0 → QueriesFilled reader → CyclesFromOne air heard →
        All (IsExactLine air.version H reader) (session (by_history air.scheme air.items values H) air reader heard).lines }
{}

/// If a new read clashes, both judges name a held read.
pub fn names_law()
    ensures { (scheme : Scheme) (n : ℕ) (values : List ℕ) (H : List Event) →
        NamesHeld (by_history scheme n values H) × NamesHeld (by_entries scheme) }
{}

/// Every line is the reader's, by each judge that names held reads and for every heard list: its query, its attempt and its
/// reads.
pub fn reader_law()
    ensures { (judge : Judge) (air : Air) (reader : Reader) (heard : List (Option Bucket)) →
        NamesHeld judge → QueriesFilled reader → 1 ≤ reader.plan.tries →
        All (IsOfReader reader) (session judge air reader heard).lines }
{}

/// After settling, the wanted item has no copy, and one more turn changes nothing. So settling is taking turns as long as the
/// wanted item has a copy.
pub fn settle_law()
    ensures settled { (judge : Judge) (air : Air) (reader : Reader) (s : State) →
        copy_of (wanted reader (settle judge air reader s)) (settle judge air reader s) ≡ None }
    ensures stays { (judge : Judge) (air : Air) (reader : Reader) (s : State) →
        copy_of (wanted reader s) s ≡ None → settle judge air reader s ≡ s }
    ensures goes_on { (judge : Judge) (air : Air) (reader : Reader) (s : State) →
        settle judge air reader (turn judge air reader s) ≡ settle judge air reader s }
{}

/// Lines are only added at the end, and no rule looks at them, so each line may be handed out as it comes.
pub fn lines_law()
    ensures turning { (judge : Judge) (air : Air) (reader : Reader) (L : List SessionLine) (s : State) →
        turn judge air reader (after L s) ≡ after L (turn judge air reader s) }
    ensures settling { (judge : Judge) (air : Air) (reader : Reader) (L : List SessionLine) (s : State) →
        settle judge air reader (after L s) ≡ after L (settle judge air reader s) }
    ensures hearing { (judge : Judge) (air : Air) (reader : Reader) (L : List SessionLine) (s : State) (o : Option Bucket) →
        hear judge air reader o (after L s) ≡ after L (hear judge air reader o s) }
    ensures ending { (judge : Judge) (air : Air) (reader : Reader) (L : List SessionLine) (s : State) →
        end_query judge air reader (after L s) ≡ after L (end_query judge air reader s) }
{}

/// Buckets that a settled receiver doesn't want are only counted, and the newest cycle is noted. The receiver stays settled.
pub fn doze_law()
    ensures counts { (judge : Judge) (air : Air) (reader : Reader) (buckets : List Bucket) (s : State) →
        copy_of (wanted reader s) s ≡ None → All (IsUnwanted air reader s) buckets →
        hear_each judge air reader buckets s ≡ dozed_through (length buckets) (newest_of s.now buckets) s }
    ensures settled { (judge : Judge) (air : Air) (reader : Reader) (buckets : List Bucket) (s : State) →
        copy_of (wanted reader s) s ≡ None → All (IsUnwanted air reader s) buckets →
        let t = hear_each judge air reader buckets s in copy_of (wanted reader t) t ≡ None }
{}

/// If some history aired what a reader of a well made deck heard, its session is true. The history doesn't have to be the
/// deck's.
pub fn receiver_law()
    ensures { (deck : Deck) (H : List Event) (r : ℕ) (heard : List (Option Bucket)) →
        IsDeck deck → r < length deck.readers → IsAired (values_in deck) (air_of deck) H heard →
        IsTrueSession deck H r heard }
{}

/// Readers that hear a history through their ethers, and judge by the entries, have the sessions that the history gives.
pub fn true_sessions_law()
    ensures { (deck : Deck) (H : List Event) → CanAir deck H →
        sessions_over (by_entries (scheme_in deck)) deck (ether_of deck H) ≡ true_sessions deck H }
{}
