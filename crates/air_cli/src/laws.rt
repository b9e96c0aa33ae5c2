//! The laws of the top calls: of two calls, and of drills. The bodies are empty.

ghost use Rattle.std.specs.Prelude.{◌≡◌, ℕ, List, [], ◌∷◌, codes, Contains};
ghost use Rattle.air_devices.specs.Ears.{EarState};
ghost use Rattle.air_devices.specs.Masts.{MastState};
ghost use Rattle.air_devices.specs.Shelves.{ShelfState};
ghost use Rattle.air_report.specs.Statuses.{status_number};
ghost use Rattle.air_report.specs.declared.status.Status.{Status};
ghost use Rattle.air_cli.specs.Deliveries.{IsGiven};
ghost use Rattle.air_cli.specs.ReportsAndTapes.{ReportAndTape};
ghost use Rattle.air_cli.specs.Commands.{quiet_meaning};
ghost use Rattle.air_cli.specs.OnAir.{words_meaning};
ghost use Rattle.air_cli.specs.Words.{asked_of};
ghost use Rattle.air_cli.specs.ToldInputs.{IsDecided, TellSameInputs};
ghost use Rattle.air_cli.specs.Answers.{IsSuccess, QuietAnswers};

/// A command that its inputs decide has one output. Two successful calls of it, with the same words and over shelves that tell the same inputs, print
/// the same text, write the same tape and end with the same status. This holds of calls of `air_main`, over any masts and ears, and of calls of
/// `air_quiet`, whose commands are all of this kind.
pub fn one_output_law()
    ensures words { (words : List (List ℕ)) (mast mast_now other_mast other_mast_now : MastState) (ear ear_now other_ear other_ear_now : EarState) (before now other_before other_now : ShelfState) (s other : Status) →
        IsDecided (asked_of words) →
        TellSameInputs (words_meaning (asked_of words) mast mast_now ear ear_now) before other_before →
        IsSuccess s → IsSuccess other →
        QuietAnswers (words_meaning (asked_of words) mast mast_now ear ear_now) before now s →
        QuietAnswers (words_meaning (asked_of words) other_mast other_mast_now other_ear other_ear_now) other_before other_now other →
        (s ≡ other) × ((given : ReportAndTape) × IsGiven (words_meaning (asked_of words) mast mast_now ear ear_now).output given before now
        × IsGiven (words_meaning (asked_of words) mast mast_now ear ear_now).output given other_before other_now) }
    ensures quiet { (words : List (List ℕ)) (before now other_before other_now : ShelfState) (s other : Status) →
        TellSameInputs (quiet_meaning (asked_of words)) before other_before →
        IsSuccess s → IsSuccess other →
        QuietAnswers (quiet_meaning (asked_of words)) before now s →
        QuietAnswers (quiet_meaning (asked_of words)) other_before other_now other →
        (s ≡ other) × ((given : ReportAndTape) × IsGiven (quiet_meaning (asked_of words)).output given before now
        × IsGiven (quiet_meaning (asked_of words)).output given other_before other_now) }
{}

/// Words that begin with `drill` end with status 0, 1, 4 or 5: no file is read for them, and no deck is refused.
pub fn drill_statuses_law()
    ensures { (words : List (List ℕ)) (mast mast_now : MastState) (ear ear_now : EarState) (before now : ShelfState) (s : Status) →
        QuietAnswers (words_meaning (asked_of (codes "drill" ∷ words)) mast mast_now ear ear_now) before now s → Contains (0 ∷ 1 ∷ 4 ∷ 5 ∷ []) (status_number s) }
{}
