//! The rule of the two sides, and the steps of the writer and of readers. A view is the side that was seen last.
use crate::board_sides::{BoardSide, News};
use atomic_table::{Join, Split};
use crossbeam_utils::rule::{Outcome, Protocol};
use left_right::reader::Reader;
use left_right::writer::Writer;

/// The rule: the shown side is the board of its list, which continues what each seat saw.
pub struct SideRule;

impl Protocol<BoardSide, Option<BoardSide>> for SideRule {
    ghost use Rattle.std.specs.Prelude.{None};
    ghost use Rattle.cycle_snapshot.specs.SideRule.{Keeps};

    ghost holds = { Keeps };

    ghost first = { None };
}

/// The step that sees the shown side: a look, or a batch published.
pub struct SightStep;

impl Outcome<BoardSide, Option<BoardSide>> for SightStep {
    ghost use Rattle.cycle_snapshot.specs.SideRule.{Sees};

    ghost then = { Sees };
}

/// The step by which a new reader sees what the writer saw.
pub struct TellRule;

impl Split<Option<BoardSide>> for TellRule {
    ghost left = { λ v. v };

    ghost right = { λ v. v };
}

impl Join<Option<BoardSide>> for TellRule {
    ghost use Rattle.std.specs.Prelude.{None};

    ghost both = { λ v w. w };

    ghost spent = { None };
}

/// A monitor's reader of the shown side.
pub type SideReader = Reader<BoardSide, Option<BoardSide>, SideRule>;

/// The writer of both sides.
pub type SideWriter = Writer<BoardSide, News, Option<BoardSide>, SideRule>;
