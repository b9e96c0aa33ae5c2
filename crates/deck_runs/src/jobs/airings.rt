//! What the cycles of a job are aired from: the board itself, or its groups, which are filled from the board before.

ghost use Rattle.std.specs.Prelude.{◌≡◌, ◌⊎◌, ℕ, ◌<◌, ◌≤◌, ◌+◌, ◌*◌, List, length, IfErr, OnOk};
ghost use Rattle.air_base.specs.declared.limits.TheConstants.{MOST_FULL_ITEMS};
ghost use Rattle.air_base.specs.declared.verdicts.Form.{Form};
ghost use Rattle.air_history.specs.declared.histories.Event.{Event};
ghost use Rattle.air_history.specs.Boards.{Board};
ghost use Rattle.air_history.specs.Columns.{Scheme};
ghost use Rattle.air_model.specs.Aired.{Air};
ghost use Rattle.air_model.specs.Buckets.{entry_len};
ghost use Rattle.air_model.specs.Disks.{all_items};
ghost use Rattle.air_model.specs.Programs.{program as slots_of};
ghost use Rattle.air_sender.specs.AirFaults.{IsAirAnswer, SendsUpToFault};
ghost use Rattle.air_sender.specs.BoardBuckets.{EntriesBelow, IsLastBoard, aired_board, board_bytes, last_bytes, spread};
ghost use Rattle.bucket_codec.specs.declared.offsets.TheConstants.{HEAD_BYTES};
ghost use Rattle.group_matrix.specs.GroupBoards.{grouped};

use air_base::Form;
use air_devices::Mast;
use air_sender::{AirFault, air_cycle, air_group_cycle};
use chunk_program::Program;
use control_matrix::Board;
use group_matrix::GroupBoard;

/// Airs the cycle of a board, for which it is filled before.
pub trait Airing {
    /// The number of items of a group, 0 without groups.
    ghost group: { Self → ℕ };

    /// It can air boards of this number of items in this form.
    ghost suits: { Self → ℕ → Form → Type 0 };

    /// It is filled from this board.
    ghost ready: { Self → Board → Type 0 };

    /// What is aired from a board.
    ghost source: { Self → Board → Board };

    /// Prepares what the board's cycle is aired from.
    fn fill_from(&mut self, board: &Board)
        requires suits { (form : Form) × suits self.old (length board.now.values) form }
        ensures ready { ready self.new board.now }
        ensures group { group self.new ≡ group self.old }
        ensures suits { (n : ℕ) (form : Form) → suits self.old n form → suits self.new n form };

    /// Sends the bucket of each slot in order for the board's cycle.
    fn air<M: Mast>(
        &self,
        program: &Program,
        board: &Board,
        form: Form,
        mast: &mut M,
        buf: &mut [u8],
    ) -> Result<(), AirFault>
        requires started { 1 ≤ board.now.cycle }
        requires below { EntriesBelow board.now }
        requires groups_below { (g : ℕ) → 0 < g → EntriesBelow (spread (grouped g board.now)) }
        requires suits { suits self.now (length board.now.values) form }
        requires ready { ready self.now board.now }
        requires items { length (all_items program.now.disks) ≡ length board.now.values }
        requires version { (form.version ≡ 1) ⊎ (form.version ≡ 2) }
        requires few { form.version ≡ 1 → length board.now.values ≤ MOST_FULL_ITEMS }
        requires room { HEAD_BYTES + entry_len form.version * length board.now.values ≤ length buf.old }
        ensures from { (scheme : Scheme) → scheme.policy ≡ form.policy → scheme.group ≡ group self.now → source self.now board.now ≡ aired_board scheme board.now }
        ensures history { (values : List ℕ) (air : Air) (G : List Event) → IsLastBoard values air G form program.now.edition (slots_of program.now.disks) (source self.now board.now) →
            SendsUpToFault (last_bytes values air G) result (M.state mast.old).told (M.state mast.new).told }
        ensures calm { OnOk result ((M.state mast.new).faults ≡ (M.state mast.old).faults) }
        ensures fault { IfErr result (IsAirAnswer M.state (board_bytes form program.now.edition (slots_of program.now.disks) (source self.now board.now)) mast.old mast.new) }
        ensures port { (M.state mast.new).port ≡ (M.state mast.old).port }
        ensures buffer { length buf.new ≡ length buf.old };
}

impl Airing for GroupBoard {
    ghost use Rattle.air_sender.specs.BoardBuckets.{spread};
    ghost use Rattle.deck_runs.specs.Private.Airings.{AreFilled, SuitGroups};

    ghost group = { λ groups. groups.group };

    ghost suits = { SuitGroups };

    ghost ready = { AreFilled };

    ghost source = { λ groups board. spread groups };

    fn fill_from(&mut self, board: &Board) {
        self.fill(board);
    }

    fn air<M: Mast>(
        &self,
        program: &Program,
        _board: &Board,
        form: Form,
        mast: &mut M,
        buf: &mut [u8],
    ) -> Result<(), AirFault> {
        air_group_cycle(program, self, form, mast, buf)
    }
}

/// Airs the board itself.
#[derive(Drop)]
pub struct WithoutGroups;

impl Airing for WithoutGroups {
    ghost use Rattle.deck_runs.specs.Private.Airings.{AirsAny, IsItself, itself, no_group};

    ghost group = { no_group };

    ghost suits = { AirsAny };

    ghost ready = { IsItself };

    ghost source = { itself };

    fn fill_from(&mut self, _board: &Board) {}

    fn air<M: Mast>(
        &self,
        program: &Program,
        board: &Board,
        form: Form,
        mast: &mut M,
        buf: &mut [u8],
    ) -> Result<(), AirFault> {
        air_cycle(program, board, form, mast, buf)
    }
}
