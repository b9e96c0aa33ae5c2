//! The frame that a monitor keeps: cycle, values, control columns, and the total of the values.
ghost use Rattle.std.specs.Prelude.{◌≡◌, ℕ, ◌<◌, ◌%◌, ◌^◌, List, [], length, get_or, sum, All, IfOk};
ghost use Rattle.air_history.specs.declared.histories.Event.{Event};
ghost use Rattle.air_history.specs.Boards.{board_of, frame_of};

use air_base::NoMemory;
use control_matrix::Board;
use std::alloc::Global;
use std::marker::Model;

/// A frame. Contracts see it as the definition `Frame`.
#[derive(Drop)]
pub struct KeptFrame {
    cycle: u32,
    values: Vec<u64>,
    columns: Vec<Vec<u32>>,
    total: u64,
}

impl Model for KeptFrame {
    ghost use Rattle.air_history.specs.Boards.{Frame};
    ghost use Rattle.cycle_snapshot.specs.Private.FrameFields.{frame_in, IsFrame};

    ghost Value = { Frame };

    ghost view = { frame_in };

    ghost invariant = { IsFrame };
}

/// The sum of the values modulo 2^64.
fn total_of(values: &[u64]) -> u64
    ensures { result ≡ sum values.now % 2 ^ 64 }
{
    let mut total = 0_u64;
    for value in values {
        total = total.wrapping_add(*value);
    }
    total
}

/// Copies the board's values.
fn copy_values(values: &mut [u64], board: &Board)
    requires { length values.old ≡ length board.now.values }
    ensures { values.new ≡ board.now.values }
{
    for item in 0..board.n() {
        values[item as usize] = board.value(item);
    }
}

/// Copies the board's columns.
fn copy_columns(columns: &mut [Vec<u32>], board: &Board)
    requires sized { (length columns.old ≡ length board.now.values) × All (λ c. length c.items ≡ length board.now.values) columns.old }
    ensures sized { (length columns.new ≡ length board.now.values) × All (λ c. length c.items ≡ length board.now.values) columns.new }
    ensures columns { (k : ℕ) (d : _) → k < length board.now.values → (get_or columns.new k d).items ≡ get_or board.now.columns k [] }
{
    for item in 0..board.n() {
        columns[item as usize].copy_from_slice(board.column(item));
    }
}

/// This many columns, each with as many zeros.
fn zero_columns(alloc: Global, n: u16) -> Result<Vec<Vec<u32>>, NoMemory>
    ensures { IfOk result (λ columns. (length columns.items ≡ n) × All (λ c. length c.items ≡ n) columns.items) }
{
    let mut columns = Vec::new(alloc);
    for _ in 0..n {
        columns.push(vec![in alloc; 0; n as usize]?)?;
    }
    Ok(columns)
}

impl KeptFrame {
    /// The frame of the list of events whose board this is.
    pub fn of_board(alloc: Global, board: &Board) -> Result<KeptFrame, NoMemory>
        ensures { IfOk result (λ f. (values : List ℕ) (G : List Event) → board.now ≡ board_of values G → f ≡ frame_of values G) }
    {
        let n = board.n();
        let mut frame = KeptFrame {
            cycle: 0,
            values: vec![in alloc; 0; n as usize]?,
            columns: zero_columns(alloc, n)?,
            total: 0,
        };
        frame.copy(board);
        Ok(frame)
    }

    /// Makes this the frame of the list of events whose board that is. It takes no memory.
    pub fn copy(&mut self, board: &Board)
        requires { length self.old.values ≡ length board.now.values }
        ensures { (values : List ℕ) (G : List Event) → board.now ≡ board_of values G → self.new ≡ frame_of values G }
    {
        self.cycle = board.cycle();
        copy_values(&mut self.values, board);
        copy_columns(&mut self.columns, board);
        self.total = total_of(&self.values);
    }

    /// The number of cycle starts.
    pub fn cycle(&self) -> u32
        ensures { result ≡ self.now.cycle }
    {
        self.cycle
    }

    /// The value of an item.
    pub fn value(&self, item: u16) -> u64
        requires { item < length self.now.values }
        ensures { result ≡ get_or self.now.values item 0 }
    {
        self.values[item as usize]
    }

    /// The control column of an item.
    pub fn column(&self, item: u16) -> &[u32]
        requires { item < length self.now.values }
        ensures { result.now ≡ get_or self.now.columns item [] }
    {
        &self.columns[item as usize]
    }

    /// The sum of the values modulo 2^64.
    pub fn total(&self) -> u64
        ensures { result ≡ self.now.total }
    {
        self.total
    }
}
