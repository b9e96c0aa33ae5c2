//! The board: what the server airs, kept along with a history that the board never sees.
//!
//! The columns are in one flat list, n entries each; values and vector are lists of their own. `spare` is room for the column
//! that a commit writes and `marks` for the items that it writes, so that a step takes no memory. Contracts see a board as the
//! definition of the same name.

ghost use Rattle.std.specs.Prelude.{◌≡◌, ℕ, ◌+◌, ◌<◌, ◌≤◌, ◌^◌, List, [], ◌∷◌, ◌++◌, length, get_or, replicate, IfOk};
ghost use Rattle.air_base.specs.declared.limits.TheConstants.{MOST_VALUES};
ghost use Rattle.air_history.specs.declared.histories.Event.{Event};
ghost use Rattle.air_history.specs.Histories.{starts, ItemsFit};
ghost use Rattle.air_history.specs.Columns.{column, vector};
ghost use Rattle.air_history.specs.Tables.{table, values_of};
ghost use Rattle.air_history.specs.Boards.{board_of};
ghost use Rattle.control_matrix.specs.BoardSteps.{step_board};

use crate::columns::{column_of, step_columns};
use crate::marks::mark;
use air_base::NoMemory;
use air_history::{Event, run_event};
use air_lanes::stamp;
use std::alloc::Global;
use std::marker::Model;

/// The cycle, the values, the control column of each item and the write vector of a list of events.
#[derive(Drop)]
pub struct Board {
    cycle: u32,
    values: Vec<u64>,
    columns: Vec<u32>,
    vector: Vec<u32>,
    spare: Vec<u32>,
    marks: Vec<u32>,
}

impl Model for Board {
    ghost use Rattle.air_history.specs.Boards.{Board};

    ghost Value = { Board };

    ghost use Rattle.control_matrix.specs.BoardFields.{board_in, IsBoard};

    ghost view = { board_in };

    ghost invariant = { IsBoard };
}

impl Board {
    /// The board of the empty history: the given values, and all entries 0.
    pub fn new(alloc: Global, values: &[u64]) -> Result<Board, NoMemory>
        requires some { 1 ≤ length values.now }
        requires few { length values.now ≤ MOST_VALUES }
        ensures empty { IfOk result (λ b. b ≡ board_of values.now []) }
        ensures zeros { IfOk result (λ b. b ≡ record {
          cycle = 0;
          values = values.now;
          columns = replicate (length values.now) (replicate (length values.now) 0);
          vector = replicate (length values.now) 0;
        }) }
    {
        let n = values.len();
        Ok(Board {
            cycle: 0,
            values: values.to_vec(alloc)?,
            columns: vec![in alloc; 0; n * n]?,
            vector: vec![in alloc; 0; n]?,
            spare: vec![in alloc; 0; n]?,
            marks: vec![in alloc; 0; n]?,
        })
    }

    /// Changes the board to that of the history with the event added, for any history whose board this is. It takes no memory,
    /// and time for n entries at each item that the event reads or writes. `Event::fits` is the test for `fits`.
    pub fn apply(&mut self, event: &Event)
        requires fits { ItemsFit (length self.old.values) event.now }
        requires room { self.old.cycle + 1 < 2 ^ 32 }
        ensures stepped { self.new ≡ step_board self.old event.now }
        ensures followed { (values : List ℕ) (G : List Event) → self.old ≡ board_of values G →
            self.new ≡ board_of values (G ++ event.now ∷ []) }
    {
        event.shows_rules_kept();
        if event.is_start() {
            self.cycle += 1;
            return;
        }
        mark(&mut self.marks, event);
        step_columns(
            &mut self.columns,
            &mut self.spare,
            &self.marks,
            event,
            self.cycle,
        );
        stamp(&mut self.vector, &self.marks, self.cycle);
        run_event(event, &mut self.values);
    }

    /// The number of items.
    pub fn n(&self) -> u16
        ensures counted { result ≡ length self.now.values }
        ensures some { 1 ≤ result }
        ensures few { result ≤ MOST_VALUES }
    {
        self.values.len() as u16
    }

    /// The number of cycle starts, for each list of events whose board this is.
    pub fn cycle(&self) -> u32
        ensures found { result ≡ self.now.cycle }
        ensures after { (values : List ℕ) (G : List Event) → self.now ≡ board_of values G → result ≡ starts G }
    {
        self.cycle
    }

    /// The values of all items.
    pub fn values(&self) -> &[u64]
        ensures found { result.now ≡ self.now.values }
    {
        &self.values
    }

    /// The value of an item after each list of events whose board this is.
    pub fn value(&self, item: u16) -> u64
        requires { item < length self.now.values }
        ensures found { result ≡ get_or self.now.values item 0 }
        ensures after { (values : List ℕ) (G : List Event) → self.now ≡ board_of values G →
            result ≡ table (values_of values) G item }
    {
        self.values[item as usize]
    }

    /// The control column of an item, one entry for each item, after each list of events whose board this is.
    pub fn column(&self, item: u16) -> &[u32]
        requires { item < length self.now.values }
        ensures found { result.now ≡ get_or self.now.columns item [] }
        ensures after { (values : List ℕ) (G : List Event) → self.now ≡ board_of values G →
            result.now ≡ column (length values) G item }
        ensures sized { length result.now ≡ length self.now.values }
    {
        column_of(&self.columns, self.values.len(), item)
    }

    /// The write vector, one entry for each item, after each list of events whose board this is.
    pub fn vector(&self) -> &[u32]
        ensures found { result.now ≡ self.now.vector }
        ensures after { (values : List ℕ) (G : List Event) → self.now ≡ board_of values G →
            result.now ≡ vector (length values) G }
        ensures sized { length result.now ≡ length self.now.values }
    {
        &self.vector
    }
}
