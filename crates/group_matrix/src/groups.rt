//! The board by groups. Its columns are in one flat list, one for each group.
//!
//! `fill` computes it anew from a board. Contracts see it as the definition's record.

ghost use Rattle.std.specs.Prelude.{◌≡◌, ℕ, ◌<◌, ◌≤◌, List, length, get_or, replicate, IfOk};
ghost use Rattle.air_base.specs.declared.limits.TheConstants.{MOST_GROUP, MOST_VALUES};
ghost use Rattle.air_history.specs.declared.histories.Event.{Event};
ghost use Rattle.air_history.specs.Boards.{board_of};
ghost use Rattle.group_matrix.specs.GroupBoards.{IsOfEvents, count_groups, grouped, item_column};

use crate::rows::{count_groups, fill_rows, row_of};
use air_base::NoMemory;
use control_matrix::Board;
use std::alloc::Global;
use std::marker::Model;

/// The cycle, the values, and the column of each group of items.
#[derive(Drop)]
pub struct GroupBoard {
    cycle: u32,
    values: Vec<u64>,
    group: u16,
    columns: Vec<u32>,
}

impl Model for GroupBoard {
    ghost use Rattle.group_matrix.specs.GroupBoards.{GroupBoard};

    ghost Value = { GroupBoard };

    ghost use Rattle.group_matrix.specs.GroupFields.{group_board_in, IsGroupBoard};

    ghost view = { group_board_in };

    ghost invariant = { IsGroupBoard };
}

impl GroupBoard {
    /// A board of `n` items in groups of `group`, with the cycle, the values and the entries 0.
    pub fn new(alloc: Global, n: u16, group: u16) -> Result<GroupBoard, NoMemory>
        requires some { 1 ≤ n }
        requires few { n ≤ MOST_VALUES }
        requires some_group { 1 ≤ group }
        requires few_group { group ≤ MOST_GROUP }
        ensures zeros { IfOk result (λ b. b ≡ record {
          cycle = 0;
          values = replicate n 0;
          group = group;
          columns = replicate (count_groups group n) (replicate n 0);
        }) }
    {
        let n = usize::from(n);
        Ok(GroupBoard {
            cycle: 0,
            values: vec![in alloc; 0; n]?,
            group,
            columns: vec![in alloc; 0; count_groups(group, n) * n]?,
        })
    }

    /// Computes the board by groups anew from a board of as many items. It takes no memory, and the time of one pass over the
    /// board's columns.
    pub fn fill(&mut self, board: &Board)
        requires items { length self.old.values ≡ length board.now.values }
        ensures filled { self.new ≡ grouped self.old.group board.now }
        ensures followed { (values : List ℕ) (G : List Event) → board.now ≡ board_of values G → IsOfEvents values G self.new }
    {
        self.cycle = board.cycle();
        self.values.copy_from_slice(board.values());
        fill_rows(&mut self.columns, self.group, board);
    }

    /// The cycle of the board from which the columns were computed.
    pub fn cycle(&self) -> u32
        ensures found { result ≡ self.now.cycle }
    {
        self.cycle
    }

    /// The number of items of a group. The last group may have fewer.
    pub fn group(&self) -> u16
        ensures found { result ≡ self.now.group }
        ensures some { 1 ≤ result }
        ensures few { result ≤ MOST_GROUP }
    {
        self.group
    }

    /// The number of items.
    pub fn n(&self) -> u16
        ensures counted { result ≡ length self.now.values }
        ensures some { 1 ≤ result }
        ensures few { result ≤ MOST_VALUES }
    {
        self.values.len() as u16
    }

    /// The value of an item.
    pub fn value(&self, item: u16) -> u64
        requires { item < length self.now.values }
        ensures found { result ≡ get_or self.now.values item 0 }
    {
        self.values[item as usize]
    }

    /// The column of an item's group, one entry for each item.
    pub fn column(&self, item: u16) -> &[u32]
        requires { item < length self.now.values }
        ensures found { result.now ≡ item_column self.now item }
        ensures sized { length result.now ≡ length self.now.values }
    {
        row_of(&self.columns, self.group, self.values.len(), item)
    }
}
