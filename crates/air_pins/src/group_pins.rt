//! These pins of `group_matrix` say what four items and three by groups of two are after a fill, and which column and which value an item has.
//!
//! The board is in cycle 3; its item 1 was written in cycle 1, and its last item in cycle 2, from item 1.
#![tactic(auto, unfolding(air_history::specs::Places::greatest_of))]

ghost use Rattle.std.specs.Prelude.{◌≡◌, ◌∷◌, []};
ghost use Rattle.air_pins.specs.SmallGroups.{four_item_board, four_item_groups, later_groups, three_item_board, three_item_groups, unfilled_groups};

use control_matrix::Board;
use group_matrix::GroupBoard;

/// The items 0 and 1 are a group, and the items 2 and 3 are one. If the group was the remainder of an item's number by two, the items 0 and 2 would
/// have a column of zeros. It also refuses that the second group begins with item 1, and that greater entries of an earlier fill stay.
/// Promise: a cycle is aired by groups
pub fn group_by_the_remainder(groups: &mut GroupBoard, board: &Board)
    requires groups { groups.old ≡ later_groups }
    requires board { board.now ≡ four_item_board }
    ensures { groups.new ≡ four_item_groups }
{
    groups.fill(board);
}

/// Item 1 has the column of the first group. By the remainder, and by the item's own number, it would have that of the second.
/// Promise: a cycle is aired by groups
pub fn column_by_the_remainder(groups: &GroupBoard) -> &[u32]
    requires { groups.now ≡ four_item_groups }
    ensures { result.now ≡ 0 ∷ 1 ∷ 0 ∷ 0 ∷ [] }
{
    groups.column(1)
}

/// Of three items the last one is a group alone, which is filled too. If only whole groups were filled, its column would be zeros.
/// Promise: a cycle is aired by groups
pub fn last_group_left_out(groups: &mut GroupBoard, board: &Board)
    requires groups { groups.old ≡ unfilled_groups }
    requires board { board.now ≡ three_item_board }
    ensures { groups.new ≡ three_item_groups }
{
    groups.fill(board);
}

/// Item 3 has its own value. The first item of its group has 30.
/// Promise: a cycle is aired by groups
pub fn value_of_the_first_item(groups: &GroupBoard) -> u64
    requires { groups.now ≡ four_item_groups }
    ensures { result ≡ 22 }
{
    groups.value(3)
}
