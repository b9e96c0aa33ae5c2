//! The position in the heard list, which goes due number by due number, at each through the places in order.

ghost use Rattle.std.specs.Prelude.{◌≡◌, ◌≤◌, ◌<◌, ◌+◌, ◌-◌, ◌%◌, ℕ, length, map, true, false, IsTrue};
ghost use Rattle.air_ether.specs.declared.ether.TheConstants.{MOST_PUSHES};
ghost use Rattle.air_ether.specs.HeardPositions.{InWindow, left_at, position, times_heard_at};
ghost use Rattle.air_ether.specs.KeptPushes.{Waits, push_of};

use crate::waiting::{KEPT, QueuedPush};

/// What is given next: the push at `place`, if it is due at `number` and is heard more often than the `given` times that it was
/// given.
#[derive(Clone, Copy, Debug, Drop)]
pub struct Cursor {
    pub number: u64,
    pub place: u64,
    pub given: u32,
}

/// Moves the cursor to what is heard next with a due number below `limit`, or to the limit if there is nothing. For each number
/// it looks at no more than `KEPT` places.
pub fn seek(cursor: &mut Cursor, queue: &[QueuedPush], pushes: u64, limit: u64) -> bool
    requires count { length queue.now ≡ KEPT }
    requires fits { pushes ≤ MOST_PUSHES }
    requires far { limit ≤ pushes + 8 }
    requires within { InWindow pushes limit (map push_of queue.now) cursor.old }
    ensures within { InWindow pushes limit (map push_of queue.now) cursor.new }
    ensures found { IsTrue result → (cursor.new.number < limit) × (cursor.new.place < pushes) × (cursor.new.given < times_heard_at (map push_of queue.now) cursor.new) }
    ensures none { result ≡ false → cursor.new.number ≡ limit }
    ensures fewer { left_at limit cursor.new ≤ left_at limit cursor.old }
    ensures same { (due times : ℕ → ℕ) → Waits due times pushes (map push_of queue.now) →
        position due times pushes cursor.new ≡ position due times pushes cursor.old }
{
    while cursor.number < limit {
        if cursor.place < pushes && cursor.place <= cursor.number {
            let waiting = &queue[(cursor.place % KEPT) as usize];
            if cursor.given < waiting.times_due(cursor.number) {
                return true;
            }
            cursor.place += 1;
        } else {
            cursor.number += 1;
            cursor.place = cursor.number.saturating_sub(8);
        }
        cursor.given = 0;
    }
    false
}
