//! How often one push is heard and when, by the three words that are drawn for it.

ghost use Rattle.std.specs.Prelude.{◌≡◌, ◌-◌, ◌<◌, ◌≤◌};
ghost use Rattle.rand_pcg.specs.Pcg.{pcg32};
ghost use Rattle.air_ether.specs.declared.ether.TheConstants.{MOST_PUSHES};
ghost use Rattle.air_ether.specs.PushWords.{due_by, left_by, times_by, word_after};

use rand_core::utils::NextWord;
use rand_pcg::Lcg64Xsh32;

/// How many of a hundred buckets are lost, heard again, and delayed.
#[derive(Clone, Copy, Debug, Drop)]
pub struct Odds {
    pub loss: u32,
    pub again: u32,
    pub late: u32,
}

/// The due number of a push, and how often it is heard.
#[derive(Clone, Copy, Debug, Drop)]
pub struct Hearing {
    pub due: u64,
    pub times: u32,
}

impl Odds {
    /// Draws the three words of the push at a place, and gives its due number and how often it is heard.
    pub fn draw(&self, generator: &mut Lcg64Xsh32, place: u64) -> Hearing
        requires { place < MOST_PUSHES }
        ensures after { generator.new ≡ left_by pcg32 3 generator.old }
        ensures due { result.due ≡ due_by self.now.late place (word_after generator.old 2) }
        ensures times { result.times ≡ times_by self.now.loss self.now.again (word_after generator.old 0) (word_after generator.old 1) }
        ensures few { result.times ≤ 2 }
    {
        let first = generator.next_word();
        let second = generator.next_word();
        let third = generator.next_word();
        Hearing {
            due: self.due_number(place, third),
            times: self.times_heard(first, second),
        }
    }

    /// How often the push is heard, by its first and its second word.
    fn times_heard(&self, first: u32, second: u32) -> u32
        ensures value { result ≡ times_by self.now.loss self.now.again first second }
        ensures few { result ≤ 2 }
    {
        if first % 100 < self.loss {
            0
        } else if second % 100 < self.again {
            2
        } else {
            1
        }
    }

    /// The due number of the push at a place, by its third word.
    fn due_number(&self, place: u64, third: u32) -> u64
        requires { place < MOST_PUSHES }
        ensures { result ≡ due_by self.now.late place third }
    {
        if third % 100 < self.late {
            place + 1 + u64::from(third / 100 % 8)
        } else {
            place
        }
    }
}
