//! What each of the two sides of `left_right` holds, and the news that both take in, one after another.
ghost use Rattle.std.specs.Prelude.{◌≡◌};
ghost use Rattle.cycle_snapshot.specs.Private.BoardRuns.{after_batch};

use crate::batches::Batch;
use crate::told::Told;
use air_base::Values;
use control_matrix::Board;
use left_right::Absorb;
use std::alloc::AllocError;
use std::marker::Model;

/// A board, the values that it started from, the most batches, and the list whose board it is.
#[derive(Drop)]
pub struct BoardSide {
    pub board: Board,
    pub values: Values,
    pub most: u32,
    pub list: Told,
}

/// A batch for this many items, and the list that ends with it.
#[derive(Drop)]
pub struct News {
    pub batch: Batch,
    pub items: u16,
    pub list: Told,
}

impl Model for News {
    ghost use Rattle.cycle_snapshot.specs.Batches.{IsBatch};
    ghost use Rattle.cycle_snapshot.specs.Private.NewsStates.{NewsState};

    ghost Value = { NewsState };

    ghost view = { λ n. record { batch = n.batch; items = n.items; list = n.list } };

    ghost invariant = { λ n. IsBatch n.items n.batch };
}

/// Changes the board by the batch, if the batch is for as many items and one more cycle can be numbered.
fn absorb_batch(board: &mut Board, news: &News)
    ensures { board.new ≡ after_batch board.old news.now.items news.now.batch }
{
    if news.items != board.n() {
        return;
    }
    if board.cycle() >= u32::MAX - 1 {
        return;
    }
    news.batch.apply_to(board);
}

impl Absorb<News> for BoardSide {
    ghost use Rattle.cycle_snapshot.specs.Private.BoardRuns.{after_news};

    type State = BoardSide;

    ghost state = { λ x. x };

    ghost applied = { after_news };

    ghost never_fails = { Unit {0} };

    fn absorb_first(&mut self, operation: &News, _other: &BoardSide) -> Result<(), AllocError> {
        absorb_batch(&mut self.board, operation);
        self.list = operation.list.again();
        Ok(())
    }
}
