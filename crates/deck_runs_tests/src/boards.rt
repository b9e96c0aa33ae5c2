//! The parts of a board, to be compared.

use air_base::NoMemory;
use control_matrix::Board;
use std::alloc::Global;

/// The cycle, the values, the control columns one after the other, and the write vector.
#[derive(Debug, Drop, PartialEq, Eq)]
pub struct BoardEnd {
    pub cycle: u32,
    pub values: Vec<u64>,
    pub columns: Vec<u32>,
    pub vector: Vec<u32>,
}

/// The parts of a board.
pub fn end_of(alloc: Global, board: &Board) -> Result<BoardEnd, NoMemory> {
    let mut values = Vec::new(alloc);
    let mut columns = Vec::new(alloc);
    for item in 0..board.n() {
        values.push(board.value(item))?;
        columns.extend_from_slice(board.column(item))?;
    }
    Ok(BoardEnd {
        cycle: board.cycle(),
        values,
        columns,
        vector: Vec::from_slice(alloc, board.vector())?,
    })
}

/// The board of items with these values, of which none was written after the first start: all its entries are 0.
pub fn written_early(alloc: Global, cycle: u32, values: &[u64]) -> Result<BoardEnd, NoMemory> {
    let vector = vec![in alloc; 0; values.len()]?;
    let mut columns = Vec::new(alloc);
    for _value in values {
        columns.extend_from_slice(&vector)?;
    }
    Ok(BoardEnd {
        cycle,
        values: Vec::from_slice(alloc, values)?,
        columns,
        vector,
    })
}
