//! The squares of a chess board as a graph.
ghost use Rattle.own_graph.specs.Board.{board_table};
ghost use Rattle.own_graph.specs.BoardLaws.{board_table_is_lawful};

use graph::{Graph, Transition};

/// The node of the empty name.
const ROOT: u32 = 2;

/// The node of a column's name: one for all columns, since each goes on with the same rows.
const COLUMN: u32 = 1;

/// The node of a square's name.
const SQUARE: u32 = 0;

/// The number of columns, and of rows in each.
const SIDE: usize = 8;

/// The squares of a chess board by their names, as "c5".
/// They are numbered from 1 on, column by column, after so many squares before.
#[derive(Clone, Copy, Debug, PartialEq, Eq)]
pub struct Board {
    pub before: u64,
}

impl Graph for Board {
    ghost table = { λ b. board_table b.before };

    ghost lawful = { λ b. board_table_is_lawful b.before };

    fn root(&self) -> u32 {
        ROOT
    }

    fn first_total(&self) -> u64 {
        self.before
    }

    fn len(&self, node: u32) -> usize {
        match node {
            ROOT | COLUMN => SIDE,
            _ => 0,
        }
    }

    fn transition(&self, node: u32, position: usize) -> Option<Transition> {
        if position >= self.len(node) {
            return None;
        }
        let (first, squares, target) = match node {
            ROOT => (b'a', 8, COLUMN),
            _ => (b'1', 1, SQUARE),
        };
        Some(Transition {
            byte: first + position as u8,
            output: squares * position as u64,
            target,
        })
    }

    fn is_final(&self, node: u32) -> bool {
        node == SQUARE
    }

    fn final_output(&self, node: u32) -> u64 {
        u64::from(self.is_final(node))
    }

    fn find_input(&self, node: u32, byte: u8) -> Option<usize> {
        let first = match node {
            ROOT => b'a',
            COLUMN => b'1',
            _ => return None,
        };
        let position = usize::from(byte.checked_sub(first)?);
        (position < SIDE).then_some(position)
    }
}
