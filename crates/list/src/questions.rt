//! The questions of the graph interface, asked of a list.
ghost use Rattle.prefixes.specs.Prefixes.{prefix_table};
ghost use Rattle.list.specs.Opened.{names_in};
ghost use Rattle.prefixes.proofs.Laws.{prefix_table_is_lawful};
ghost use Rattle.list.specs.Held.{names_rise};

use crate::list::List;
use crate::prefix::Prefix;
use graph::{Graph, Transition};

/// The node of the empty prefix: name 0 is the lowest that begins with it.
const ROOT: u32 = 0;

/// A total is the number of its name, with nothing before it.
const FIRST_TOTAL: u64 = 0;

impl Graph for List {
    ghost table = { λ l. prefix_table (names_in l) };

    ghost lawful = { λ l. prefix_table_is_lawful (names_in l) (names_rise l) };

    fn root(&self) -> u32 {
        ROOT
    }

    fn first_total(&self) -> u64 {
        FIRST_TOTAL
    }

    #[tactic(auto, using(crate::proofs::Answered::no_node_len, crate::proofs::Answered::len_behind, crate::proofs::Answered::len_none, crate::proofs::Placed::group_few))]
    fn len(&self, node: u32) -> usize {
        if !self.is_node(node) {
            return 0;
        }
        match self.last_not_above(node, u8::MAX) {
            Some(last) => last.following(),
            None => 0,
        }
    }

    #[tactic(auto, using(crate::proofs::Answered::no_node_transition, crate::proofs::Answered::group_transition, crate::proofs::Answered::no_group_transition, crate::proofs::Placed::placed_some))]
    fn transition(&self, node: u32, position: usize) -> Option<Transition> {
        if !self.is_node(node) {
            return None;
        }
        let group = self.group(node, position)?;
        Some(self.transition_of(node, group))
    }

    #[tactic(auto, using(crate::proofs::Placed::node_within))]
    fn is_final(&self, node: u32) -> bool {
        self.is_node(node) && self.is_whole(node)
    }

    fn final_output(&self, node: u32) -> u64 {
        if self.is_final(node) {
            Prefix::from(node).name as u64
        } else {
            0
        }
    }

    #[tactic(auto, using(crate::proofs::Answered::no_node_finds, crate::proofs::Answered::finds_none, crate::proofs::Answered::finds_last))]
    fn find_input(&self, node: u32, byte: u8) -> Option<usize> {
        if !self.is_node(node) {
            return None;
        }
        let last = self.last_not_above(node, byte)?;
        (self.byte_of(node, last) == byte).then_some(last.position)
    }
}
