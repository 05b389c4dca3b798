//! A graph of names: numbered nodes with transitions in the order of their bytes.
#![tactic(auto)]

ghost use Rattle.std.specs.Prelude.{◌≡◌};
ghost use Rattle.graph.specs.Table.{Table, Lawful, Finds};
ghost use Rattle.graph.specs.Paths.{LawfulHasOneTotal};

mod refusal;
mod shift;

pub use refusal::Refusal;
pub use shift::{Shift, Unshifted};

/// One step of a path: its byte, its output and the node that it leads to.
#[derive(Clone, Copy, Debug, PartialEq, Eq)]
pub struct Transition {
    pub byte: u8,
    pub output: u64,
    pub target: u32,
}

/// A graph. Its questions do not change it, and each has one answer: the table's.
// Nodes by number, and no tree of boxes: lists and files have them so, and own no node apart.
pub trait Graph {
    ghost table: { Self → Table };

    /// The node of the empty path.
    fn root(&self) -> u32
        ensures { result ≡ (table self.now).root };

    /// What every total begins with.
    fn first_total(&self) -> u64
        ensures { result ≡ (table self.now).first_total };

    /// The number of transitions of a node.
    fn len(&self, node: u32) -> usize
        ensures { result ≡ (table self.now).len node };

    /// The transition of a node at a position, or none beyond the last.
    fn transition(&self, node: u32, position: usize) -> Option<Transition>
        ensures { result ≡ (table self.now).transition node position };

    // a flag and an output, as files and tables have them: a final node may add 0

    /// Whether the path to a node is a key.
    fn is_final(&self, node: u32) -> bool
        ensures { result ≡ (table self.now).is_final node };

    /// What a final node adds to the total; 0 unless it is final.
    fn final_output(&self, node: u32) -> u64
        ensures { result ≡ (table self.now).final_output node };

    /// The position of the transition with the byte, or none where it is absent.
    fn find_input(&self, node: u32, byte: u8) -> Option<usize>
        ensures { Finds (table self.now) node byte result };

    ghost lawful: { (g : Self) → Lawful (table g) };
}

/// Theorem: over every lawful table bytes lead from a node to one node with one total, and a key has one total.
#[tactic(auto, using(crate::proofs::Paths::key_has_one_path_and_one_total))]
pub fn key_has_one_path_and_one_total()
    ensures { LawfulHasOneTotal }
{}
