//! A graph with its first total raised.
ghost use Rattle.std.specs.Prelude.{◌≡◌, ◌^◌, ◌<◌, ◌≤◌, IfOk, IfErr, MatchResult};
ghost use Rattle.graph.specs.Numbers.{number_of};
ghost use Rattle.graph.specs.Shifted.{with_first_total, raised_total, shifted, RaisesTotals};
ghost use Rattle.graph.specs.Shifts.{with_first_total_lawful};

use crate::refusal::Refusal;
use crate::{Graph, Transition};

/// A graph with its first total raised by a number, kept already summed.
#[derive(Drop)]
pub struct Shift<G> {
    graph: G,
    first_total: u64,
}

/// A graph that was not shifted, handed back with the reason.
#[derive(Drop)]
pub struct Unshifted<G> {
    pub graph: G,
    pub refusal: Refusal,
}

impl<G: Graph> Shift<G> {
    /// The graph with its first total raised by a number, or handed back where the sum does not fit.
    /// Its keys are the graph's, at the same nodes, with their totals raised.
    /// The table in the clauses, `with_first_total` of the graph's, is the one by which the shift answers as a graph.
    #[tactic(auto, using(crate::specs::Shifts::raises_totals_since))]
    pub fn new(graph: G, by: u64) -> Result<Shift<G>, Unshifted<G>>
        ensures accepted { IfOk result (λ s. (s.graph ≡ graph) × (with_first_total (G.Graph.table s.graph) s.first_total ≡ shifted (G.Graph.table graph) by)) }
        ensures fits { MatchResult result (λ _. raised_total (G.Graph.table graph) by < 2 ^ 64)
            (λ _. 2 ^ 64 ≤ raised_total (G.Graph.table graph) by) }
        ensures refused { IfErr result (λ u. (u.graph ≡ graph) × (number_of u.refusal ≡ 12)) }
        ensures keys { IfOk result (λ s. RaisesTotals (G.Graph.table graph) (with_first_total (G.Graph.table s.graph) s.first_total) by) }
    {
        // no `ok_or`: the graph goes into one of the two answers
        let Some(first_total) = graph.first_total().checked_add(by) else {
            return Err(Unshifted {
                graph,
                refusal: Refusal::ShiftTooLarge,
            });
        };
        Ok(Shift { graph, first_total })
    }
}

impl<G: Graph> Graph for Shift<G> {
    ghost table = { λ s. with_first_total (G.Graph.table s.graph) s.first_total };

    ghost lawful = { λ s. with_first_total_lawful (G.Graph.table s.graph) s.first_total (G.Graph.lawful s.graph) };

    fn root(&self) -> u32 {
        self.graph.root()
    }

    fn first_total(&self) -> u64 {
        self.first_total
    }

    fn len(&self, node: u32) -> usize {
        self.graph.len(node)
    }

    fn transition(&self, node: u32, position: usize) -> Option<Transition> {
        self.graph.transition(node, position)
    }

    fn is_final(&self, node: u32) -> bool {
        self.graph.is_final(node)
    }

    fn final_output(&self, node: u32) -> u64 {
        self.graph.final_output(node)
    }

    fn find_input(&self, node: u32, byte: u8) -> Option<usize> {
        self.graph.find_input(node, byte)
    }
}
