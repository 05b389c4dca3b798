//! All the questions that a list can be asked.
use crate::answers::Answers;
use graph::Graph;
use list::List;
use std::io;

/// How many positions are asked for behind the last transition of a node.
const BEHIND: usize = 20;

/// Positions that few nodes have, and that none has.
const FAR_POSITIONS: [usize; 7] = [254, 255, 256, 65_535, 65_536, u32::MAX as usize, usize::MAX];

/// Numbers about the largest that a node can have, and about the largest of all.
const FAR_NODES: [u32; 7] = [
    0x00ff_ff00,
    0x00ff_ffff,
    0x0100_0000,
    0x7fff_ffff,
    0x8000_0000,
    0xffff_ff00,
    u32::MAX,
];

/// What a graph answers at a number.
fn answers_at<G: Graph>(graph: &G, node: u32) -> Answers {
    let mut answers = Answers::new();
    let len = graph.len(node);
    answers.number(len as u64);
    answers.number(u64::from(graph.is_final(node)));
    answers.number(graph.final_output(node));
    for position in 0..len.saturating_add(BEHIND) {
        answers.transition(graph.transition(node, position));
    }
    for position in FAR_POSITIONS {
        answers.transition(graph.transition(node, position));
    }
    for byte in 0..=u8::MAX {
        answers.position(graph.find_input(node, byte));
    }
    answers
}

/// All answers of a list, and how many nodes, final nodes and transitions they tell of.
#[derive(Clone, Copy, Debug, PartialEq, Eq)]
pub(crate) struct Asked {
    nodes: u64,
    finals: u64,
    transitions: u64,
    answers: Answers,
}

fn add(count: &mut u64, more: u64) {
    *count = count.wrapping_add(more);
}

impl Asked {
    fn new() -> Asked {
        Asked {
            nodes: 0,
            finals: 0,
            transitions: 0,
            answers: Answers::new(),
        }
    }

    /// Asks at a number. Each node has transitions or is final.
    fn at<G: Graph>(&mut self, graph: &G, node: u32) {
        let len = graph.len(node);
        let is_final = graph.is_final(node);
        add(&mut self.nodes, u64::from(is_final || len > 0));
        add(&mut self.finals, u64::from(is_final));
        add(&mut self.transitions, len as u64);
        self.answers.part(answers_at(graph, node));
    }

    /// Asks for a name, and at all its prefixes and lengths behind it.
    fn name(&mut self, list: &List, name: u32, longest: u32) {
        self.answers.name(list.name(name as usize));
        let first = name.wrapping_mul(256);
        for len in 0..=longest.saturating_add(1).min(254) {
            self.at(list, first.wrapping_add(len));
        }
        self.at(list, first.wrapping_add(255));
    }

    /// Asks a list of so many names whose longest has so many bytes.
    pub(crate) fn all(list: &List, count: u32, longest: u32) -> Asked {
        let mut asked = Asked::new();
        asked.answers.number(list.count() as u64);
        asked.answers.number(u64::from(list.root()));
        asked.answers.number(list.first_total());
        for name in 0..=count {
            asked.name(list, name, longest);
        }
        for node in FAR_NODES {
            asked.at(list, node);
        }
        asked.answers.name(list.name(usize::MAX));
        asked
    }

    pub(crate) fn print(&self, rt: &HostRuntime) -> io::Result<()> {
        let Asked {
            nodes,
            finals,
            transitions,
            answers,
        } = *self;
        print!(rt; "nodes {nodes}, final {finals}, transitions {transitions}, ")?;
        print!(rt; "answers {}: {:016x}", answers.count, answers.digest.value)
    }
}
