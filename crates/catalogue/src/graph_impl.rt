//! An opened catalogue as a graph.
ghost use Rattle.std.specs.Prelude.{◌≡◌, length, IfSome, is_some, nat_lt};
ghost use Rattle.catalogue.specs.Format.{file_of};
ghost use Rattle.catalogue.specs.Tables.{table_of, len_in};
ghost use Rattle.catalogue.specs.Bodies.{BodyHeld};
ghost use Rattle.catalogue.specs.WellFormed.{WellFormed};
ghost use Rattle.graph.specs.Table.{Finds};
ghost use Rattle.std.specs.Result.{result_ok};
ghost use Rattle.catalogue.specs.ContractsLemmas.{accepted_formed};
ghost use Rattle.catalogue.specs.Lawful.{table_lawful};

use super::catalogue::Catalogue;
use super::entry::{Entry, TRANSITION, file_nodes, read_transition};
use graph::{Graph, Transition};
use std::cmp::Ordering;

impl Catalogue {
    /// The bytes of the file, with what the questions rest on.
    // Apart from `bytes`, so that other bytes than the file's are refused there and not in a proof.
    fn accepted_bytes(&self) -> &[u8]
        ensures answer { result.now ≡ self.now.bytes.items }
        ensures well_formed { WellFormed (file_of result.now) }
    {
        self.bytes()
    }

    fn nodes(&self) -> u32
        ensures { result ≡ (file_of self.now.bytes.items).nodes }
    {
        file_nodes(self.accepted_bytes())
    }

    /// The entry of a node, or none where the number names none.
    #[inline(always)]
    fn entry(&self, node: u32) -> Option<Entry<'_>>
        ensures some { is_some result ≡ nat_lt node (file_of self.now.bytes.items).nodes }
        ensures of_node { IfSome result (λ e. (e.bytes.now ≡ self.now.bytes.items) × (e.node ≡ node)) }
    {
        let bytes = self.accepted_bytes();
        // made where the test holds and not before: its type says that it lies in the file
        if node < self.nodes() {
            Some(Entry { bytes, node })
        } else {
            None
        }
    }

    /// The transitions of a node as the file holds them, none where the number names no node.
    #[inline(always)]
    fn body(&self, node: u32) -> &[[u8; TRANSITION]]
        ensures len { length result.now ≡ len_in (file_of self.now.bytes.items) node }
        ensures held { BodyHeld self.now.bytes.items node result.now }
    {
        // no `map_or`: that the body lies in the file is known here, and not in a closure
        match self.entry(node) {
            Some(entry) => entry.body(),
            None => &[],
        }
    }

    /// The position of the transition with a byte, or where it would stand: by halving, so at most nine looks.
    // By hand: the library's search goes on to the last look where the byte is met before.
    #[inline(always)]
    fn search(&self, node: u32, byte: u8) -> Result<usize, usize>
        ensures { Finds (table_of (file_of self.now.bytes.items)) node byte (result_ok result) }
    {
        let body = self.body(node);
        let mut low = 0;
        let mut high = body.len();
        while low < high {
            let middle = low + (high - low) / 2;
            match body[middle][0].cmp(&byte) {
                Ordering::Equal => return Ok(middle),
                Ordering::Less => low = middle + 1,
                Ordering::Greater => high = middle,
            }
        }
        Err(low)
    }
}

impl Graph for Catalogue {
    ghost table = { λ c. table_of (file_of c.bytes.items) };

    ghost lawful = { λ g. table_lawful (file_of g.bytes.items) (accepted_formed (file_of g.bytes.items) g.accepted) g.byte_sized };

    fn root(&self) -> u32 {
        self.nodes() - 1
    }

    fn first_total(&self) -> u64 {
        0
    }

    fn len(&self, node: u32) -> usize {
        self.entry(node).map_or(0, |entry| entry.len())
    }

    fn transition(&self, node: u32, position: usize) -> Option<Transition> {
        self.body(node).get(position).map(read_transition)
    }

    fn is_final(&self, node: u32) -> bool {
        self.entry(node).is_some_and(|entry| entry.flag() == 1)
    }

    fn final_output(&self, node: u32) -> u64 {
        self.entry(node).map_or(0, |entry| entry.final_output())
    }

    fn find_input(&self, node: u32, byte: u8) -> Option<usize> {
        self.search(node, byte).ok()
    }
}
