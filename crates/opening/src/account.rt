//! The account of opened files, as text.
use catalogue::{Catalogue, Refusal, check};
use graph::Graph;
use std::alloc::{AllocError, Global};
use std::fmt::{self, Write};

/// The text so far, and how often each number came: 0 for an accepted file.
#[derive(Drop)]
pub(crate) struct Account {
    pub(crate) heap: Global,
    pub(crate) text: String,
    /// Whether memory was wanting, so that some of the text is missing.
    pub(crate) is_short: bool,
    // an array: the numbers 0 to 8, known beforehand
    counts: [u32; 9],
}

/// The sum of a total and an output, or none above 2^64 − 1.
fn sum(total: Option<u64>, output: u64) -> Option<u64> {
    total.and_then(|before| before.checked_add(output))
}

impl Write for Account {
    // a piece that finds no memory is left out alone: the pieces after it are tried
    // apart from its many callers, as the program itself takes memory too
    #[inline(never)]
    fn write_str(&mut self, piece: &str) -> fmt::Result {
        self.is_short |= self.text.push_str(piece).is_err();
        Ok(())
    }
}

impl Account {
    pub(crate) fn new(heap: Global) -> Account {
        Account {
            heap,
            text: String::new(heap),
            is_short: false,
            counts: [0; 9],
        }
    }

    /// Bytes by two digits each, and each digit a piece, which may be left out alone.
    pub(crate) fn hex(&mut self, bytes: &[u8]) -> fmt::Result {
        for byte in bytes {
            for digit in [byte / 16, byte % 16] {
                write!(self, "{digit:x}")?;
            }
        }
        Ok(())
    }

    /// A key in brackets, and its total.
    fn key(&mut self, key: &[u8], total: Option<u64>) -> fmt::Result {
        write!(self, " <")?;
        self.hex(key)?;
        write!(self, ">=")?;
        match total {
            Some(total) => write!(self, "{total}"),
            None => write!(self, "above"),
        }
    }

    /// The keys under a node, in their order.
    fn keys(
        &mut self,
        catalogue: &Catalogue,
        node: u32,
        key: &mut Vec<u8>,
        total: Option<u64>,
    ) -> fmt::Result {
        if catalogue.is_final(node) {
            self.key(key.as_slice(), sum(total, catalogue.final_output(node)))?;
        }
        // by position, as a graph answers
        for transition in (0..catalogue.len(node)).filter_map(|p| catalogue.transition(node, p)) {
            // always so in a lawful graph: the test is what shows that the walk ends
            if transition.target < node {
                // only the keys of this branch end
                if key.push(transition.byte).is_err() {
                    self.is_short = true;
                    return Ok(());
                }
                let total = sum(total, transition.output);
                self.keys(catalogue, transition.target, key, total)?;
                let _ = key.pop();
            }
        }
        Ok(())
    }

    /// What a catalogue answers for a node.
    pub(crate) fn answers(&mut self, catalogue: &Catalogue, node: u32) -> fmt::Result {
        write!(self, "node {node}: {} transitions", catalogue.len(node))?;
        if catalogue.is_final(node) {
            write!(self, ", final with {}", catalogue.final_output(node))?;
        }
        for byte in 0..=u8::MAX {
            if let Some(position) = catalogue.find_input(node, byte) {
                write!(self, ", ")?;
                self.hex(&[byte])?;
                write!(self, " at {position}")?;
            }
        }
        writeln!(self)
    }

    // by number, as it is printed: 0 is a file that was opened
    fn count(&mut self, number: u8) {
        if let Some(count) = self.counts.get_mut(usize::from(number)) {
            *count = count.saturating_add(1);
        }
    }

    fn refused(&mut self, refusal: Refusal) -> fmt::Result {
        let (number, node) = (refusal.number(), refusal.node());
        self.count(number);
        write!(self, "refused {number} node {node}")
    }

    fn accepted(&mut self, catalogue: &Catalogue) -> fmt::Result {
        self.count(0);
        write!(self, "accepted")?;
        let mut key = Vec::new(self.heap);
        let total = Some(catalogue.first_total());
        self.keys(catalogue, catalogue.root(), &mut key, total)
    }

    /// Opens a file, if it was made, and tells its keys and totals, or its refusal, and the words after that.
    pub(crate) fn outcome(
        &mut self,
        made: Result<Vec<u8>, AllocError>,
        words: &str,
    ) -> fmt::Result {
        let Ok(bytes) = made else {
            self.is_short = true;
            return Ok(());
        };
        let checked = check(bytes.as_slice());
        let opened = match Catalogue::open(bytes) {
            Ok(catalogue) => {
                self.accepted(&catalogue)?;
                Ok(())
            }
            Err(refusal) => {
                self.refused(refusal)?;
                Err(refusal)
            }
        };
        if checked != opened {
            write!(self, ", but checked otherwise")?;
        }
        self.write_str(words)
    }

    /// How often each number came.
    pub(crate) fn tally(&mut self) -> fmt::Result {
        for (number, count) in self.counts.into_iter().enumerate() {
            match number {
                0 => writeln!(self, "accepted {count} times")?,
                _ => writeln!(self, "refused by {number} {count} times")?,
            }
        }
        Ok(())
    }
}
