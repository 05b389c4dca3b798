//! The parts of the account: whole files, cut ones, changed ones, and those at the limits.
use crate::account::Account;
use crate::files::{GoodFile, bare_nodes, wide_root};
use catalogue::Catalogue;
use graph::Graph;
use std::alloc::{AllocError, Global};
use std::fmt::{self, Write};

/// The values that each byte is changed to in turn.
const VALUES: [u8; 5] = [0x00, 0x01, 0x02, 0x62, 0xff];

/// A byte that is changed: its place, and the value that it gets.
#[derive(Clone, Copy)]
struct Change {
    at: usize,
    value: u8,
}

/// Changes to the pair whose refusals meet, so that their order shows, and one whose total is too large.
const TWOS: [[Change; 2]; 11] = [
    [Change { at: 0, value: 0 }, Change { at: 4, value: 0 }],
    [Change { at: 4, value: 37 }, Change { at: 10, value: 2 }],
    [Change { at: 10, value: 2 }, Change { at: 20, value: 37 }],
    [Change { at: 10, value: 2 }, Change { at: 24, value: 3 }],
    [Change { at: 20, value: 37 }, Change { at: 24, value: 3 }],
    [Change { at: 11, value: 1 }, Change { at: 12, value: 0 }],
    [Change { at: 24, value: 3 }, Change { at: 25, value: 1 }],
    [Change { at: 49, value: 97 }, Change { at: 50, value: 1 }],
    [Change { at: 37, value: 1 }, Change { at: 49, value: 97 }],
    [Change { at: 36, value: 99 }, Change { at: 37, value: 1 }],
    [Change { at: 19, value: 255 }, Change { at: 48, value: 255 }],
];

/// A file with some bytes changed.
fn changed(heap: Global, file: &[u8], changes: &[Change]) -> Result<Vec<u8>, AllocError> {
    let mut bytes = Vec::from_slice(heap, file)?;
    for change in changes {
        if let Some(byte) = bytes.get_mut(change.at) {
            *byte = change.value;
        }
    }
    Ok(bytes)
}

impl Account {
    /// A good file as it is.
    pub(crate) fn whole(&mut self, file: GoodFile) -> fmt::Result {
        write!(self, "{} ", file.name)?;
        self.hex(file.bytes)?;
        writeln!(self)?;
        self.outcome(Vec::from_slice(self.heap, file.bytes), "\n")
    }

    /// What an opened file answers for each of its nodes, and for two numbers that name none.
    fn questions_of(&mut self, catalogue: &Catalogue) -> fmt::Result {
        writeln!(self, " has the root {}", catalogue.root())?;
        for node in [0, 1, 2, 3, u32::MAX] {
            self.answers(catalogue, node)?;
        }
        Ok(())
    }

    /// The questions to an opened file, and whether it gives its bytes back.
    fn opened(&mut self, catalogue: Catalogue, file: GoodFile) -> fmt::Result {
        self.questions_of(&catalogue)?;
        write!(self, "{}", file.name)?;
        if catalogue.into_bytes().as_slice() == file.bytes {
            writeln!(self, " gives its bytes back")
        } else {
            writeln!(self, " gives other bytes back")
        }
    }

    /// A file, opened to be asked.
    pub(crate) fn questions(&mut self, file: GoodFile) -> fmt::Result {
        let bytes = Vec::from_slice(self.heap, file.bytes)?;
        write!(self, "{}", file.name)?;
        match Catalogue::open(bytes) {
            Ok(catalogue) => self.opened(catalogue, file),
            Err(_) => writeln!(self, " is refused"),
        }
    }

    /// The first bytes of a file, of each length, a line for each.
    pub(crate) fn cuts(&mut self, file: GoodFile) -> fmt::Result {
        writeln!(self, "{} cut off", file.name)?;
        // the length itself is printed and cut to
        for length in 0..file.bytes.len() {
            write!(self, "{length} bytes: ")?;
            self.outcome(Vec::from_slice(self.heap, &file.bytes[..length]), "\n")?;
        }
        Ok(())
    }

    /// A byte of a file changed to each value.
    fn changes_at(&mut self, file: &[u8], at: usize) -> fmt::Result {
        write!(self, "{at}:")?;
        for value in VALUES {
            write!(self, " ")?;
            self.hex(&[value])?;
            write!(self, " ")?;
            self.outcome(changed(self.heap, file, &[Change { at, value }]), ";")?;
        }
        writeln!(self)
    }

    /// Each byte of a file changed to each value, a line for each byte.
    pub(crate) fn changes(&mut self, file: GoodFile) -> fmt::Result {
        writeln!(self, "{} with one byte changed", file.name)?;
        // the place itself is printed and changed at
        for at in 0..file.bytes.len() {
            self.changes_at(file.bytes, at)?;
        }
        Ok(())
    }

    /// Two bytes of a file changed at once, in several ways.
    pub(crate) fn double_changes(&mut self, file: GoodFile) -> fmt::Result {
        writeln!(self, "{} with two bytes changed", file.name)?;
        for two in TWOS {
            let [one, other] = two;
            write!(self, "{} ", one.at)?;
            self.hex(&[one.value])?;
            write!(self, " and {} ", other.at)?;
            self.hex(&[other.value])?;
            write!(self, ": ")?;
            self.outcome(changed(self.heap, file.bytes, &two), "\n")?;
        }
        Ok(())
    }

    /// Files at the limits of the format, and just beyond them.
    pub(crate) fn limits(&mut self) -> fmt::Result {
        writeln!(self, "limits")?;
        // two loops: one over both would take a type and a function with clauses of its own
        for nodes in [1, 65535, 65536] {
            write!(self, "{nodes} nodes: ")?;
            self.outcome(bare_nodes(self.heap, nodes), "\n")?;
        }
        for len in [255, 256, 257] {
            write!(self, "{len} transitions: ")?;
            self.outcome(wide_root(self.heap, len), "\n")?;
        }
        Ok(())
    }
}
