//! The names of a list, as an input has them.
use anyhow::Result;
use names::Name;
use std::alloc::Global;

/// Names one behind the other in a text, a byte of no name between them, and where each stands.
#[derive(Drop)]
pub(crate) struct NamesRead {
    pub(crate) text: Vec<u8>,
    pub(crate) rows: Vec<Name>,
    /// The length of the longest.
    pub(crate) longest: u32,
}

/// Bytes in hex, in parts between `_`, each with `*` and a number where it is repeated.
fn push_bytes(heap: Global, bytes: &mut Vec<u8>, line: &str) -> Result<()> {
    for part in line.split('_') {
        let (part, times) = part.split_once('*').unwrap_or((part, "1"));
        let part = hex::decode(heap, part)?;
        for _ in 0..times.parse::<usize>()? {
            bytes.extend_from_slice(part.as_slice())?;
        }
    }
    Ok(())
}

impl NamesRead {
    pub(crate) fn new(heap: Global) -> NamesRead {
        NamesRead {
            text: Vec::new(heap),
            rows: Vec::new(heap),
            longest: 0,
        }
    }

    /// Adds a name, with one more byte behind it where there is one.
    fn add_name(&mut self, heap: Global, front: &str, last: Option<u8>) -> Result<()> {
        let place = u32::try_from(self.text.len())?;
        push_bytes(heap, &mut self.text, front)?;
        if let Some(last) = last {
            self.text.push(last)?;
        }
        let end = u32::try_from(self.text.len())?;
        let length = end.saturating_sub(place);
        self.text.push(b'\n')?;
        self.rows.push(Name { place, length })?;
        self.longest = self.longest.max(length);
        Ok(())
    }

    /// Adds the name of a line or, where it ends with `?`, 256 names, of which each has another last byte.
    pub(crate) fn add(&mut self, heap: Global, line: &str) -> Result<()> {
        let Some(front) = line.strip_suffix('?') else {
            return self.add_name(heap, line, None);
        };
        for last in 0..=u8::MAX {
            self.add_name(heap, front, Some(last))?;
        }
        Ok(())
    }
}
