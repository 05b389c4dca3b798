//! The graphs that are searched.
use catalogue::Catalogue;
use graph::Shift;
use list::List;
use names::Name;
use std::alloc::{AllocError, Global};

/// The keys "", "a", "b" and "bb", with the totals 2, 100, 203 and 220.
const FORK: &[u8] = b"\x03\0\0\0\
    \x34\0\0\0\0\0\x01\0\0\0\0\0\0\0\0\0\
    \x34\0\0\0\x01\0\x01\0\x03\0\0\0\0\0\0\0\
    \x41\0\0\0\x02\0\x01\0\x02\0\0\0\0\0\0\0\
    b\0\0\0\0\x14\0\0\0\0\0\0\0\
    a\0\0\0\0\x64\0\0\0\0\0\0\0\
    b\x01\0\0\0\xc8\0\0\0\0\0\0\0";

/// Large outputs. Node 0 is final with 1. Node 1 is final with 2^63 and leads to node 0, by "a" with
/// 2^63 and by "b" with 5. Node 2 leads to node 1, by "a" with 3 and by "b" with 2^63. The root is
/// final with 0, and leads by "a" with 7 to node 2, by "b" with 2^64 - 1 to node 0, by "c" to node 1.
const LARGE: &[u8] = b"\x04\0\0\0\
    \x44\0\0\0\0\0\x01\0\x01\0\0\0\0\0\0\0\
    \x44\0\0\0\x02\0\x01\0\0\0\0\0\0\0\0\x80\
    \x5e\0\0\0\x02\0\0\0\0\0\0\0\0\0\0\0\
    \x78\0\0\0\x03\0\x01\0\0\0\0\0\0\0\0\0\
    a\0\0\0\0\0\0\0\0\0\0\0\x80\
    b\0\0\0\0\x05\0\0\0\0\0\0\0\
    a\x01\0\0\0\x03\0\0\0\0\0\0\0\
    b\x01\0\0\0\0\0\0\0\0\0\0\x80\
    a\x02\0\0\0\x07\0\0\0\0\0\0\0\
    b\0\0\0\0\xff\xff\xff\xff\xff\xff\xff\xff\
    c\x01\0\0\0\0\0\0\0\0\0\0\0";

/// Two lists, two catalogues, and a shift.
#[derive(Drop)]
pub(crate) struct Graphs {
    pub(crate) short: List,
    pub(crate) long: List,
    pub(crate) shifted: Shift<Catalogue>,
    pub(crate) fork: Catalogue,
    pub(crate) large: Catalogue,
}

/// The list of the names that the text is cut into, by their lengths.
fn list_of(heap: Global, text: &[u8], lengths: &[u32]) -> Result<Option<List>, AllocError> {
    let mut rows = Vec::new(heap);
    let mut place = 0u32;
    for length in lengths {
        rows.push(Name {
            place,
            length: *length,
        })?;
        place = place.saturating_add(*length);
    }
    Ok(List::open(text.to_vec(heap)?, rows).ok())
}

fn four_names(heap: Global) -> Result<Option<List>, AllocError> {
    list_of(heap, b"aabb", &[0, 1, 2, 1])
}

/// The names "a", "aaa", "aab", "ab", "abab", "abba", "b", "baba" and "bb".
fn nine_names(heap: Global) -> Result<Option<List>, AllocError> {
    let text = b"a\
        aaa\
        aab\
        ab\
        abab\
        abba\
        b\
        baba\
        bb";
    list_of(heap, text, &[1, 3, 3, 2, 4, 4, 1, 4, 2])
}

fn catalogue(heap: Global, file: &[u8]) -> Result<Option<Catalogue>, AllocError> {
    Ok(Catalogue::open(file.to_vec(heap)?).ok())
}

impl Graphs {
    /// The graphs, or none if one of them was not opened.
    pub(crate) fn open(heap: Global) -> Result<Option<Graphs>, AllocError> {
        let (Some(short), Some(long)) = (four_names(heap)?, nine_names(heap)?) else {
            return Ok(None);
        };
        let (Some(fork), Some(beneath), Some(large)) = (
            catalogue(heap, FORK)?,
            catalogue(heap, FORK)?,
            catalogue(heap, LARGE)?,
        ) else {
            return Ok(None);
        };
        // the way by "b" is too large, that by "a" is not
        let Ok(shifted) = Shift::new(beneath, u64::MAX - 150) else {
            return Ok(None);
        };
        Ok(Some(Graphs {
            short,
            long,
            shifted,
            fork,
            large,
        }))
    }
}
