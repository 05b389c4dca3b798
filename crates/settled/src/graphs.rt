//! The graphs that are searched.
use catalogue::Catalogue;
use list::List;
use names::Name;
use std::alloc::{AllocError, Global};

fn row(place: u32, length: u32) -> Name {
    Name { place, length }
}

/// The list of the names "", "a", "ab" and "b".
pub(crate) fn four_names(heap: Global) -> Result<Option<List>, AllocError> {
    let names = [row(0, 0), row(0, 1), row(1, 2), row(3, 1)];
    Ok(List::open(b"aabb".to_vec(heap)?, names.to_vec(heap)?).ok())
}

/// The list of the names "a" and "a/".
pub(crate) fn two_names(heap: Global) -> Result<Option<List>, AllocError> {
    let names = [row(0, 1), row(0, 2)];
    Ok(List::open(b"a/".to_vec(heap)?, names.to_vec(heap)?).ok())
}

/// A file of one node: the key "" with the total 7.
pub(crate) fn leaf(heap: Global) -> Result<Option<Catalogue>, AllocError> {
    let file = b"\x01\0\0\0\x14\0\0\0\0\0\x01\0\x07\0\0\0\0\0\0\0";
    Ok(Catalogue::open(file.to_vec(heap)?).ok())
}
