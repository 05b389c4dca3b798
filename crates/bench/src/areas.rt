//! The work areas of a search.
use search::Row;
use std::alloc::{AllocError, Global};

/// Rows for keys of up to 255 bytes.
const ROWS: u32 = 256;

/// A stack and a key area that suffice for names of at most 255 bytes.
#[derive(Drop)]
pub(crate) struct Areas<S> {
    pub(crate) rows: Vec<Row<S>>,
    pub(crate) key_area: Vec<u8>,
}

impl<S: Copy + Drop> Areas<S> {
    /// Work areas, their rows written with any state.
    pub(crate) fn new(heap: Global, state: S) -> Result<Areas<S>, AllocError> {
        let mut rows = Vec::new(heap);
        for _ in 0..ROWS {
            rows.push(Row {
                node: 0,
                position: 0,
                total: 0,
                state,
            })?;
        }
        let key_area = vec![in heap; 0; 255]?;
        Ok(Areas { rows, key_area })
    }
}
