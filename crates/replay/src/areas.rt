//! The areas of a search, and how much of them is in use.
use search::{Refusal, Row, Search};
use std::alloc::{AllocError, Global};

/// Room for every recorded name and bound: they have at most 255 bytes.
const KEY_BYTES: usize = 255;

/// As often as areas grow at most: by a row and a byte for each key byte.
pub(crate) const MOST_GROWTH: usize = 2 * KEY_BYTES;

/// How much room a search is given.
#[derive(Clone, Copy)]
pub(crate) enum Room {
    /// Enough for every recorded name and bound.
    Ample,
    /// One row and no byte, and one more at each refusal for want of it.
    Growing,
}

/// How many rows and bytes were added.
#[derive(Clone, Copy)]
pub(crate) struct Growth {
    pub(crate) rows: u32,
    pub(crate) bytes: u32,
}

/// Rows and key bytes, and how they grow.
#[derive(Drop)]
pub(crate) struct Areas<S> {
    pub(crate) rows: Vec<Row<S>>,
    pub(crate) key_area: Vec<u8>,
    pub(crate) growth: Growth,
    room: Room,
    // what a new row holds
    blank: Row<S>,
}

impl<S: Copy> Areas<S> {
    /// Areas that are filled with a row and with the byte 0.
    pub(crate) fn new(heap: Global, room: Room, blank: Row<S>) -> Result<Areas<S>, AllocError> {
        let (rows, bytes) = match room {
            Room::Ample => (KEY_BYTES + 1, KEY_BYTES),
            Room::Growing => (1, 0),
        };
        Ok(Areas {
            rows: vec![in heap; blank; rows]?,
            key_area: vec![in heap; 0; bytes]?,
            growth: Growth { rows: 0, bytes: 0 },
            room,
            blank,
        })
    }

    /// Adds the row or the byte for want of which a call was refused, if these areas grow: whether it is to be tried again.
    pub(crate) fn grow(&mut self, refusal: Refusal) -> Result<bool, AllocError> {
        match (self.room, refusal) {
            (Room::Growing, Refusal::StackFull) => {
                self.rows.push(self.blank)?;
                self.growth.rows = self.growth.rows.saturating_add(1);
            }
            (Room::Growing, Refusal::KeyAreaFull) => {
                self.key_area.push(0)?;
                self.growth.bytes = self.growth.bytes.saturating_add(1);
            }
            _ => return Ok(false),
        }
        Ok(true)
    }
}

/// The depth, which a search keeps for itself: the fewest rows with which `key` does not find the areas too short.
pub(crate) fn depth<S>(search: &Search<'_, S>, areas: &Areas<S>) -> usize {
    let rows = areas.rows.as_slice();
    let key_area = areas.key_area.as_slice();
    for count in 0..rows.len() {
        if let Some(part) = rows.get(..count)
            && search.key(part, key_area) != Err(Refusal::AreasTooShort)
        {
            return count;
        }
    }
    rows.len()
}
