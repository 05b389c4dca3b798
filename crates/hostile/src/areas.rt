//! Work areas with random contents.
ghost use Rattle.std.specs.Prelude.{◌<◌};

use crate::dice::Dice;
use crate::digest::Digest;
use crate::drawn::Drawn;
use search::Row;
use std::alloc::{AllocError, Global};

/// The bytes of keys and bounds, the common ones more often.
const LETTERS: [u8; 8] = *b"abababc/";

/// A stack's rows and a key area, whatever they hold.
#[derive(Drop)]
pub(crate) struct Areas<S> {
    pub(crate) rows: Vec<Row<S>>,
    pub(crate) key_area: Vec<u8>,
}

fn draw_node(dice: &mut Dice) -> u32 {
    match dice.below(8) {
        0 => dice.below(1 << 32) as u32,
        1 => u32::MAX - dice.below(5) as u32,
        // a list numbers its nodes 256 times a name and a length
        2..=4 => (dice.below(10) * 256 + dice.below(5)) as u32,
        // and a catalogue from 0 on
        _ => dice.below(6) as u32,
    }
}

fn draw_row<S: Drawn>(dice: &mut Dice) -> Row<S> {
    Row {
        node: draw_node(dice),
        position: dice.number() as usize,
        total: dice.number(),
        state: S::draw(dice),
    }
}

fn draw_byte(dice: &mut Dice) -> u8 {
    LETTERS[dice.below(8) as usize]
}

/// Some bytes, fewer than a number of them.
pub(crate) fn draw_bytes(heap: Global, dice: &mut Dice, limit: u64) -> Result<Vec<u8>, AllocError>
    requires { 0 < limit }
{
    let mut bytes = Vec::new(heap);
    for _ in 0..dice.below(limit) {
        bytes.push(draw_byte(dice))?;
    }
    Ok(bytes)
}

impl<S: Drawn> Areas<S> {
    pub(crate) fn draw(heap: Global, dice: &mut Dice) -> Result<Areas<S>, AllocError> {
        let mut rows = Vec::new(heap);
        let count = if dice.once_in(4) { 0 } else { 4 };
        for _ in 0..dice.below(5) + count {
            rows.push(draw_row(dice))?;
        }
        let limit = if dice.once_in(4) { 3 } else { 9 };
        let key_area = draw_bytes(heap, dice, limit)?;
        Ok(Areas { rows, key_area })
    }

    /// Adds as many rows and bytes as any lower bound here needs.
    pub(crate) fn lengthen(&mut self, dice: &mut Dice) -> Result<(), AllocError> {
        for _ in 0..6 {
            self.rows.push(draw_row(dice))?;
            self.key_area.push(draw_byte(dice))?;
        }
        Ok(())
    }

    /// Puts another row and another byte somewhere.
    pub(crate) fn damage(&mut self, dice: &mut Dice) {
        let (at, row) = (dice.below(6) as usize, draw_row(dice));
        if let Some(place) = self.rows.get_mut(at) {
            *place = row;
        }
        let (at, byte) = (dice.below(6) as usize, draw_byte(dice));
        if let Some(place) = self.key_area.get_mut(at) {
            *place = byte;
        }
    }

    /// All that the areas hold.
    pub(crate) fn digest(&self) -> Digest {
        let mut digest = Digest::new();
        for row in &self.rows {
            digest.put(u64::from(row.node));
            digest.put(row.position as u64);
            digest.put(row.total);
            row.state.put_into(&mut digest);
        }
        for byte in &self.key_area {
            digest.put(u64::from(*byte));
        }
        digest
    }
}
