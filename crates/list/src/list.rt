//! A list of strictly rising names.
ghost use Rattle.std.specs.Prelude.{◌≡◌, ℕ, ◌<◌, false, map, is_some, slice_index};
ghost use Rattle.names.specs.Names.{names_of};
ghost use Rattle.names.specs.Refusals.{refusal_of};
ghost use Rattle.prefixes.specs.Shared.{shared_in};
ghost use Rattle.list.specs.Marks.{shared_by, unmarked, JumpsFrom};

use names::Name;

/// Names cut out of a text by rows: 1 to 65,536, strictly rising, each of at most 255 bytes.
#[derive(Drop)]
pub struct List {
    pub(crate) text: Vec<u8>,
    /// Their lengths carry marks, which tell where groups of names that begin alike end.
    pub(crate) rows: Vec<Name>,
    ghost accepted: { is_some (refusal_of text.items (map unmarked rows.items)) ≡ false },
    ghost bytes: { (k : ℕ) → slice_index text.items k < 256 },
    ghost shared: { map shared_by rows.items ≡ shared_in (names_of text.items (map unmarked rows.items)) },
    ghost jumps: { JumpsFrom rows.items 0 },
}
