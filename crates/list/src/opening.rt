//! Opening a list, and what it holds.
ghost use Rattle.std.specs.Prelude.{◌≡◌, true, false, ◌↔◌, length, is_ok, is_some, IfOk, Some};
ghost use Rattle.std.specs.List.{slice_get};
ghost use Rattle.std.specs.Option.{option_map};
ghost use Rattle.std.specs.Result.{result_err};
ghost use Rattle.names.specs.declared.refusal.Refusal.{Refusal as Reason};
ghost use Rattle.names.specs.Names.{names_of};
ghost use Rattle.names.specs.Refusals.{refusal_of};
ghost use Rattle.names.specs.Rising.{Rising, Refused};
ghost use Rattle.prefixes.specs.Prefixes.{name_at, prefix_table};
ghost use Rattle.prefixes.specs.Keys.{KeysAreTheNames, PathsAreThePrefixes};
ghost use Rattle.prefixes.specs.Nodes.{NodesAreThePrefixes};
ghost use Rattle.list.specs.Opened.{rows_in, names_in};

use crate::list::List;
use crate::marks::{mark_jumps, mark_shared, unmark, unmarked};
use names::{Name, Refusal, check};

/// The text and rows of a list.
// Beside the list's own fields, which its contracts name.
#[derive(Drop)]
pub struct Parts {
    pub text: Vec<u8>,
    pub rows: Vec<Name>,
}

impl List {
    /// The list of the names that rows cut out of a text, or why they are none.
    /// Its keys are exactly the names, and the total of name i is i. Its nodes are the prefixes of the names: node 256 × i + d is
    /// the prefix of d bytes of name i, where no lower name begins with it.
    /// The table in the clauses is the one by which the list answers as a graph.
    #[tactic(auto, using(crate::proofs::Rows::keys_since, crate::proofs::Rows::paths_since, crate::proofs::Rows::nodes_since))]
    pub fn open(text: Vec<u8>, rows: Vec<Name>) -> Result<List, Refusal>
        ensures answer { result_err result ≡ refusal_of text.items rows.items }
        ensures accepted { (is_ok result ≡ true) ↔ Rising text.items rows.items }
        ensures refused { (e : Reason) → (result_err result ≡ Some e) ↔ Refused text.items rows.items e }
        ensures parts { IfOk result (λ l. (l.text.items ≡ text.items) × (rows_in l ≡ rows.items)) }
        ensures names { IfOk result (λ l. names_in l ≡ names_of text.items rows.items) }
        ensures keys { IfOk result (λ l. KeysAreTheNames (prefix_table (names_in l)) (names_of text.items rows.items)) }
        ensures paths { IfOk result (λ l. PathsAreThePrefixes (prefix_table (names_in l)) (names_of text.items rows.items)) }
        ensures nodes { IfOk result (λ l. NodesAreThePrefixes
            (prefix_table (names_in l)) (names_of text.items rows.items)) }
    {
        check(text.as_slice(), rows.as_slice())?;
        Ok(List::marked(text, rows))
    }

    /// The list of the names that good rows cut out of a text. Their marks stand in the rows themselves, so nothing is allocated.
    fn marked(text: Vec<u8>, mut rows: Vec<Name>) -> List
        requires rising { Rising text.items rows.items }
        requires accepted { is_some (refusal_of text.items rows.items) ≡ false }
        ensures text { result.text.items ≡ text.items }
        ensures rows { rows_in result ≡ rows.items }
    {
        mark_shared(text.as_slice(), rows.as_mut_slice());
        mark_jumps(rows.as_mut_slice());
        List { text, rows }
    }

    /// The text that the names are cut out of.
    pub(crate) fn text(&self) -> &[u8]
        ensures { result.now ≡ self.now.text.items }
    {
        self.text.as_slice()
    }

    /// The rows of the names, with their marks.
    pub(crate) fn rows(&self) -> &[Name]
        ensures { result.now ≡ self.now.rows.items }
    {
        self.rows.as_slice()
    }

    /// The row of a number, or none where there is no such row.
    fn row(&self, i: usize) -> Option<Name>
        ensures { result ≡ slice_get self.now.rows.items i }
    {
        self.rows().get(i).copied()
    }

    /// The number of names.
    pub fn count(&self) -> usize
        ensures { result ≡ length (names_in self.now) }
    {
        self.rows().len()
    }

    /// The bytes of the name of a number, or none where there is no such name.
    #[tactic(auto, using(crate::proofs::Rows::name_of_row))]
    pub fn name(&self, i: usize) -> Option<&[u8]>
        ensures { option_map (λ x. x.now) result ≡ slice_get (names_in self.now) i }
    {
        unmarked(self.row(i)?).bytes(self.text())
    }

    /// The name of a number, and the empty string where there is none.
    // no `Option`: the definitions take a name that is not there for the empty one
    #[tactic(auto, using(crate::proofs::Rows::name_or_nothing))]
    pub(crate) fn name_or_empty(&self, i: usize) -> &[u8]
        ensures { result.now ≡ name_at (names_in self.now) i }
    {
        self.name(i).unwrap_or(b"")
    }

    /// The text and rows that the list was opened with.
    pub fn into_parts(self) -> Parts
        ensures text { result.text.items ≡ self.text.items }
        ensures rows { result.rows.items ≡ rows_in self }
    {
        let List { text, mut rows } = self;
        unmark(rows.as_mut_slice());
        Parts { text, rows }
    }
}
