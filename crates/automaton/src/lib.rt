//! Filters over keys: automata that read a key byte by byte, each with the table of its answers and its meaning.
#![tactic(auto)]

ghost use Rattle.std.specs.Prelude.{◌≡◌};
ghost use Rattle.filter.specs.Filter.{Filter, Lawful};
ghost use Rattle.filter.specs.Tables.{starts_with_table, union_table, intersection_table, complement_table};
ghost use Rattle.filter.specs.Meanings.{Keys, Means, StartingWith, UnionOf, IntersectionOf, ComplementOf};

mod filters;
#[cfg(test)]
mod tests;
mod verdict;

pub use filter::{PairState, StartsWithState};
pub use filters::always_match::AlwaysMatch;
pub use filters::closed::Closed;
pub use filters::complement::Complement;
pub use filters::intersection::Intersection;
pub use filters::starts_with::StartsWith;
pub use filters::str::Str;
pub use filters::subsequence::Subsequence;
pub use filters::union::Union;
pub use verdict::{accepts, run, verdict_at};

/// A filter. Its questions do not change it, and each has one answer, that of its table.
pub trait Automaton {
    /// What the filter knows of the bytes read so far.
    type State: Copy;

    // the table of its answers
    ghost table: { Self → Filter Self.State };

    // the keys that it matches, its end state not asked
    ghost matching: { Self → Keys };

    // the keys that it accepts
    ghost accepting: { Self → Keys };

    /// The state before the first byte.
    fn start(&self) -> Self::State
        ensures { result ≡ (table self.now).start };

    /// Whether the bytes that led to the state match.
    fn is_match(&self, state: Self::State) -> bool
        ensures { result ≡ (table self.now).is_match state };

    /// If false, no bytes lead from the state to a match, nor does an end state match.
    fn can_match(&self, state: Self::State) -> bool
        ensures { result ≡ (table self.now).can_match state };

    /// If true, all bytes lead from the state to a match.
    fn will_always_match(&self, state: Self::State) -> bool
        ensures { result ≡ (table self.now).will_always_match state };

    /// The state after one more byte.
    fn accept(&self, state: Self::State, byte: u8) -> Self::State
        ensures { result ≡ (table self.now).accept state byte };

    /// The end state of a key that led to the state, if the filter gives one.
    fn accept_eof(&self, state: Self::State) -> Option<Self::State>
        ensures { result ≡ (table self.now).end_state state };

    // a law: its table keeps the laws of filters
    ghost lawful: { (f : Self) → Lawful (table f) };

    // a law: it matches, and accepts, exactly these keys
    ghost means: { (f : Self) → Means (table f) (matching f) (accepting f) };

    // each constructor repeats both laws for its own table, so that they can be read off its signature

    /// The keys of which this filter matches some prefix.
    final fn starts_with(self) -> StartsWith<Self>
    where
        Self: Sized,
        ensures holds { result.filter ≡ self }
        ensures lawful { Lawful (starts_with_table (Self.table result.filter)) }
        ensures means { Means (starts_with_table (Self.table result.filter))
            (StartingWith (Self.matching self))
            (StartingWith (Self.matching self)) }
    {
        StartsWith { filter: self }
    }

    /// The keys that this filter or the other matches.
    final fn union<G: Automaton>(self, other: G) -> Union<Self, G>
    where
        Self: Sized,
        ensures holds { (result.left ≡ self) × (result.right ≡ other) }
        ensures lawful { Lawful (union_table (Self.table result.left) (G.table result.right)) }
        ensures means { Means (union_table (Self.table result.left) (G.table result.right))
            (UnionOf (Self.matching self) (G.matching other))
            (UnionOf (Self.matching self) (G.matching other)) }
    {
        Union {
            left: self,
            right: other,
        }
    }

    /// The keys that this filter and the other match.
    final fn intersection<G: Automaton>(self, other: G) -> Intersection<Self, G>
    where
        Self: Sized,
        ensures holds { (result.left ≡ self) × (result.right ≡ other) }
        ensures lawful { Lawful (intersection_table (Self.table result.left) (G.table result.right)) }
        ensures means { Means (intersection_table (Self.table result.left) (G.table result.right))
            (IntersectionOf (Self.matching self) (G.matching other))
            (IntersectionOf (Self.matching self) (G.matching other)) }
    {
        Intersection {
            left: self,
            right: other,
        }
    }

    /// The keys that this filter does not match.
    final fn complement(self) -> Complement<Self>
    where
        Self: Sized,
        ensures holds { result.filter ≡ self }
        ensures lawful { Lawful (complement_table (Self.table result.filter)) }
        ensures means { Means (complement_table (Self.table result.filter))
            (ComplementOf (Self.matching self))
            (ComplementOf (Self.matching self)) }
    {
        Complement { filter: self }
    }
}
