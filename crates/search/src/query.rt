//! A query: the bounds that a search is opened with.
ghost use Rattle.std.specs.Prelude.{◌≡◌, IfOk, IfErr};
ghost use Rattle.bound.specs.Value.{unbounded, included, excluded};
ghost use Rattle.bound.specs.declared.Bound.TheVariants.{Included, Excluded};
ghost use Rattle.law.specs.Open.{open_of};
ghost use Rattle.law.specs.Calls.{OpenLaw};
ghost use Rattle.search.specs.Queries.{bounds_of, outcome_of, opening_by};

use crate::opening::open_at;
use crate::refusal::Refusal;
use crate::search::Search;
use automaton::Automaton;
use bound::Bound;
use graph::Graph;
use law::Row;
use std::marker::PhantomData;

/// The bounds of a search that is still to be opened. A later bound on a side replaces the earlier.
#[derive(Debug, Drop)]
pub struct Query<'b> {
    lower: Bound<'b>,
    upper: Bound<'b>,
}

/// A query that was not opened, handed back with the reason.
#[derive(Debug, Drop)]
pub struct Unopened<'b> {
    pub query: Query<'b>,
    pub refusal: Refusal,
}

impl<'b> Query<'b> {
    /// A query for all keys.
    pub fn new() -> Query<'b>
        ensures { bounds_of result ≡ record { lower = unbounded; upper = unbounded } }
    {
        Query {
            lower: Bound::Unbounded,
            upper: Bound::Unbounded,
        }
    }

    /// From these bytes on.
    pub fn ge(self, bytes: &'b [u8]) -> Query<'b>
        ensures answer { bounds_of result ≡ record (bounds_of self.entry) { lower = included bytes.now } }
        ensures held { result ≡ record self.entry { lower = Included bytes.entry } }
    {
        Query {
            lower: Bound::Included(bytes),
            ..self
        }
    }

    /// Above these bytes.
    pub fn gt(self, bytes: &'b [u8]) -> Query<'b>
        ensures answer { bounds_of result ≡ record (bounds_of self.entry) { lower = excluded bytes.now } }
        ensures held { result ≡ record self.entry { lower = Excluded bytes.entry } }
    {
        Query {
            lower: Bound::Excluded(bytes),
            ..self
        }
    }

    /// Up to these bytes.
    pub fn le(self, bytes: &'b [u8]) -> Query<'b>
        ensures answer { bounds_of result ≡ record (bounds_of self.entry) { upper = included bytes.now } }
        ensures held { result ≡ record self.entry { upper = Included bytes.entry } }
    {
        Query {
            upper: Bound::Included(bytes),
            ..self
        }
    }

    /// Below these bytes.
    pub fn lt(self, bytes: &'b [u8]) -> Query<'b>
        ensures answer { bounds_of result ≡ record (bounds_of self.entry) { upper = excluded bytes.now } }
        ensures held { result ≡ record self.entry { upper = Excluded bytes.entry } }
    {
        Query {
            upper: Bound::Excluded(bytes),
            ..self
        }
    }

    /// The search of this query, or the query back.
    // Apart from `open`, so that a wrong answer is refused here and not in a proof of the law.
    fn open_search<G: Graph, A: Automaton>(
        self,
        graph: &G,
        filter: &A,
        rows: &mut [Row<A::State>],
        key_area: &mut [u8],
    ) -> Result<Search<'b, A::State>, Unopened<'b>>
        ensures answer { let b = bounds_of self.entry in
            opening_by result rows.new key_area.new ≡ open_of (G.table graph.now) (A.table filter.now) b.lower b.upper rows.old key_area.old }
        ensures upper_held { IfOk result (λ s. s.upper ≡ self.entry.upper) }
        ensures handed_back { IfErr result (λ u. bounds_of u.query ≡ bounds_of self.entry) }
        ensures query_itself { IfErr result (λ u. u.query ≡ self.entry) }
    {
        match open_at(graph, filter, self.lower, rows, key_area) {
            Ok(opened) => Ok(Search {
                upper: self.upper,
                stack: opened.stack,
                waiting: opened.waiting,
                standing: false,
                count: 0,
                states: PhantomData,
            }),
            Err(refusal) => Err(Unopened {
                query: self,
                refusal,
            }),
        }
    }

    /// Opens the search of this query, or hands the query back.
    pub fn open<G: Graph, A: Automaton>(
        self,
        graph: &G,
        filter: &A,
        rows: &mut [Row<A::State>],
        key_area: &mut [u8],
    ) -> Result<Search<'b, A::State>, Unopened<'b>>
        ensures answer { let b = bounds_of self.entry in
            outcome_of result ≡ (open_of (G.table graph.now) (A.table filter.now) b.lower b.upper rows.old key_area.old).outcome }
        ensures rows_left { let b = bounds_of self.entry in
            rows.new ≡ (open_of (G.table graph.now) (A.table filter.now) b.lower b.upper rows.old key_area.old).rows }
        ensures key_area_left { let b = bounds_of self.entry in
            key_area.new ≡ (open_of (G.table graph.now) (A.table filter.now) b.lower b.upper rows.old key_area.old).key_area }
        ensures upper_held { IfOk result (λ s. s.upper ≡ self.entry.upper) }
        ensures handed_back { IfErr result (λ u. bounds_of u.query ≡ bounds_of self.entry) }
        ensures query_itself { IfErr result (λ u. u.query ≡ self.entry) }
        ensures law { let b = bounds_of self.entry in
            OpenLaw (G.table graph.now) (A.table filter.now) b.lower b.upper (outcome_of result) rows.new key_area.new }
    {
        self.open_search(graph, filter, rows, key_area)
    }
}
