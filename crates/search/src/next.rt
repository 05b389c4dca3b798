//! The next key of a search.
ghost use Rattle.std.specs.Prelude.{◌≡◌, ℕ, List, true, false, MatchResult};
ghost use Rattle.law.specs.Values.{too_short, without_key};
ghost use Rattle.law.specs.Next.{walk, next_of};
ghost use Rattle.law.specs.Calls.{NextLaw, NextEnds};
ghost use Rattle.search.specs.Numbers.{number_of};
ghost use Rattle.search.specs.Views.{search_of, view_of};
ghost use Rattle.search.specs.Looks.{look_at_waiting};
ghost use Rattle.search.specs.Answers.{move_of, answer_of, result_of};

use crate::look::Look;
use crate::refusal::Refusal;
use crate::search::{Item, Search};
use automaton::{Automaton, verdict_at};
use graph::Graph;
use law::Row;

impl<S: Copy> Search<'_, S> {
    /// What a call begins with: no key stands any more, and the work areas have to be long enough.
    fn begin(&mut self, rows: &[Row<S>], key_area: &[u8]) -> Result<(), Refusal>
        ensures answer { let short = too_short (view_of self.old rows.now key_area.now) in
            MatchResult result (λ _. short ≡ false) (λ e. (short ≡ true) × (number_of e ≡ 13)) }
        ensures left { search_of self.new ≡ without_key (search_of self.old) }
    {
        self.standing = false;
        if !self.fits(rows, key_area) {
            return Err(Refusal::AreasTooShort);
        }
        Ok(())
    }

    /// The look at a waiting total, which comes before all rows.
    fn look_at_waiting<A: Automaton<State = S>>(&mut self, filter: &A) -> Result<Look<S>, Refusal>
        ensures { (rows : List (Row S)) (area : List ℕ) →
            move_of (view_of self.new rows area) result ≡ look_at_waiting (A.table filter.now) (view_of self.old rows area) self.old.waiting }
    {
        let Some(total) = self.waiting else {
            return Ok(Look::More);
        };
        if self.upper.exceeded_by(b"") {
            self.waiting = None;
            self.stack.clear();
            return Ok(Look::Done(None));
        }
        let start = filter.start();
        if !verdict_at(filter, start) {
            self.waiting = None;
            return Ok(Look::More);
        }
        if self.count == u32::MAX {
            return Err(Refusal::CountFull);
        }
        self.waiting = None;
        self.hand_out();
        Ok(Look::Done(Some((0, total, start))))
    }

    /// Looks at the top row until a key is handed out, or it is the end.
    fn walk<G: Graph, A: Automaton<State = S>>(
        &mut self,
        graph: &G,
        filter: &A,
        rows: &mut [Row<S>],
        key_area: &mut [u8],
    ) -> Result<Option<Item<S>>, Refusal>
        requires { too_short (view_of self.old rows.old key_area.old) ≡ false }
        ensures { let x = view_of self.old rows.old key_area.old in
            result_of (view_of self.new rows.new key_area.new) result ≡ walk (G.table graph.now) (A.table filter.now) x }
    {
        loop {
            if let Look::Done(item) = self.look(graph, filter, rows, key_area)? {
                return Ok(item);
            }
        }
    }

    /// The next key, or the end.
    // Apart from `next`, so that a wrong answer is refused here and not in a proof of the law.
    fn next_key<G: Graph, A: Automaton<State = S>>(
        &mut self,
        graph: &G,
        filter: &A,
        rows: &mut [Row<S>],
        key_area: &mut [u8],
    ) -> Result<Option<Item<S>>, Refusal>
        ensures { let x = view_of self.old rows.old key_area.old in
            result_of (view_of self.new rows.new key_area.new) result ≡ next_of (G.table graph.now) (A.table filter.now) x }
    {
        self.begin(rows, key_area)?;
        if let Look::Done(item) = self.look_at_waiting(filter)? {
            return Ok(item);
        }
        self.walk(graph, filter, rows, key_area)
    }

    /// The next key, which is the first bytes of the key area and stands until the following call; or none at the end.
    pub fn next<G: Graph, A: Automaton<State = S>>(
        &mut self,
        graph: &G,
        filter: &A,
        rows: &mut [Row<S>],
        key_area: &mut [u8],
    ) -> Result<Option<Item<S>>, Refusal>
        ensures answer { let x = view_of self.old rows.old key_area.old in
            answer_of result ≡ (next_of (G.table graph.now) (A.table filter.now) x).answer }
        ensures left { let x = view_of self.old rows.old key_area.old in
            view_of self.new rows.new key_area.new ≡ (next_of (G.table graph.now) (A.table filter.now) x).left }
        ensures law { let x = view_of self.old rows.old key_area.old in
            NextLaw (G.table graph.now) (A.table filter.now) x (answer_of result) (view_of self.new rows.new key_area.new) }
        ensures ends { let x = view_of self.old rows.old key_area.old in
            NextEnds (G.table graph.now) (A.table filter.now) x (answer_of result) (view_of self.new rows.new key_area.new) }
    {
        self.next_key(graph, filter, rows, key_area)
    }
}
