//! One look at the top row of a search.
ghost use Rattle.std.specs.Prelude.{◌≡◌, ◌<◌, ◌-◌, ℕ, suc, List, Ok, [], ◌∷◌, ◌++◌, false, length, ◌==◌, IfOk, Some};
ghost use Rattle.law.specs.Values.{too_short, most_keys, handed_out};
ghost use Rattle.law.specs.Next.{top_look};
ghost use Rattle.search.specs.Views.{search_of, view_of};
ghost use Rattle.search.specs.Looks.{Follows, CanCount, arrival_of, reach_of, descended, arrive, look_down, Ready};
ghost use Rattle.search.specs.Answers.{move_of};

use crate::refusal::Refusal;
use crate::search::{Item, Search};
use automaton::{Automaton, verdict_at};
use graph::{Graph, Transition};
use law::Row;

/// What becomes of the key that a look leads to.
#[derive(Clone, Copy, Debug, PartialEq, Eq)]
pub(crate) enum Arrival {
    /// It is above the upper bound.
    Beyond,
    /// It is handed out, with this total.
    Due(u64),
    /// It is passed over.
    Passed,
}

/// A row beneath the top row, and what becomes of its key.
#[derive(Clone, Copy, Debug, PartialEq, Eq)]
pub(crate) struct Reached<S> {
    pub(crate) row: Row<S>,
    pub(crate) arrival: Arrival,
}

/// What a look comes to: there is more to look at, or a key with its total and state is handed out, or it is the end.
#[derive(Clone, Copy, Debug, PartialEq, Eq)]
pub(crate) enum Look<S> {
    More,
    Done(Option<Item<S>>),
}

/// The transition by which a row leads on, or none where the filter cannot match.
#[tactic(auto, using(crate::proofs::Looks::cannot_match_follows, crate::proofs::Looks::transition_follows))]
fn follow<G: Graph, A: Automaton>(graph: &G, filter: &A, row: Row<A::State>) -> Option<Transition>
    ensures { Follows (G.table graph.now) (A.table filter.now) row result }
{
    if filter.can_match(row.state) {
        graph.transition(row.node, row.position)
    } else {
        None
    }
}

impl<S: Copy> Search<'_, S> {
    /// What becomes of the key `front` with `byte`, which ends at the row. Nothing is written.
    fn arrival<G: Graph, A: Automaton<State = S>>(
        &self,
        graph: &G,
        filter: &A,
        front: &[u8],
        byte: u8,
        row: Row<S>,
    ) -> Result<Arrival, Refusal>
        ensures { result ≡ arrival_of (G.table graph.now) (A.table filter.now) (search_of self.now) (front.now ++ byte ∷ []) row }
    {
        if self.upper.exceeded_with_byte(front, byte) {
            return Ok(Arrival::Beyond);
        }
        if !(graph.is_final(row.node) && verdict_at(filter, row.state)) {
            return Ok(Arrival::Passed);
        }
        let total = row
            .total
            .checked_add(graph.final_output(row.node))
            .ok_or(Refusal::SumTooLarge)?;
        if self.count == u32::MAX {
            return Err(Refusal::CountFull);
        }
        Ok(Arrival::Due(total))
    }

    /// The row beneath the top row. Nothing is written.
    #[tactic(auto, unfolding(crate::specs::Looks::reach_of))]
    fn reach<G: Graph, A: Automaton<State = S>>(
        &self,
        graph: &G,
        filter: &A,
        rows: &[Row<S>],
        key_area: &[u8],
        row: Row<S>,
        transition: Transition,
    ) -> Result<Reached<S>, Refusal>
        requires some { 0 < self.now.stack.depth }
        requires leads_on { (G.table graph.now).transition row.node row.position ≡ Some transition }
        ensures answer { result ≡ reach_of (G.table graph.now) (A.table filter.now) (view_of self.now rows.now key_area.now) (self.now.stack.depth - 1) row }
        ensures ready { IfOk result (Ready (G.table graph.now) (A.table filter.now) (view_of self.now rows.now key_area.now) (self.now.stack.depth - 1) row) }
    {
        if !self.stack.has_free_row(rows) {
            return Err(Refusal::StackFull);
        }
        let length = self.key_length();
        if length >= key_area.len() {
            return Err(Refusal::KeyAreaFull);
        }
        let Transition {
            byte,
            output,
            target,
        } = transition;
        let total = row.total.checked_add(output).ok_or(Refusal::SumTooLarge)?;
        let row = Row {
            node: target,
            position: 0,
            total,
            state: filter.accept(row.state, byte),
        };
        let arrival = self.arrival(graph, filter, &key_area[..length], byte, row)?;
        Ok(Reached { row, arrival })
    }

    /// Writes what a look leads to: the top row with its position raised, the byte, and the row beneath.
    fn descend(
        &mut self,
        rows: &mut [Row<S>],
        key_area: &mut [u8],
        key_length: usize,
        top: Row<S>,
        byte: u8,
        beneath: Row<S>,
    )
        requires depth { self.old.stack.depth ≡ suc key_length }
        requires row_free { suc key_length < length rows.old }
        requires byte_free { key_length < length key_area.old }
        requires position_small { top.position < 256 }
        ensures { view_of self.new rows.new key_area.new ≡ descended (view_of self.old rows.old key_area.old) key_length top byte beneath }
    {
        let position = top.position + 1;
        self.stack.replace_top(rows, Row { position, ..top });
        self.stack.push(rows, beneath);
        key_area[key_length] = byte;
    }

    /// Lets a key stand, and counts it.
    pub(crate) fn hand_out(&mut self)
        requires { (self.old.count == most_keys) ≡ false }
        ensures { search_of self.new ≡ handed_out (search_of self.old) }
    {
        self.standing = true;
        self.count += 1;
    }

    /// Ends a look by what becomes of its key, which has so many bytes.
    fn arrive(&mut self, length: usize, reached: Reached<S>) -> Look<S>
        requires { CanCount (search_of self.old) reached.arrival }
        ensures { (rows : List (Row S)) (area : List ℕ) →
            move_of (view_of self.new rows area) (Ok result) ≡ arrive (view_of self.old rows area) length reached.row reached.arrival }
    {
        match reached.arrival {
            Arrival::Beyond => {
                self.stack.clear();
                Look::Done(None)
            }
            Arrival::Due(total) => {
                self.hand_out();
                Look::Done(Some((length, total, reached.row.state)))
            }
            Arrival::Passed => Look::More,
        }
    }

    /// The look at the top row where a transition leads on.
    fn look_down<G: Graph, A: Automaton<State = S>>(
        &mut self,
        graph: &G,
        filter: &A,
        rows: &mut [Row<S>],
        key_area: &mut [u8],
        row: Row<S>,
        transition: Transition,
    ) -> Result<Look<S>, Refusal>
        requires some { 0 < self.old.stack.depth }
        requires leads_on { (G.table graph.now).transition row.node row.position ≡ Some transition }
        requires position_small { row.position < 256 }
        ensures { let x = view_of self.old rows.old key_area.old in
            move_of (view_of self.new rows.new key_area.new) result ≡ look_down (G.table graph.now) (A.table filter.now) x row }
    {
        let reached = self.reach(graph, filter, rows, key_area, row, transition)?;
        let depth = self.stack.depth;
        self.descend(rows, key_area, depth - 1, row, transition.byte, reached.row);
        // the key has a byte for each row but the first
        Ok(self.arrive(depth, reached))
    }

    /// One look at the top row.
    #[tactic(auto, using(crate::proofs::Looks::top_looks_down))]
    pub(crate) fn look<G: Graph, A: Automaton<State = S>>(
        &mut self,
        graph: &G,
        filter: &A,
        rows: &mut [Row<S>],
        key_area: &mut [u8],
    ) -> Result<Look<S>, Refusal>
        requires { too_short (view_of self.old rows.old key_area.old) ≡ false }
        ensures { let x = view_of self.old rows.old key_area.old in
            move_of (view_of self.new rows.new key_area.new) result ≡ top_look (G.table graph.now) (A.table filter.now) x }
    {
        let Some(row) = self.stack.top(rows) else {
            return Ok(Look::Done(None));
        };
        let Some(transition) = follow(graph, filter, row) else {
            self.stack.pop();
            return Ok(Look::More);
        };
        self.look_down(graph, filter, rows, key_area, row, transition)
    }
}
