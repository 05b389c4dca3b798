//! One search after the other, each with random bounds and areas.
ghost use Rattle.std.specs.Prelude.{◌≤◌};

use crate::areas::{Areas, draw_bytes};
use crate::dice::Dice;
use crate::drawn::Drawn;
use crate::tally::Tally;
use automaton::{AlwaysMatch, Automaton, Closed, Str, Subsequence};
use graph::Graph;
use search::{Query, Refusal, Row, Search};
use std::alloc::{AllocError, Global};

/// What all searches draw from, and where their answers are counted.
#[derive(Drop)]
pub(crate) struct Trial {
    pub(crate) heap: Global,
    pub(crate) dice: Dice,
    pub(crate) tally: Tally,
}

/// What a search has done so far.
#[derive(Clone, Copy, Debug, Default, PartialEq, Eq)]
struct Story {
    handed: u32,
    standing: bool,
    ended: bool,
}

fn draw_query<'b>(dice: &mut Dice, lower: &'b [u8], upper: &'b [u8]) -> Query<'b> {
    let query = match dice.below(3) {
        0 => Query::new(),
        1 => Query::new().ge(lower),
        _ => Query::new().gt(lower),
    };
    match dice.below(8) {
        0 => query.le(upper),
        1 => query.lt(upper),
        _ => query,
    }
}

/// How much of an area a call is given: mostly all of it.
fn cut(dice: &mut Dice, length: usize) -> usize
    ensures { result ≤ length }
{
    if dice.once_in(5) {
        length.min(dice.below(8) as usize)
    } else {
        length
    }
}

impl Trial {
    /// A search over a graph, with one of the filters.
    pub(crate) fn over<G: Graph>(&mut self, graph: &G) -> Result<(), AllocError> {
        let (one, other) = (Str::new(b"a"), Subsequence::new(b"bb"));
        match self.dice.below(8) {
            0 => self.round(graph, &AlwaysMatch),
            1 => self.round(graph, &Str::new(b"ab")),
            2 => self.round(graph, &other),
            3 => self.round(graph, &one.starts_with()),
            4 => self.round(graph, &Closed::new(Str::new(b"ab/"))),
            5 => self.round(graph, &one.union(other)),
            6 => self.round(graph, &other.complement()),
            _ => self.round(
                graph,
                &other.complement().intersection(Subsequence::new(b"a")),
            ),
        }
    }

    /// A search with random bounds and areas, and calls of it. A query that is handed back is opened once more.
    fn round<G: Graph, A: Automaton>(&mut self, graph: &G, filter: &A) -> Result<(), AllocError>
    where
        A::State: Drawn,
    {
        let mut areas = Areas::draw(self.heap, &mut self.dice)?;
        let lower = draw_bytes(self.heap, &mut self.dice, 6)?;
        let upper = draw_bytes(self.heap, &mut self.dice, 4)?;
        let query = draw_query(&mut self.dice, lower.as_slice(), upper.as_slice());
        let mut opened = self.open(graph, filter, query, &mut areas);
        if let Err(query) = opened {
            areas.lengthen(&mut self.dice)?;
            opened = self.open(graph, filter, query, &mut areas);
        }
        if let Ok(search) = opened {
            self.calls(graph, filter, search, areas);
        }
        Ok(())
    }

    /// Opens a query, or hands it back.
    fn open<'b, G: Graph, A: Automaton>(
        &mut self,
        graph: &G,
        filter: &A,
        query: Query<'b>,
        areas: &mut Areas<A::State>,
    ) -> Result<Search<'b, A::State>, Query<'b>>
    where
        A::State: Drawn,
    {
        let rows = areas.rows.as_mut_slice();
        match query.open(graph, filter, rows, areas.key_area.as_mut_slice()) {
            Ok(search) => {
                self.tally.opening(None, areas.digest());
                Ok(search)
            }
            Err(unopened) => {
                self.tally.opening(Some(unopened.refusal), areas.digest());
                Err(unopened.query)
            }
        }
    }

    /// Calls of a search, between which its areas are damaged.
    fn calls<G: Graph, A: Automaton>(
        &mut self,
        graph: &G,
        filter: &A,
        mut search: Search<'_, A::State>,
        mut areas: Areas<A::State>,
    )
    where
        A::State: Drawn,
    {
        let mut story = Story::default();
        for _ in 0..self.dice.below(16) {
            if self.dice.once_in(2) {
                areas.damage(&mut self.dice);
            }
            let before = areas.digest();
            let rows = cut(&mut self.dice, areas.rows.len());
            let bytes = cut(&mut self.dice, areas.key_area.len());
            let rows = &mut areas.rows.as_mut_slice()[..rows];
            let key_area = &mut areas.key_area.as_mut_slice()[..bytes];
            let writes = match self.dice.below(8) {
                0 | 1 => {
                    self.key(&search, rows, key_area, story);
                    false
                }
                // another filter with the same states
                2 => {
                    let others = filter.complement();
                    self.next(graph, &others, &mut search, rows, key_area, &mut story)
                }
                _ => self.next(graph, filter, &mut search, rows, key_area, &mut story),
            };
            self.tally.expect(writes || areas.digest() == before);
            self.tally.areas(areas.digest());
            if story.ended && self.dice.once_in(2) {
                break;
            }
        }
        self.tally.expect(search.close() == story.handed);
    }

    /// A call of `next`, and whether it may write.
    fn next<G: Graph, A: Automaton>(
        &mut self,
        graph: &G,
        filter: &A,
        search: &mut Search<'_, A::State>,
        rows: &mut [Row<A::State>],
        key_area: &mut [u8],
        story: &mut Story,
    ) -> bool
    where
        A::State: Drawn,
    {
        let answer = search.next(graph, filter, rows, key_area);
        story.standing = false;
        match answer {
            Ok(Some((length, _, _))) => {
                self.tally.expect(!story.ended);
                self.tally
                    .expect(search.key(rows, key_area).ok() == key_area.get(..length));
                story.standing = true;
                story.handed = story.handed.saturating_add(1);
            }
            Ok(None) => story.ended = true,
            Err(_) => self.tally.expect(!story.ended),
        }
        self.tally.next(answer);
        !matches!(answer, Err(Refusal::AreasTooShort))
    }

    /// A call of `key`: there is one exactly where it stands.
    fn key<S>(&mut self, search: &Search<'_, S>, rows: &[Row<S>], key_area: &[u8], story: Story) {
        let answer = search.key(rows, key_area);
        match answer {
            Ok(_) => self.tally.expect(story.standing),
            Err(Refusal::NoStandingKey) => self.tally.expect(!story.standing),
            Err(Refusal::AreasTooShort) => {}
            Err(_) => self.tally.expect(false),
        }
        self.tally.key(answer);
    }
}
