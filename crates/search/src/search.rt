//! A search, and the calls that look at it or end it.
ghost use Rattle.std.specs.Prelude.{◌≡◌, ◌-◌, not, IfOk};
ghost use Rattle.law.specs.Values.{too_short};
ghost use Rattle.law.specs.Next.{key_of};
ghost use Rattle.law.specs.Calls.{KeyLaw, CloseLaw};
ghost use Rattle.search.specs.Views.{search_of, view_of, count_of};
ghost use Rattle.search.specs.Answers.{part_by};

use crate::refusal::Refusal;
use bound::Bound;
use law::Row;
use stack::Stack;
use std::marker::PhantomData;

/// What `next` hands out: a key's length, its total and the state of the filter.
pub type Item<S> = (usize, u64, S);

/// A search that was opened: it holds neither graph nor filter nor work areas, and `S` is the type of the filter's states.
#[derive(Debug, Drop)]
pub struct Search<'b, S> {
    pub(crate) upper: Bound<'b>,
    pub(crate) stack: Stack,
    pub(crate) waiting: Option<u64>,
    pub(crate) standing: bool,
    pub(crate) count: u32,
    pub(crate) states: PhantomData<S>,
}

impl<S> Search<'_, S> {
    /// A byte for each row in use but the first.
    pub(crate) fn key_length(&self) -> usize
        ensures { result ≡ self.now.stack.depth - 1 }
    {
        self.stack.depth.saturating_sub(1)
    }

    /// Whether the rows in use and their key bytes lie within the work areas.
    pub(crate) fn fits(&self, rows: &[Row<S>], key_area: &[u8]) -> bool
        ensures { result ≡ not (too_short (view_of self.now rows.now key_area.now)) }
    {
        self.stack.fits(rows) && self.key_length() <= key_area.len()
    }

    /// The part of the key area that the standing key fills.
    // Apart from `key`, so that a wrong part is refused here and not in a proof of the law.
    #[tactic(auto, unfolding(law::specs::Next::key_of))]
    fn standing_key<'k>(&self, rows: &[Row<S>], key_area: &'k [u8]) -> Result<&'k [u8], Refusal>
        ensures answer { part_by (λ k. k.now) result ≡ key_of (view_of self.now rows.now key_area.now) }
        ensures place { IfOk result (λ k. k.ref_ptr ≡ key_area.entry.ref_ptr) }
    {
        if !self.fits(rows, key_area) {
            return Err(Refusal::AreasTooShort);
        }
        if !self.standing {
            return Err(Refusal::NoStandingKey);
        }
        Ok(&key_area[..self.key_length()])
    }

    /// The key that was handed out last, as long as it stands: the first bytes of the key area.
    #[tactic(auto, using(law::proofs::Calls::key_law))]
    pub fn key<'k>(&self, rows: &[Row<S>], key_area: &'k [u8]) -> Result<&'k [u8], Refusal>
        ensures answer { part_by (λ k. k.now) result ≡ key_of (view_of self.now rows.now key_area.now) }
        ensures place { IfOk result (λ k. k.ref_ptr ≡ key_area.entry.ref_ptr) }
        ensures law { KeyLaw (view_of self.now rows.now key_area.now) (part_by (λ k. k.now) result) }
    {
        self.standing_key(rows, key_area)
    }

    /// Ends the search, and answers how many keys it has handed out.
    #[tactic(auto, using(law::proofs::Calls::close_law))]
    pub fn close(self) -> u32
        ensures answer { result ≡ count_of self.entry }
        ensures law { CloseLaw S (search_of self.entry) result }
    {
        self.count
    }
}
