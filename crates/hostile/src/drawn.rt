//! States of filters that are drawn at random, reachable or not.
use crate::dice::Dice;
use crate::digest::Digest;
use automaton::{PairState, StartsWithState};

/// A state that can be drawn, and put into a digest.
pub(crate) trait Drawn: Copy {
    fn draw(dice: &mut Dice) -> Self;

    fn put_into(self, digest: &mut Digest);
}

impl Drawn for () {
    fn draw(_dice: &mut Dice) {}

    fn put_into(self, digest: &mut Digest) {
        digest.put(0);
    }
}

impl Drawn for usize {
    fn draw(dice: &mut Dice) -> usize {
        dice.number() as usize
    }

    fn put_into(self, digest: &mut Digest) {
        digest.put(self as u64);
    }
}

impl Drawn for Option<usize> {
    fn draw(dice: &mut Dice) -> Option<usize> {
        if dice.once_in(4) {
            None
        } else {
            Some(usize::draw(dice))
        }
    }

    fn put_into(self, digest: &mut Digest) {
        match self {
            None => digest.put(1),
            Some(position) => {
                digest.put(2);
                position.put_into(digest);
            }
        }
    }
}

impl<S: Drawn> Drawn for StartsWithState<S> {
    fn draw(dice: &mut Dice) -> StartsWithState<S> {
        if dice.once_in(3) {
            StartsWithState::Done
        } else {
            StartsWithState::Running(S::draw(dice))
        }
    }

    fn put_into(self, digest: &mut Digest) {
        match self {
            StartsWithState::Done => digest.put(1),
            StartsWithState::Running(state) => {
                digest.put(2);
                state.put_into(digest);
            }
        }
    }
}

impl<S: Drawn, R: Drawn> Drawn for PairState<S, R> {
    fn draw(dice: &mut Dice) -> PairState<S, R> {
        PairState {
            left: S::draw(dice),
            right: R::draw(dice),
        }
    }

    fn put_into(self, digest: &mut Digest) {
        self.left.put_into(digest);
        self.right.put_into(digest);
    }
}
