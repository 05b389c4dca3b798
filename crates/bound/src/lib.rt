//! Bounds on keys. A bound holds the caller's bytes themselves.
#![tactic(auto)]

ghost use Rattle.std.specs.Prelude.{◌≡◌, true, false, ◌↔◌, [], ◌∷◌, ◌++◌};
ghost use Rattle.bound.specs.Value.{value_of, bytes_of, IsHeld};
ghost use Rattle.bound.specs.Within.{is_reached, is_exceeded, is_within, From, To, Within};

use byte_strings::{compare, compare_with_byte};

/// The lower or the upper end of the keys that are wanted.
// No `std::ops::Bound`: a type of the library takes no methods of ours, and a trait for them is no plainer.
#[derive(Clone, Copy, Debug, PartialEq, Eq)]
pub enum Bound<'b> {
    /// Every key.
    Unbounded,
    /// As a lower bound these bytes and the keys above them,
    /// as an upper one these bytes and the keys below them.
    Included(&'b [u8]),
    /// As a lower bound the keys above these bytes, as an upper one the keys below them.
    Excluded(&'b [u8]),
}

impl<'b> Bound<'b> {
    /// The bytes of the bound, as they were handed to it; none of an absent one.
    pub fn bytes(self) -> &'b [u8]
        ensures answer { result.now ≡ bytes_of (value_of self.entry) }
        ensures held { IsHeld self.entry result }
    {
        match self {
            // no `Option`: an absent bound asks for as few rows and bytes as an empty one
            Bound::Unbounded => b"",
            Bound::Included(bytes) | Bound::Excluded(bytes) => bytes,
        }
    }

    /// Whether this, as a lower bound, is below the key, or Included and equal.
    #[tactic(auto, using(crate::proofs::Words::from_said, crate::proofs::Words::from_test))]
    pub fn reached_by(self, key: &[u8]) -> bool
        ensures answer { result ≡ is_reached (value_of self.entry) key.now }
        ensures meaning { (result ≡ true) ↔ From (value_of self.entry) key.now }
    {
        match self {
            Bound::Unbounded => true,
            Bound::Included(bytes) => compare(bytes, key).is_le(),
            Bound::Excluded(bytes) => compare(bytes, key).is_lt(),
        }
    }

    /// Whether the key is above this, as an upper bound, or equal to an Excluded one.
    #[tactic(auto, using(crate::proofs::Words::to_said, crate::proofs::Words::to_test))]
    pub fn exceeded_by(self, key: &[u8]) -> bool
        ensures answer { result ≡ is_exceeded (value_of self.entry) key.now }
        ensures meaning { (result ≡ false) ↔ To (value_of self.entry) key.now }
    {
        match self {
            Bound::Unbounded => false,
            Bound::Included(bytes) => compare(key, bytes).is_gt(),
            Bound::Excluded(bytes) => compare(key, bytes).is_ge(),
        }
    }

    /// The same of the key `front` followed by `byte`, without writing the byte.
    #[tactic(auto, using(crate::proofs::Words::to_said, crate::proofs::Words::to_test))]
    pub fn exceeded_with_byte(self, front: &[u8], byte: u8) -> bool
        ensures answer { result ≡ is_exceeded (value_of self.entry) (front.now ++ (byte ∷ [])) }
        ensures meaning { (result ≡ false) ↔ To (value_of self.entry) (front.now ++ (byte ∷ [])) }
    {
        match self {
            Bound::Unbounded => false,
            Bound::Included(bytes) => compare_with_byte(front, byte, bytes).is_gt(),
            Bound::Excluded(bytes) => compare_with_byte(front, byte, bytes).is_ge(),
        }
    }
}

/// Whether the key lies within the bounds.
#[tactic(auto, using(crate::proofs::Words::within_since, crate::proofs::Words::reached_within, crate::proofs::Words::exceeded_within))]
pub fn within(lower: Bound<'_>, upper: Bound<'_>, key: &[u8]) -> bool
    ensures answer { result ≡ is_within (value_of lower.entry) (value_of upper.entry) key.now }
    ensures meaning { (result ≡ true) ↔ Within (value_of lower.entry) (value_of upper.entry) key.now }
{
    lower.reached_by(key) && !upper.exceeded_by(key)
}
