//! Byte strings: their order, and which begins with which.
#![tactic(auto)]

ghost use Rattle.std.specs.Prelude.{◌≡◌, ◌≤◌, false, length, [], ◌∷◌, ◌++◌};
ghost use Rattle.byte_strings.specs.Order.{order, begins};
ghost use Rattle.byte_strings.specs.Laws.{OrderLaw, BeginsLaw};

use std::cmp::Ordering;

/// How `a` stands to `b`: by their first differing byte, a proper prefix first.
#[tactic(auto, using(crate::proofs::Library::cmp_is_order))]
pub fn compare(a: &[u8], b: &[u8]) -> Ordering
    ensures { result ≡ order a.now b.now }
{
    a.cmp(&b)
}

/// How `byte` alone stands to `b`.
// No `compare` of a slice of one: a search with an upper bound asks at its every look, and the library's order is a call.
#[inline(always)]
fn compare_byte(byte: u8, b: &[u8]) -> Ordering
    ensures { result ≡ order (byte ∷ []) b.now }
{
    match b {
        [] => Ordering::Greater,
        [first] => byte.cmp(first),
        [first, ..] => byte.cmp(first).then(Ordering::Less),
    }
}

/// How `front` followed by `byte` stands to `b`, without writing the byte.
#[tactic(auto, using(crate::proofs::WithByte::order_in_parts, crate::proofs::WithByte::order_before_byte))]
pub fn compare_with_byte(front: &[u8], byte: u8, b: &[u8]) -> Ordering
    ensures { result ≡ order (front.now ++ (byte ∷ [])) b.now }
{
    match b.split_at_checked(front.len()) {
        Some((head, rest)) => compare(front, head).then(compare_byte(byte, rest)),
        None => compare(front, b),
    }
}

/// Whether the last byte of `a`, if it has one, is the byte of `b` at its place.
#[tactic(auto, using(crate::proofs::Fronts::last_differs))]
#[inline(always)]
fn ends_alike(a: &[u8], b: &[u8]) -> bool
    requires { length a.now ≤ length b.now }
    ensures { result ≡ false → begins a.now b.now ≡ false }
{
    a.is_empty() || a[a.len() - 1] == b[a.len() - 1]
}

/// Whether `b` begins with `a`.
#[tactic(auto, using(crate::proofs::Library::front_is_begins, crate::proofs::Library::longer_begins_none))]
#[inline(always)]
pub fn starts_with(a: &[u8], b: &[u8]) -> bool
    ensures { result ≡ begins a.now b.now }
{
    // The library's `starts_with` is a call in a search's every step; the last byte tells most strings apart in line.
    a.len() <= b.len() && ends_alike(a, b) && a == &b[..a.len()]
}

/// Theorem: the order is strict and total, and is the one that its words say.
#[tactic(auto, using(crate::proofs::OrderLaws::order_law))]
pub fn order_is_strict_and_total()
    ensures { OrderLaw }
{}

/// Theorem: a string begins with another exactly where some rest completes it.
#[tactic(auto, using(crate::proofs::OrderLaws::begins_law))]
pub fn beginning_is_a_front()
    ensures { BeginsLaw }
{}
