//! The filters, each in a file of its own.
pub(crate) mod always_match;
pub(crate) mod closed;
pub(crate) mod complement;
pub(crate) mod intersection;
pub(crate) mod lent;
pub(crate) mod starts_with;
pub(crate) mod str;
pub(crate) mod subsequence;
pub(crate) mod union;
