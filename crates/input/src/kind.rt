//! What the first character of a line says of the rest.
ghost use Rattle.input.specs.Kinds.{Says};

use crate::refusal::Refusal;

/// The kind of a line.
#[derive(Clone, Copy, Debug, PartialEq, Eq)]
pub enum Kind {
    /// A lower bound, Included.
    Ge,
    /// A lower bound, Excluded.
    Gt,
    /// An upper bound, Included.
    Le,
    /// An upper bound, Excluded.
    Lt,
    /// What the listed names begin with.
    Prefix,
    /// What the listed names hold in order, with gaps.
    Subsequence,
    /// What is added to every total.
    Shift,
    /// A name of the list.
    Name,
}

/// The kind that the first character of a line says; a line whose first character says none is bad.
impl TryFrom<u8> for Kind {
    type Error = Refusal;

    ghost try_from_gives = { Says };

    fn try_from(first: u8) -> Result<Kind, Refusal> {
        match char::from(first) {
            'G' => Ok(Kind::Ge),
            'g' => Ok(Kind::Gt),
            'L' => Ok(Kind::Le),
            'l' => Ok(Kind::Lt),
            'P' => Ok(Kind::Prefix),
            'S' => Ok(Kind::Subsequence),
            'B' => Ok(Kind::Shift),
            '+' => Ok(Kind::Name),
            _ => Err(Refusal::BadLine),
        }
    }
}
