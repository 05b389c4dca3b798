//! Why a file is refused.
ghost use Rattle.std.specs.Prelude.{◌≡◌};
ghost use Rattle.catalogue.specs.Numbers.{numbered};

/// The refusals in the order in which they are tried. From the fourth on, they carry the node.
#[derive(Clone, Copy, Debug, PartialEq, Eq)]
pub enum Refusal {
    /// The file has fewer than 4 bytes.
    FileTooShort,
    /// The number of nodes is 0 or above 65,535.
    NodesOutOfRange,
    /// The file ends inside the contents.
    ContentsCutOff,
    /// The place is not where the body has to begin.
    BodyMisplaced(u32),
    /// Too many transitions, a flag above 1, a padding byte other than 0, or a final output of a node that is not final.
    EntryMalformed(u32),
    /// The body passes the file's end.
    BodyPastEnd(u32),
    /// A byte is not above the one before.
    ByteNotAbove(u32),
    /// A target is not below the node's number.
    TargetNotBelow(u32),
}

impl Refusal {
    /// The refusal's number.
    pub fn number(self) -> u8
        ensures answer { result ≡ (numbered self).number }
    {
        // no cast: most of the cases carry a node
        match self {
            Refusal::FileTooShort => 1,
            Refusal::NodesOutOfRange => 2,
            Refusal::ContentsCutOff => 3,
            Refusal::BodyMisplaced(_) => 4,
            Refusal::EntryMalformed(_) => 5,
            Refusal::BodyPastEnd(_) => 6,
            Refusal::ByteNotAbove(_) => 7,
            Refusal::TargetNotBelow(_) => 8,
        }
    }

    /// The node that the refusal carries: 0 for the first three, as the format has it.
    pub fn node(self) -> u32
        ensures answer { result ≡ (numbered self).node }
    {
        match self {
            Refusal::FileTooShort | Refusal::NodesOutOfRange | Refusal::ContentsCutOff => 0,
            Refusal::BodyMisplaced(node)
            | Refusal::EntryMalformed(node)
            | Refusal::BodyPastEnd(node)
            | Refusal::ByteNotAbove(node)
            | Refusal::TargetNotBelow(node) => node,
        }
    }
}
