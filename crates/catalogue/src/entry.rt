//! The entry of a node in the contents of the file, and the body that it leads to.
ghost use Rattle.std.specs.Prelude.{◌≡◌, ◌+◌, ◌*◌, ◌≤◌, length};
ghost use Rattle.catalogue.specs.Format.{file_of};
ghost use Rattle.catalogue.specs.Bodies.{stored_transition, BodyOf};

use super::read::bytes_at;
use graph::Transition;

/// The bytes of the number of nodes, with which the file begins.
pub(crate) const HEAD: usize = 4;

/// The bytes of an entry.
pub(crate) const ENTRY: usize = 16;

/// The bytes of a transition.
pub(crate) const TRANSITION: usize = 13;

/// The number of nodes that the file states.
pub(crate) fn file_nodes(bytes: &[u8]) -> u32
    requires { 4 ≤ length bytes.now }
    ensures { result ≡ (file_of bytes.now).nodes }
{
    u32::from_le_bytes(bytes_at(bytes, 0))
}

/// A transition by the bytes that the file holds of it.
pub(crate) fn read_transition(stored: &[u8; TRANSITION]) -> Transition
    ensures { result ≡ stored_transition stored.now }
{
    Transition {
        byte: stored[0],
        output: u64::from_le_bytes(bytes_at(stored, 5)),
        target: u32::from_le_bytes(bytes_at(stored, 1)),
    }
}

/// The entry of a node, whole in the file.
#[derive(Clone, Copy)]
pub(crate) struct Entry<'a> {
    pub(crate) bytes: &'a [u8],
    pub(crate) node: u32,
    ghost within: { 20 + 16 * node ≤ length bytes.now },
}

impl<'a> Entry<'a> {
    /// Where the entry begins.
    fn start(&self) -> usize
        ensures { result ≡ 4 + 16 * self.now.node }
    {
        HEAD + ENTRY * self.node as usize
    }

    /// Where the body begins.
    pub(crate) fn place(&self) -> usize
        ensures { result ≡ (file_of self.now.bytes.now).place self.now.node }
    {
        u32::from_le_bytes(bytes_at(self.bytes, self.start())) as usize
    }

    /// The number of transitions.
    pub(crate) fn len(&self) -> usize
        ensures { result ≡ (file_of self.now.bytes.now).len self.now.node }
    {
        u16::from_le_bytes(bytes_at(self.bytes, self.start() + 4)) as usize
    }

    pub(crate) fn flag(&self) -> u8
        ensures { result ≡ (file_of self.now.bytes.now).flag self.now.node }
    {
        self.bytes[self.start() + 6]
    }

    pub(crate) fn padding(&self) -> u8
        ensures { result ≡ (file_of self.now.bytes.now).padding self.now.node }
    {
        self.bytes[self.start() + 7]
    }

    pub(crate) fn final_output(&self) -> u64
        ensures { result ≡ (file_of self.now.bytes.now).final_output self.now.node }
    {
        u64::from_le_bytes(bytes_at(self.bytes, self.start() + 8))
    }

    /// The body, which lies within the file.
    #[inline(always)]
    pub(crate) fn body(&self) -> &'a [[u8; TRANSITION]]
        requires { let file = file_of self.now.bytes.now in file.place self.now.node + 13 * file.len self.now.node ≤ file.size }
        ensures { BodyOf self.now.bytes.now self.now.node result.now }
    {
        let start = self.place();
        let (body, _) = self.bytes[start..start + TRANSITION * self.len()].as_chunks();
        body
    }
}
