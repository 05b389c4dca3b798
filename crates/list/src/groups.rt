//! The groups of names at a node: those that go on from its prefix by the same byte. Each has a transition.
ghost use Rattle.std.specs.Prelude.{◌≡◌, ℕ, ◌+◌, ◌/◌, ◌%◌, ◌<◌, ◌≤◌, ◌==◌, true, length, Some, IfSome, if◌then◌else◌, nat_lt, slice_index};
ghost use Rattle.prefixes.specs.Ends.{end_from, sharing};
ghost use Rattle.prefixes.specs.Prefixes.{name_at, prefix_of, is_node};
ghost use Rattle.prefixes.specs.Shared.{shared_in, group_at};
ghost use Rattle.prefixes.specs.Walks.{byte_at, transition_at};
ghost use Rattle.list.specs.Marks.{span};
ghost use Rattle.list.specs.Opened.{names_in};
ghost use Rattle.list.specs.Groups.{Stands, placed, Towards, LastNotAbove};

use crate::list::List;
use crate::marks::{Marked, SPAN, end_behind, far_behind, shared, towards_end, unmarked};
use crate::prefix::Prefix;
use byte_strings::starts_with;
use graph::Transition;

/// A group of a node: its position among them, and its lowest name.
#[derive(Clone, Copy)]
pub(crate) struct Group {
    pub(crate) position: usize,
    pub(crate) lowest: usize,
}

impl Group {
    /// The position behind its own.
    pub(crate) fn following(self) -> usize
        requires { self.position < 256 }
        ensures { result ≡ self.position + 1 }
    {
        self.position + 1
    }
}

impl List {
    /// The length of a name.
    #[tactic(auto, using(crate::proofs::Rows::length_of_row))]
    #[inline(always)]
    fn length(&self, i: usize) -> usize
        requires { i < length (names_in self.now) }
        ensures { result ≡ length (name_at (names_in self.now) i) }
    {
        Marked::from(self.rows()[i]).length
    }

    /// A byte of a name.
    #[tactic(auto, using(crate::proofs::Rows::byte_inside, crate::proofs::Rows::byte_of_row))]
    #[inline(always)]
    fn byte(&self, i: usize, at: usize) -> u8
        requires there { i < length (names_in self.now) }
        requires within { at < length (name_at (names_in self.now) i) }
        ensures { result ≡ byte_at (names_in self.now) i at }
    {
        self.text()[Marked::from(self.rows()[i]).place + at]
    }

    /// Whether no lower name begins with the first `len` bytes of a name. Names that begin alike stand together, so how many
    /// bytes it shares with the one before tells.
    #[inline(always)]
    fn is_lowest(&self, name: usize, len: usize) -> bool
        requires { name < length (names_in self.now) }
        ensures { result ≡ (if name == 0 then true else nat_lt (slice_index (shared_in (names_in self.now)) name) len) }
    {
        name == 0 || shared(self.rows(), name) < len
    }

    /// Whether a number is a node: a name has that prefix, and no lower one.
    #[inline(always)]
    pub(crate) fn is_node(&self, node: u32) -> bool
        ensures { result ≡ is_node (names_in self.now) node }
    {
        let Prefix { name, len } = node.into();
        if name >= self.count() {
            return false;
        }
        if self.length(name) < len {
            return false;
        }
        self.is_lowest(name, len)
    }

    /// Whether the prefix of a node is the whole name.
    #[inline(always)]
    pub(crate) fn is_whole(&self, node: u32) -> bool
        requires { node / 256 < length (names_in self.now) }
        ensures { result ≡ (node % 256 == length (name_at (names_in self.now) (node / 256))) }
    {
        let Prefix { name, len } = node.into();
        len == self.length(name)
    }

    /// The number of a name, where it shares just so many bytes with the one before.
    #[inline(always)]
    fn sharing(&self, i: usize, len: usize) -> Option<usize>
        ensures { result ≡ sharing (shared_in (names_in self.now)) len i }
    {
        (i < self.count() && shared(self.rows(), i) == len).then_some(i)
    }

    /// Where the group of name `lowest` ends: the names that go on from its first `len` bytes by the same byte.
    #[inline(always)]
    fn group_end(&self, lowest: usize, len: usize) -> usize
        requires there { lowest < length (names_in self.now) }
        requires longer { len < length (name_at (names_in self.now) lowest) }
        ensures { result ≡ end_from (shared_in (names_in self.now)) len (lowest + 1) }
    {
        // of every group of a node but its first, the end is marked
        if shared(self.rows(), lowest) == len {
            end_behind(self.rows(), lowest)
        } else {
            self.first_group_end(lowest, len)
        }
    }

    /// Where that group ends, by the ends of the groups within it, or by halving where these are many.
    #[inline(always)]
    fn first_group_end(&self, lowest: usize, len: usize) -> usize
        requires there { lowest < length (names_in self.now) }
        requires longer { len < length (name_at (names_in self.now) lowest) }
        ensures { result ≡ end_from (shared_in (names_in self.now)) len (lowest + 1) }
    {
        let rows = self.rows();
        let at = towards_end(rows, lowest + 1, len);
        if at >= rows.len() || shared(rows, at) <= len {
            return at;
        }
        self.halved_end(lowest, len, at)
    }

    /// Where that group ends, by halving from name `at` on, which is in it. Names that begin alike stand together.
    fn halved_end(&self, lowest: usize, len: usize, at: usize) -> usize
        requires longer { len < length (name_at (names_in self.now) lowest) }
        requires order { lowest < at }
        requires there { at < length (names_in self.now) }
        requires within { len < slice_index (shared_in (names_in self.now)) at }
        requires same_end { end_from (shared_in (names_in self.now)) len at ≡ end_from (shared_in (names_in self.now)) len (lowest + 1) }
        ensures { result ≡ end_from (shared_in (names_in self.now)) len (lowest + 1) }
    {
        let front = &self.name_or_empty(lowest)[..=len];
        at + self.rows()[at..].partition_point(|row| {
            unmarked(*row)
                .bytes(self.text())
                .is_some_and(|name| starts_with(front, name))
        })
    }

    /// The first group of a node. A name that is the prefix itself goes on by no byte.
    #[inline(always)]
    fn first_group(&self, node: u32) -> Option<Group>
        requires { is_node (names_in self.now) node ≡ true }
        ensures { result ≡ placed 0 (group_at (names_in self.now) node 0) }
    {
        let Prefix { name, len } = node.into();
        let lowest = if self.is_whole(node) {
            self.sharing(name + 1, len)?
        } else {
            name
        };
        Some(Group {
            position: 0,
            lowest,
        })
    }

    /// The group behind a group of a node.
    #[inline(always)]
    fn next_group(&self, node: u32, group: Group) -> Option<Group>
        requires node { is_node (names_in self.now) node ≡ true }
        requires stands { Stands (names_in self.now) node group }
        ensures { result ≡ placed (group.position + 1) (group_at (names_in self.now) node (group.position + 1)) }
    {
        let len = Prefix::from(node).len;
        let lowest = self.sharing(self.group_end(group.lowest, len), len)?;
        let position = group.position + 1;
        Some(Group { position, lowest })
    }

    /// The group so many behind a group of a node as a long jump passes, where that is marked.
    fn far_group(&self, node: u32, group: Group) -> Option<Group>
        requires node { is_node (names_in self.now) node ≡ true }
        requires stands { Stands (names_in self.now) node group }
        ensures { IfSome result (λ far. Stands (names_in self.now) node far × (far.position ≡ group.position + span)) }
    {
        let len = Prefix::from(node).len;
        // the first group of a node may have the marks of another
        let from = self.sharing(group.lowest, len)?;
        let lowest = self.sharing(far_behind(self.rows(), from)?, len)?;
        let position = group.position + SPAN;
        Some(Group { position, lowest })
    }

    /// A group behind a group of a node, on the way to a position.
    #[tactic(auto, using(crate::proofs::Placed::towards))]
    #[inline(always)]
    fn group_towards(&self, node: u32, group: Group, position: usize) -> Option<Group>
        requires node { is_node (names_in self.now) node ≡ true }
        requires stands { Stands (names_in self.now) node group }
        requires before { group.position < position }
        ensures { Towards (names_in self.now) node group.position position result }
    {
        let ahead = position - group.position;
        if ahead > 1
            && let Some(far) = self.far_group(node, group)
        {
            if ahead >= SPAN {
                return Some(far);
            }
            // as many names as groups, so each has one
            if far.lowest == group.lowest + SPAN {
                let lowest = group.lowest + ahead;
                return Some(Group { position, lowest });
            }
        }
        self.next_group(node, group)
    }

    /// The group at a position of a node, or none beyond the last.
    #[inline(always)]
    pub(crate) fn group(&self, node: u32, position: usize) -> Option<Group>
        requires { is_node (names_in self.now) node ≡ true }
        ensures { result ≡ placed position (group_at (names_in self.now) node position) }
    {
        let mut group = self.first_group(node)?;
        while group.position < position {
            group = self.group_towards(node, group, position)?;
        }
        Some(group)
    }

    /// The byte by which a group of a node goes on.
    #[tactic(auto, using(crate::proofs::Placed::group_within, crate::proofs::Placed::group_longer))]
    #[inline(always)]
    pub(crate) fn byte_of(&self, node: u32, group: Group) -> u8
        requires node { is_node (names_in self.now) node ≡ true }
        requires stands { Stands (names_in self.now) node group }
        ensures { result ≡ byte_at (names_in self.now) group.lowest (node % 256) }
    {
        self.byte(group.lowest, Prefix::from(node).len)
    }

    /// The group to which long jumps lead from a group of a node, as long as the byte there is not above a byte.
    #[tactic(auto, using(crate::proofs::Placed::group_few))]
    fn far_not_above(&self, node: u32, from: Group, byte: u8) -> Group
        requires node { is_node (names_in self.now) node ≡ true }
        requires stands { Stands (names_in self.now) node from }
        requires below { byte_at (names_in self.now) from.lowest (node % 256) ≤ byte }
        ensures stands { Stands (names_in self.now) node result }
        ensures below { byte_at (names_in self.now) result.lowest (node % 256) ≤ byte }
        ensures on { from.position ≤ result.position }
    {
        let mut group = from;
        loop {
            match self.far_group(node, group) {
                Some(far) if self.byte_of(node, far) <= byte => group = far,
                _ => break group,
            }
        }
    }

    /// The last group of a node whose byte is not above a byte.
    #[tactic(auto, using(crate::proofs::Placed::group_few))]
    pub(crate) fn last_not_above(&self, node: u32, byte: u8) -> Option<Group>
        requires { is_node (names_in self.now) node ≡ true }
        ensures { LastNotAbove (names_in self.now) node byte result }
    {
        let mut group = self.first_group(node)?;
        if self.byte_of(node, group) > byte {
            return None;
        }
        // the bytes rise, so no group needs to be passed where the byte itself is met
        while self.byte_of(node, group) < byte {
            let Some(next) = self.next_group(node, group) else {
                break;
            };
            if self.byte_of(node, next) > byte {
                break;
            }
            // the first groups of a node may have no long jump; behind them, where one jump led too far, all do
            group = if next.position <= 2 {
                self.far_not_above(node, next, byte)
            } else {
                next
            };
        }
        Some(group)
    }

    /// The transition of a group.
    #[inline(always)]
    pub(crate) fn transition_of(&self, node: u32, group: Group) -> Transition
        requires node { is_node (names_in self.now) node ≡ true }
        requires stands { Stands (names_in self.now) node group }
        ensures { result ≡ transition_at (names_in self.now) (prefix_of (names_in self.now) node) group.lowest }
    {
        let len = Prefix::from(node).len;
        let name = group.lowest;
        Transition {
            byte: self.byte(name, len),
            output: 0,
            target: Prefix { name, len }.longer().into(),
        }
    }
}
