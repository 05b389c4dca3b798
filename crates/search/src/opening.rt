//! The opening of a search at its lower bound.
ghost use Rattle.std.specs.Prelude.{◌≡◌, ◌<◌, ◌≤◌, ◌∷◌, Bool, length, suc, Ok, IfOk};
ghost use Rattle.graph.specs.Table.{Table};
ghost use Rattle.filter.specs.Filter.{Filter};
ghost use Rattle.byte_strings.specs.Order.{Bytes};
ghost use Rattle.bound.specs.Value.{BoundValue, value_of};
ghost use Rattle.law.specs.Next.{root_row};
ghost use Rattle.law.specs.Open.{place_above, seek, settle, from_root, open_of, is_inclusive};
ghost use Rattle.search.specs.Openings.{opening_of, opened_at, advanced, SeeksByte};

use crate::refusal::Refusal;
use automaton::Automaton;
use bound::Bound;
use graph::{Graph, Transition};
use law::Row;
use stack::Stack;

/// How many positions the first strides towards a place go over: a node has at most 256.
const WIDE: usize = 64;

/// How many times shorter the next strides are: 64, 8 and 1 positions.
const SHORTER: usize = 8;

/// What opening comes to: the rows in use, and the total that waits for the empty key.
#[derive(Debug, Drop)]
pub(crate) struct Opened {
    pub(crate) stack: Stack,
    pub(crate) waiting: Option<u64>,
}

/// A transition with its position.
#[derive(Clone, Copy, Debug, PartialEq, Eq)]
struct Found {
    position: usize,
    transition: Transition,
}

/// The position of the first transition whose byte is greater, or the number of transitions.
#[tactic(auto, using(crate::proofs::Looks::position_small, crate::proofs::Places::stride_passed, crate::proofs::Places::first_above_here, crate::proofs::Places::none_is_above))]
fn first_above<G: Graph>(graph: &G, node: u32, byte: u8) -> usize
    ensures { result ≡ place_above (G.table graph.now) node byte }
{
    // bytes rise, so the last byte of a stride tells for all of it
    let mut position = 0;
    let mut stride = WIDE;
    loop {
        match graph.transition(node, position + stride - 1) {
            Some(transition) if transition.byte <= byte => position += stride,
            _ if stride > 1 => stride /= SHORTER,
            _ => break position,
        }
    }
}

/// The transition with the byte.
#[tactic(auto, using(crate::proofs::Places::byte_absent, crate::proofs::Places::byte_found))]
fn seek_byte<G: Graph>(graph: &G, node: u32, byte: u8) -> Option<Found>
    ensures { SeeksByte (G.table graph.now) node byte result }
{
    let position = graph.find_input(node, byte)?;
    let transition = graph.transition(node, position)?;
    Some(Found {
        position,
        transition,
    })
}

/// The row of the root.
fn root_row<G: Graph, A: Automaton>(graph: &G, filter: &A) -> Row<A::State>
    ensures { result ≡ root_row (G.table graph.now) (A.table filter.now) }
{
    Row {
        node: graph.root(),
        position: 0,
        total: graph.first_total(),
        state: filter.start(),
    }
}

/// One byte of a lower bound: the row beneath, or none where the byte is missing.
fn advance<G: Graph, A: Automaton>(
    graph: &G,
    filter: &A,
    byte: u8,
    row: Row<A::State>,
    stack: &mut Stack,
    rows: &mut [Row<A::State>],
    key_area: &mut [u8],
) -> Result<Option<Row<A::State>>, Refusal>
    requires row_free { stack.old.depth < length rows.old }
    requires byte_free { stack.old.depth < length key_area.old }
    ensures depth { IfOk result (λ _. stack.new.depth ≡ suc stack.old.depth) }
    ensures answer { (keep : Bool) (upper : BoundValue) (w : Bytes) →
        advanced (G.table graph.now) (A.table filter.now) keep upper w stack.new.depth rows.new key_area.new result ≡
        seek (G.table graph.now) (A.table filter.now) keep upper (byte ∷ w) stack.old.depth row rows.old key_area.old }
{
    let Some(found) = seek_byte(graph, row.node, byte) else {
        let position = first_above(graph, row.node, byte);
        stack.push(rows, Row { position, ..row });
        return Ok(None);
    };
    let Transition { output, target, .. } = found.transition;
    let total = row.total.checked_add(output).ok_or(Refusal::SumTooLarge)?;
    key_area[stack.depth] = byte;
    let position = found.position + 1;
    stack.push(rows, Row { position, ..row });
    Ok(Some(Row {
        node: target,
        position: 0,
        total,
        state: filter.accept(row.state, byte),
    }))
}

/// After all bytes were found: an included bound lowers the last position, an excluded one adds the row that was reached.
fn settle<S: Copy>(inclusive: bool, row: Row<S>, stack: &mut Stack, rows: &mut [Row<S>])
    requires some { 0 < stack.old.depth }
    requires row_free { stack.old.depth < length rows.old }
    ensures { (g : Table) (f : Filter S) (upper : BoundValue) (area : Bytes) →
        opened_at upper (Ok stack.new) rows.new area ≡ settle g f inclusive upper stack.old.depth row rows.old area }
{
    if !inclusive {
        stack.push(rows, row);
        return;
    }
    if let Some(last) = stack.top(rows) {
        let position = last.position.saturating_sub(1);
        stack.replace_top(rows, Row { position, ..last });
    }
}

/// The walk along the bytes of a lower bound: the rows then in use.
fn seek<G: Graph, A: Automaton>(
    graph: &G,
    filter: &A,
    inclusive: bool,
    bytes: &[u8],
    rows: &mut [Row<A::State>],
    key_area: &mut [u8],
) -> Result<Opened, Refusal>
    requires some { 0 < length bytes.now }
    requires rows_free { length bytes.now < length rows.old }
    requires bytes_free { length bytes.now ≤ length key_area.old }
    ensures { (upper : BoundValue) →
        let root = root_row (G.table graph.now) (A.table filter.now) in
        opening_of upper result rows.new key_area.new ≡
        seek (G.table graph.now) (A.table filter.now) inclusive upper bytes.now 0 root rows.old key_area.old }
{
    let mut row = root_row(graph, filter);
    let mut stack = Stack::new();
    // no total waits behind a bound that has bytes
    let waiting = None;
    for &byte in bytes {
        match advance(graph, filter, byte, row, &mut stack, rows, key_area)? {
            Some(beneath) => row = beneath,
            None => return Ok(Opened { stack, waiting }),
        }
    }
    settle(inclusive, row, &mut stack, rows);
    Ok(Opened { stack, waiting })
}

/// The opening at the root, for a bound that is absent or empty.
fn open_root<G: Graph, A: Automaton>(
    graph: &G,
    filter: &A,
    inclusive: bool,
    rows: &mut [Row<A::State>],
) -> Result<Opened, Refusal>
    requires { 0 < length rows.old }
    ensures { (upper : BoundValue) (area : Bytes) →
        opening_of upper result rows.new area ≡ from_root (G.table graph.now) (A.table filter.now) inclusive upper rows.old area }
{
    let root = root_row(graph, filter);
    let mut stack = Stack::new();
    stack.push(rows, root);
    let mut waiting = None;
    if inclusive && graph.is_final(root.node) {
        let total = root.total.checked_add(graph.final_output(root.node));
        waiting = Some(total.ok_or(Refusal::SumTooLarge)?);
    }
    Ok(Opened { stack, waiting })
}

/// Whether a lower bound lets its own bytes in.
fn is_inclusive(lower: Bound<'_>) -> bool
    ensures { result ≡ is_inclusive (value_of lower.entry) }
{
    !matches!(lower, Bound::Excluded(_))
}

/// The opening at a lower bound.
#[tactic(auto, using(crate::proofs::Seeks::open_seeks), unfolding(law::specs::Open::open_of))]
pub(crate) fn open_at<G: Graph, A: Automaton>(
    graph: &G,
    filter: &A,
    lower: Bound<'_>,
    rows: &mut [Row<A::State>],
    key_area: &mut [u8],
) -> Result<Opened, Refusal>
    ensures { (upper : BoundValue) →
        opening_of upper result rows.new key_area.new ≡
        open_of (G.table graph.now) (A.table filter.now) (value_of lower.entry) upper rows.old key_area.old }
{
    let bytes = lower.bytes();
    if rows.len() <= bytes.len() {
        return Err(Refusal::StackFull);
    }
    if key_area.len() < bytes.len() {
        return Err(Refusal::KeyAreaFull);
    }
    let inclusive = is_inclusive(lower);
    if bytes.is_empty() {
        return open_root(graph, filter, inclusive, rows);
    }
    seek(graph, filter, inclusive, bytes, rows, key_area)
}
