//! The marks that an opened list keeps in its rows: where groups of names that begin alike end.
ghost use Rattle.std.specs.Prelude.{◌≡◌, ℕ, ◌+◌, ◌/◌, ◌%◌, ◌<◌, ◌≤◌, map, length, nat_lt, slice_index, Some};
ghost use Rattle.names.specs.Names.{names_of};
ghost use Rattle.names.specs.Rising.{Rising};
ghost use Rattle.prefixes.specs.Ends.{end_from, end_behind, ends_behind};
ghost use Rattle.prefixes.specs.Shared.{common, shared_in};
ghost use Rattle.list.specs.Marks.{shared_by, jump_by, unmarked, span, Jumps, JumpsFrom, NoJumps};

use names::Name;

/// How many groups a long jump passes.
pub(crate) const SPAN: usize = 16;

/// A row of an opened list, read: the name's own length, how many first bytes it shares with the name before, and the jump
/// that the list keeps with it.
// All three are in the row's length, of which a name needs eight bits: a search asks for them at every look.
#[derive(Clone, Copy)]
pub(crate) struct Marked {
    pub(crate) place: usize,
    pub(crate) length: usize,
    pub(crate) shared: usize,
    jump: usize,
}

impl From<Name> for Marked {
    ghost from_gives = { λ row marked. (marked.place ≡ row.place) × (marked.length ≡ row.length % 256) × (marked.shared ≡ shared_by row) × (marked.jump ≡ jump_by row) };

    #[inline(always)]
    fn from(row: Name) -> Marked {
        Marked {
            place: row.place as usize,
            length: (row.length % 256) as usize,
            shared: (row.length / 256 % 256) as usize,
            jump: (row.length / 65536) as usize,
        }
    }
}

/// The row without its marks.
#[inline(always)]
pub(crate) fn unmarked(row: Name) -> Name
    ensures { result ≡ unmarked row }
{
    Name {
        length: row.length % 256,
        ..row
    }
}

/// How many first bytes the name of a row shares with the one before.
#[inline(always)]
pub(crate) fn shared(rows: &[Name], k: usize) -> usize
    requires { k < length rows.now }
    ensures { result ≡ slice_index (map shared_by rows.now) k }
{
    Marked::from(rows[k]).shared
}

/// Whether the name behind a name shares more bytes with it than it does with the one before.
#[inline(always)]
fn goes_deeper(rows: &[Name], k: usize) -> bool
    requires { k < length rows.now }
    ensures { result ≡ nat_lt (slice_index (map shared_by rows.now) k) (slice_index (map shared_by rows.now) (k + 1)) }
{
    // at the last name, behind which nothing is shared, there is nothing to look at
    k + 1 < rows.len() && shared(rows, k) < shared(rows, k + 1)
}

/// The first number behind name `k` whose name shares no more bytes than it, or the number of names.
#[inline(always)]
#[tactic(auto, using(crate::proofs::Jumping::reading))]
pub(crate) fn end_behind(rows: &[Name], k: usize) -> usize
    requires there { k < length rows.now }
    requires marked { JumpsFrom rows.now k }
    ensures { result ≡ end_behind (map shared_by rows.now) k }
{
    // most groups have one name
    if goes_deeper(rows, k) {
        k + 1 + Marked::from(rows[k]).jump
    } else {
        k + 1
    }
}

/// The number that is so many ends behind name `k` as a long jump passes, where that is marked.
#[inline(always)]
#[tactic(auto, using(crate::proofs::Jumping::reading))]
pub(crate) fn far_behind(rows: &[Name], k: usize) -> Option<usize>
    requires there { k < length rows.now }
    requires marked { JumpsFrom rows.now 0 }
    ensures { (e : ℕ) → result ≡ Some e → e ≡ ends_behind (map shared_by rows.now) span k }
{
    let before = k.checked_sub(1)?;
    let jump = Marked::from(rows[before]).jump;
    (jump > 0 && !goes_deeper(rows, before)).then_some(k + jump)
}

/// The first number from `from` on whose name shares at most `len` bytes with the one before, or the number of names.
#[tactic(auto, using(crate::proofs::Jumping::reading))]
fn end_from(rows: &[Name], from: usize, len: usize) -> usize
    requires there { from ≤ length rows.now }
    requires marked { JumpsFrom rows.now from }
    ensures { result ≡ end_from (map shared_by rows.now) len from }
{
    let mut at = from;
    while at < rows.len() && shared(rows, at) > len {
        at = end_behind(rows, at);
    }
    at
}

/// How many ends the way to the end of a group follows: most groups are passed by fewer.
const NEAR: usize = 64;

/// A number on the way to where `end_from` leads: that end itself, where it is near.
#[inline(always)]
#[tactic(auto, using(crate::proofs::Jumping::reading))]
pub(crate) fn towards_end(rows: &[Name], from: usize, len: usize) -> usize
    requires there { from ≤ length rows.now }
    requires marked { JumpsFrom rows.now from }
    ensures there { (from ≤ result) × (result ≤ length rows.now) }
    ensures same_end { end_from (map shared_by rows.now) len result ≡ end_from (map shared_by rows.now) len from }
{
    let mut at = from;
    for _ in 0..NEAR {
        if at >= rows.len() || shared(rows, at) <= len {
            break;
        }
        at = end_behind(rows, at);
    }
    at
}

/// The number that a long jump from name `from` leads to, or `from` where fewer names follow that share as much.
#[tactic(auto, using(crate::proofs::Jumping::reading))]
fn far_from(rows: &[Name], from: usize) -> usize
    requires there { from < length rows.now }
    requires marked { JumpsFrom rows.now from }
    ensures within { (from ≤ result) × (result ≤ length rows.now) }
    ensures far { from < result → result ≡ ends_behind (map shared_by rows.now) span from }
{
    let mut at = from;
    for _ in 0..SPAN {
        at = end_behind(rows, at);
        if at >= rows.len() || shared(rows, at) < shared(rows, from) {
            return from;
        }
    }
    at
}

/// How many names the jump of row `k` passes, where the rows behind have theirs.
#[tactic(auto, using(crate::proofs::Jumping::end_sought, crate::proofs::Jumping::end_reaches_on))]
fn jump_of(rows: &[Name], k: usize) -> usize
    requires there { k + 1 < length rows.now }
    requires marked { JumpsFrom rows.now (k + 1) }
    ensures within { k + 1 + result ≤ length rows.now }
    ensures jumps { Jumps (map shared_by rows.now) k result }
{
    let end = if goes_deeper(rows, k) {
        end_from(rows, k + 1, shared(rows, k))
    } else {
        far_from(rows, k + 1)
    };
    end - (k + 1)
}

/// Gives each row its jump, from the last to the first.
#[tactic(auto, using(crate::proofs::Jumping::writing))]
pub(crate) fn mark_jumps(rows: &mut [Name])
    requires few { length rows.old ≤ 65536 }
    requires no_jumps { NoJumps rows.old }
    ensures rows { map unmarked rows.new ≡ map unmarked rows.old }
    ensures shared { map shared_by rows.new ≡ map shared_by rows.old }
    ensures jumps { JumpsFrom rows.new 0 }
{
    // behind the last name there is nothing to jump to
    for k in (0..rows.len().saturating_sub(1)).rev() {
        rows[k].length += 65536 * jump_of(rows, k) as u32;
    }
}

/// How many first bytes two strings have in common.
fn common(a: &[u8], b: &[u8]) -> usize
    ensures { result ≡ common a.now b.now }
{
    a.iter().zip(b).take_while(|(x, y)| x == y).count()
}

/// Marks each row with how many first bytes its name shares with the one before.
#[tactic(auto, using(crate::proofs::Marking::marking))]
pub(crate) fn mark_shared(text: &[u8], rows: &mut [Name])
    requires { Rising text.now rows.old }
    ensures rows { map unmarked rows.new ≡ rows.old }
    ensures shared { map shared_by rows.new ≡ shared_in (names_of text.now rows.old) }
    ensures no_jumps { NoJumps rows.new }
{
    let mut before: &[u8] = b"";
    for row in rows.iter_mut() {
        let name = row.bytes(text).unwrap_or(b"");
        row.length += 256 * common(before, name) as u32;
        before = name;
    }
}

/// Takes the marks away again.
#[tactic(auto, using(crate::proofs::Marking::unmark_more))]
pub(crate) fn unmark(rows: &mut [Name])
    ensures { rows.new ≡ map unmarked rows.old }
{
    for row in rows.iter_mut() {
        row.length %= 256;
    }
}
