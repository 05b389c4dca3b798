//! The refusals of a file, in their order.
ghost use Rattle.std.specs.Prelude.{◌≡◌, true, ◌+◌, ◌*◌, ◌<◌, ◌≤◌, ◌↔◌, length, is_ok, Some, IfOk, MatchResult};
ghost use Rattle.std.specs.Result.{result_err};
ghost use Rattle.catalogue.specs.Format.{file_of, body_start};
ghost use Rattle.catalogue.specs.Bodies.{stored_transition, BodyOf};
ghost use Rattle.catalogue.specs.Checked.{HeadChecked, EntryChecked, NodeChecked, refusal_behind};
ghost use Rattle.catalogue.specs.Refusals.{first, malformed, transition_refusal, entry_refusal, node_refusal, head_refusal, refusal_of};
ghost use Rattle.catalogue.specs.WellFormed.{WellFormed, Refused};

use super::entry::{ENTRY, Entry, HEAD, TRANSITION, file_nodes, read_transition};
use super::refusal::Refusal;
use graph::Transition;

/// The number of nodes, where the contents are whole.
fn check_head(bytes: &[u8]) -> Result<u32, Refusal>
    ensures { MatchResult result (HeadChecked (file_of bytes.now)) (λ e. head_refusal (file_of bytes.now) ≡ Some e) }
{
    if bytes.len() < HEAD {
        return Err(Refusal::FileTooShort);
    }
    let nodes = file_nodes(bytes);
    if nodes == 0 || nodes > 65535 {
        return Err(Refusal::NodesOutOfRange);
    }
    if bytes.len() < HEAD + ENTRY * nodes as usize {
        return Err(Refusal::ContentsCutOff);
    }
    Ok(nodes)
}

impl<'a> Entry<'a> {
    fn is_malformed(&self) -> bool
        ensures { result ≡ malformed (file_of self.now.bytes.now) self.now.node }
    {
        self.len() > 256
            || self.flag() > 1
            || self.padding() != 0
            || self.flag() == 0 && self.final_output() > 0
    }

    /// The body, where it begins at `start` and ends in the file.
    fn check_entry(&self, start: usize) -> Result<&'a [[u8; TRANSITION]], Refusal>
        requires start_value { start ≡ body_start (file_of self.now.bytes.now) self.now.node }
        requires start_in_bounds { start ≤ length self.now.bytes.now }
        ensures { let bs = self.now.bytes.now in MatchResult result (λ b. EntryChecked bs self.now.node b.now) (λ e. entry_refusal (file_of bs) self.now.node ≡ Some e) }
    {
        if self.place() != start {
            return Err(Refusal::BodyMisplaced(self.node));
        }
        if self.is_malformed() {
            return Err(Refusal::EntryMalformed(self.node));
        }
        if TRANSITION * self.len() > self.bytes.len() - start {
            return Err(Refusal::BodyPastEnd(self.node));
        }
        Ok(self.body())
    }

    /// The byte of a transition, or why the transition can't stand behind the byte before, if there is one.
    fn check_transition(&self, before: Option<u8>, stored: &[u8; TRANSITION]) -> Result<u8, Refusal>
        ensures answer { result_err result ≡ refusal_behind self.now.node before (stored_transition stored.now) }
        ensures byte { IfOk result (λ b. b ≡ (stored_transition stored.now).byte) }
    {
        let Transition { byte, target, .. } = read_transition(stored);
        if before.is_some_and(|before| byte <= before) {
            return Err(Refusal::ByteNotAbove(self.node));
        }
        if target >= self.node {
            return Err(Refusal::TargetNotBelow(self.node));
        }
        Ok(byte)
    }

    fn check_body(&self, body: &[[u8; TRANSITION]]) -> Result<(), Refusal>
        requires { BodyOf self.now.bytes.now self.now.node body.now }
        ensures { result_err result ≡ first (transition_refusal (file_of self.now.bytes.now) self.now.node) (length body.now) }
    {
        let mut before = None;
        for stored in body {
            before = Some(self.check_transition(before, stored)?);
        }
        Ok(())
    }

    /// Where the following body has to begin.
    fn check(&self, start: usize) -> Result<usize, Refusal>
        requires start_value { start ≡ body_start (file_of self.now.bytes.now) self.now.node }
        requires start_in_bounds { start ≤ length self.now.bytes.now }
        ensures { let file = file_of self.now.bytes.now in MatchResult result (NodeChecked file self.now.node) (λ e. node_refusal file self.now.node ≡ Some e) }
    {
        let body = self.check_entry(start)?;
        self.check_body(body)?;
        Ok(start + TRANSITION * body.len())
    }
}

fn check_nodes(bytes: &[u8], nodes: u32) -> Result<(), Refusal>
    requires nodes_value { nodes ≡ (file_of bytes.now).nodes }
    requires nodes_in_bounds { 4 + 16 * nodes ≤ length bytes.now }
    ensures { result_err result ≡ first (node_refusal (file_of bytes.now)) nodes }
{
    let mut start = HEAD + ENTRY * nodes as usize;
    // a loop: each body has to begin where the one before it ended, which its invariant carries
    for node in 0..nodes {
        start = Entry { bytes, node }.check(start)?;
    }
    Ok(())
}

/// The first refusal of a file as an error.
// Apart from what `check` says in words, so that a part left out is refused here and not in a proof.
fn check_file(bytes: &[u8]) -> Result<(), Refusal>
    ensures { result_err result ≡ refusal_of (file_of bytes.now) }
{
    let nodes = check_head(bytes)?;
    check_nodes(bytes, nodes)
}

/// The first refusal of a file as an error, without taking the bytes.
pub fn check(bytes: &[u8]) -> Result<(), Refusal>
    ensures answer { result_err result ≡ refusal_of (file_of bytes.now) }
    ensures accepted { (is_ok result ≡ true) ↔ WellFormed (file_of bytes.now) }
    ensures refused { (e : Refusal) → (result_err result ≡ Some e) ↔ Refused (file_of bytes.now) e }
{
    check_file(bytes)
}
