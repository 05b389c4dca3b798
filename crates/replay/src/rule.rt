//! The answers that a record leads to expect: its own, but for one known fault of the original.
//!
//! The original does not ask for the end state of the empty key. Where the end state changes the verdict, the key is to
//! be listed although the original did not list it, or the other way round; all other answers stay as they are.
use crate::case::Answers;
use crate::recorded::Recorded;
use crate::run::Run;
use automaton::verdict_at;
use graph::Graph;
use std::alloc::AllocError;
use std::fmt::Write;

/// The rows as an opening left them, once the empty key waits no more.
fn write_waiting_no_more(text: &mut String, opening: &str) -> Result<(), AllocError> {
    if let Some(rows) = opening.strip_prefix("open")
        && let Some((before, waiting)) = rows.split_once(" waiting=")
        && let Some((_, after)) = waiting.split_once(' ')
    {
        write!(text, "{before} waiting=- {after}")?;
    }
    Ok(())
}

/// The lines after the empty key's, where that one stands first.
fn without_empty_key(lines: &str) -> &str {
    match lines.split_once('\n') {
        Some((first, rest))
            if first
                .strip_prefix("next ")
                .unwrap_or(first)
                .starts_with("_ ") => rest,
        _ => lines,
    }
}

impl<'r, 'w, G: Graph, F: Recorded<'w>> Run<'r, G, F> {
    /// The verdict on the empty key, where that key is due and its end state changes the verdict.
    fn ruled(&self) -> Option<bool> {
        let start = self.filter.start();
        let verdict = verdict_at(self.filter, start);
        let is_due = self.graph.is_final(self.graph.root()) && self.case.lets_empty_key_in();
        if is_due && verdict != self.filter.is_match(start) {
            Some(verdict)
        } else {
            None
        }
    }

    /// The line of the empty key, which comes first; opening is the line before it.
    fn write_empty_key(&self, text: &mut String, opening: &str) -> Result<(), AllocError> {
        let total = self.graph.final_output(self.graph.root());
        let total = self.graph.first_total().saturating_add(total);
        self.write_word(text)?;
        write!(text, "_ {total} ")?;
        self.filter.show(self.filter.start(), text)?;
        write_waiting_no_more(text, opening)?;
        text.push('\n')
    }

    /// The answers to expect where the rule applies; none where they are the recorded ones.
    pub(crate) fn expected_by_rule(&self) -> Result<Option<Answers>, AllocError> {
        let Some(verdict) = self.ruled() else {
            return Ok(None);
        };
        let recorded = &self.case.answers;
        let (opening, rest) = self.case.opening_and_rest();
        let mut text = String::new(self.heap);
        if self.case.with_rows {
            writeln!(text, "{opening}")?;
        }
        let count = if verdict {
            self.write_empty_key(&mut text, opening)?;
            text.push_str(rest)?;
            recorded.count.saturating_add(1)
        } else {
            text.push_str(without_empty_key(rest))?;
            recorded.count.saturating_sub(1)
        };
        Ok(Some(Answers { text, count }))
    }
}
