//! What filters answer at single states, in the record's notation.
use crate::notation::read_bytes;
use crate::recorded::{FourDeep, Recorded};
use crate::word::read_words;
use anyhow::{Context, ensure};
use automaton::{Automaton, run};
use std::alloc::{AllocError, Global};

/// The marks of a state: `m` where it matches, `c` where it can, `a` where it always will, or `-`.
fn write_marks<A: Automaton>(
    text: &mut String,
    filter: &A,
    state: A::State,
) -> Result<(), AllocError> {
    let answers = [
        ('m', filter.is_match(state)),
        ('c', filter.can_match(state)),
        ('a', filter.will_always_match(state)),
    ];
    if answers.iter().all(|(_, yes)| !yes) {
        return text.push('-');
    }
    for (mark, yes) in answers {
        if yes {
            text.push(mark)?;
        }
    }
    Ok(())
}

/// The marks that a filter gives to the states that the keys lead to.
pub(crate) fn marks(heap: Global, keys: &str, filter: &str) -> anyhow::Result<String> {
    let words = read_words(heap, filter)?;
    let (filter, rest) = FourDeep::said(words.as_slice()).context("no filter")?;
    ensure!(rest.is_empty(), "words after the filter");
    let mut text = String::new(heap);
    for key in keys.split(',') {
        if !text.is_empty() {
            text.push(',')?;
        }
        let key = read_bytes(heap, key)?;
        write_marks(&mut text, &filter, run(&filter, key.as_slice()))?;
    }
    Ok(text)
}
