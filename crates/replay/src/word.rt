//! A recorded filter, word by word.
use crate::any_filter::{OverOne, OverTwo};
use crate::notation::read_bytes;
use anyhow::bail;
use std::alloc::Global;

/// A word of a filter's text: a filter of its own, or what is made of the one or two filters after it.
#[derive(Drop)]
pub(crate) enum Word {
    Str(Vec<u8>),
    Subsequence(Vec<u8>),
    AlwaysMatch,
    One(OverOne),
    Two(OverTwo),
}

fn read_word(heap: Global, text: &str) -> anyhow::Result<Word> {
    Ok(match text {
        "all" => Word::AlwaysMatch,
        "sw" => Word::One(OverOne::StartsWith),
        "or" => Word::Two(OverTwo::Union),
        "and" => Word::Two(OverTwo::Intersection),
        "not" => Word::One(OverOne::Complement),
        "closed" => Word::One(OverOne::Closed),
        _ => match text.split_once(':') {
            Some(("str", bytes)) => Word::Str(read_bytes(heap, bytes)?),
            Some(("sub", bytes)) => Word::Subsequence(read_bytes(heap, bytes)?),
            _ => bail!("no word of a filter: {text}"),
        },
    })
}

/// The words of a filter, each in front of the filters that it is made of.
pub(crate) fn read_words(heap: Global, text: &str) -> anyhow::Result<Vec<Word>> {
    let mut words = Vec::new(heap);
    for word in text.split(' ') {
        words.push(read_word(heap, word)?)?;
    }
    Ok(words)
}
