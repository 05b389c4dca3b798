//! Reading an input line by line.
ghost use Rattle.std.specs.Prelude.{◌≡◌, ◌≤◌, length, Some};
ghost use Rattle.input.specs.Lines.{lines};
ghost use Rattle.input.specs.Asked.{nothing_asked, act_lines};
ghost use Rattle.input.specs.Reading.{Reads};
ghost use Rattle.input.specs.Steps.{ends_line, without_feed, ReadsLines};

use crate::input::Input;
use crate::refusal::{ReadError, Refusal};
use std::alloc::Global;

/// Whether a byte ends its line.
fn ends_line(byte: &u8) -> bool
    ensures { result ≡ ends_line byte.now }
{
    *byte == b'\n'
}

/// A line without its line feed.
fn without_feed(line: &[u8]) -> &[u8]
    ensures { result.now ≡ without_feed line.now }
{
    match line {
        [rest @ .., b'\n'] => rest,
        _ => line,
    }
}

/// What all lines of a text ask for.
fn read_lines<'a>(heap: Global, text: &'a [u8]) -> Result<Input<'a>, ReadError>
    requires { length text.now ≤ 65535 }
    ensures { ReadsLines text.now (act_lines (Some nothing_asked) (lines text.now)) result }
{
    let mut input = Input::new(heap, text);
    // counted beside the pieces: `split_inclusive` says no place, and a name is a place in the text
    let mut place = 0;
    for line in text.split_inclusive(ends_line) {
        input.act_line(place, without_feed(line))?;
        place += line.len();
    }
    Ok(input)
}

/// What an input asks for, or why it is refused.
// The allocator beside the text, as the library hands it to whatever allocates.
pub fn read<'a>(heap: Global, text: &'a [u8]) -> Result<Input<'a>, ReadError>
    ensures { Reads text.now result }
{
    if text.len() > 65535 {
        return Err(Refusal::InputTooLong.into());
    }
    let input = read_lines(heap, text)?;
    if input.names.len() > 1024 {
        return Err(Refusal::TooManyNames.into());
    }
    Ok(input)
}
