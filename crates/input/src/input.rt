//! What is asked for, line by line.
ghost use Rattle.std.specs.Prelude.{◌≤◌, length};
ghost use Rattle.names.specs.Names.{AllInside};
ghost use Rattle.input.specs.Inside.{AllInside-prop};

use crate::kind::Kind;
use crate::number::read_number;
use crate::refusal::{ReadError, Refusal};
use bound::Bound;
use names::Name;
use std::alloc::Global;

/// What the lines of an input ask for; the names are rows of its text.
#[derive(Drop)]
pub struct Input<'a> {
    pub text: &'a [u8],
    pub lower: Bound<'a>,
    pub upper: Bound<'a>,
    pub prefix: &'a [u8],
    pub subsequence: &'a [u8],
    pub shift: u64,
    pub names: Vec<Name>,
    pub ghost small: { length text.now ≤ 65535 },
    pub ghost inside: { AllInside text.now names.items } by { AllInside-prop text.now names.items },
}

impl<'a> Input<'a> {
    ghost use Rattle.std.specs.Prelude.{◌≡◌};
    ghost use Rattle.input.specs.Asked.{nothing_asked, act_line};
    ghost use Rattle.input.specs.Reading.{asked_of};
    ghost use Rattle.input.specs.Steps.{StandsAt, Acts};

    /// What no line asks for.
    pub(crate) fn new(heap: Global, text: &'a [u8]) -> Input<'a>
        requires { length text.now ≤ 65535 }
        ensures asked { asked_of result ≡ nothing_asked }
        ensures text { result.text.now ≡ text.now }
    {
        Input {
            text,
            lower: Bound::Unbounded,
            upper: Bound::Unbounded,
            prefix: b"",
            subsequence: b"",
            shift: 0,
            names: Vec::new(heap),
        }
    }

    /// Does what a line asks for that stands at that place of the text.
    pub(crate) fn act_line(&mut self, place: usize, line: &'a [u8]) -> Result<(), ReadError>
        requires { StandsAt self.old.text.now place line.now }
        ensures { Acts self.old.text.now (act_line (asked_of self.old) line.now) result self.new }
    {
        let (first, rest) = line.split_first().ok_or(Refusal::BadLine)?;
        match Kind::try_from(*first)? {
            Kind::Ge => self.lower = Bound::Included(rest),
            Kind::Gt => self.lower = Bound::Excluded(rest),
            Kind::Le => self.upper = Bound::Included(rest),
            Kind::Lt => self.upper = Bound::Excluded(rest),
            Kind::Prefix => self.prefix = rest,
            Kind::Subsequence => self.subsequence = rest,
            Kind::Shift => self.shift = read_number(rest).ok_or(Refusal::BadLine)?,
            Kind::Name => self.names.push(Name {
                place: place as u32 + 1,
                length: rest.len() as u32,
            })?,
        }
        Ok(())
    }
}
