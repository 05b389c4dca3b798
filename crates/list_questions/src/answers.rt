//! Answers, counted, and put into a digest in their order.
use crate::digest::Digest;
use graph::Transition;

#[derive(Clone, Copy, Debug, PartialEq, Eq)]
pub(crate) struct Answers {
    pub(crate) count: u64,
    pub(crate) digest: Digest,
}

impl Answers {
    pub(crate) fn new() -> Answers {
        Answers {
            count: 0,
            digest: Digest::new(),
        }
    }

    pub(crate) fn number(&mut self, answer: u64) {
        self.count = self.count.wrapping_add(1);
        self.digest.put(answer);
    }

    pub(crate) fn transition(&mut self, answer: Option<Transition>) {
        let Some(
            Transition {
                byte,
                output,
                target,
            },
        ) = answer
        else {
            return self.number(0);
        };
        self.number(1);
        self.digest.put(u64::from(byte));
        self.digest.put(output);
        self.digest.put(u64::from(target));
    }

    pub(crate) fn position(&mut self, answer: Option<usize>) {
        let Some(position) = answer else {
            return self.number(0);
        };
        self.number(1);
        self.digest.put(position as u64);
    }

    pub(crate) fn name(&mut self, answer: Option<&[u8]>) {
        let Some(name) = answer else {
            return self.number(0);
        };
        self.number(1);
        self.digest.put(name.len() as u64);
        for byte in name {
            self.digest.put(u64::from(*byte));
        }
    }

    /// All answers of a part, by its digest.
    pub(crate) fn part(&mut self, part: Answers) {
        self.count = self.count.wrapping_add(part.count);
        self.digest.put(part.digest.value);
    }
}
