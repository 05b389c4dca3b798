//! How often each answer and each refusal came.
use crate::digest::Digest;
use crate::drawn::Drawn;
use search::Refusal;
use std::io;

/// How often each refusal came, from 13 on.
#[derive(Clone, Copy, Debug, PartialEq, Eq)]
pub(crate) struct Refusals {
    counts: [u32; 6],
}

impl Refusals {
    fn new() -> Refusals {
        Refusals { counts: [0; 6] }
    }

    fn add(&mut self, refusal: Refusal) {
        let place = usize::from(refusal.number().saturating_sub(13));
        if let Some(count) = self.counts.get_mut(place) {
            *count = count.saturating_add(1);
        }
    }

    fn total(&self) -> u32 {
        self.counts
            .iter()
            .fold(0, |sum: u32, count| sum.saturating_add(*count))
    }

    fn print(&self, rt: &HostRuntime) -> io::Result<()> {
        print!(rt; ", refused")?;
        for (place, count) in self.counts.iter().enumerate() {
            print!(rt; " {}: {count}", place.saturating_add(13))?;
        }
        println!(rt;)
    }
}

/// The counts, and digests of all answers in their order and of all areas after each call.
#[derive(Drop)]
pub(crate) struct Tally {
    opened: u32,
    not_opened: Refusals,
    handed: u32,
    ended: u32,
    not_handed: Refusals,
    keys: u32,
    no_keys: Refusals,
    calls: u32,
    unexplained: u32,
    answers: Digest,
    areas: Digest,
}

fn add(count: &mut u32) {
    *count = count.saturating_add(1);
}

impl Tally {
    pub(crate) fn new() -> Tally {
        Tally {
            opened: 0,
            not_opened: Refusals::new(),
            handed: 0,
            ended: 0,
            not_handed: Refusals::new(),
            keys: 0,
            no_keys: Refusals::new(),
            calls: 0,
            unexplained: 0,
            answers: Digest::new(),
            areas: Digest::new(),
        }
    }

    /// What an opening came to, and the areas that it left.
    pub(crate) fn opening(&mut self, refusal: Option<Refusal>, areas: Digest) {
        add(&mut self.calls);
        self.areas.put(areas.value);
        match refusal {
            None => {
                add(&mut self.opened);
                self.answers.put(1);
            }
            Some(refusal) => {
                self.not_opened.add(refusal);
                self.answers.put(u64::from(refusal.number()));
            }
        }
    }

    /// What a call of `next` answered.
    pub(crate) fn next<S: Drawn>(&mut self, answer: Result<Option<(usize, u64, S)>, Refusal>) {
        add(&mut self.calls);
        match answer {
            Ok(Some((length, total, state))) => {
                add(&mut self.handed);
                self.answers.put(2);
                self.answers.put(length as u64);
                self.answers.put(total);
                state.put_into(&mut self.answers);
            }
            Ok(None) => {
                add(&mut self.ended);
                self.answers.put(3);
            }
            Err(refusal) => {
                self.not_handed.add(refusal);
                self.answers.put(u64::from(refusal.number()));
            }
        }
    }

    /// What a call of `key` answered.
    pub(crate) fn key(&mut self, answer: Result<&[u8], Refusal>) {
        add(&mut self.calls);
        match answer {
            Ok(key) => {
                add(&mut self.keys);
                self.answers.put(4);
                for byte in key {
                    self.answers.put(u64::from(*byte));
                }
            }
            Err(refusal) => {
                self.no_keys.add(refusal);
                self.answers.put(u64::from(refusal.number()));
            }
        }
    }

    /// The areas that a call left.
    pub(crate) fn areas(&mut self, areas: Digest) {
        self.areas.put(areas.value);
    }

    /// A fact that has to hold.
    pub(crate) fn expect(&mut self, fact: bool) {
        if !fact {
            add(&mut self.unexplained);
        }
    }

    /// All answers and refusals together.
    fn total(&self) -> u32 {
        let answers = [self.opened, self.handed, self.ended, self.keys];
        let refusals = [self.not_opened, self.not_handed, self.no_keys];
        let answered = answers
            .iter()
            .fold(0, |sum: u32, count| sum.saturating_add(*count));
        refusals.iter().fold(answered, |sum, refused| sum.saturating_add(refused.total()))
    }

    pub(crate) fn print(&self, rt: &HostRuntime) -> io::Result<()> {
        print!(rt; "open: searches {}", self.opened)?;
        self.not_opened.print(rt)?;
        print!(rt; "next: keys {}, ends {}", self.handed, self.ended)?;
        self.not_handed.print(rt)?;
        print!(rt; "key: keys {}", self.keys)?;
        self.no_keys.print(rt)?;
        println!(rt; "calls {}", self.calls)?;
        println!(rt; "answers and refusals together {}", self.total())?;
        println!(rt; "unexplained {}", self.unexplained)?;
        println!(rt; "answers {:016x}", self.answers.value)?;
        println!(rt; "areas {:016x}", self.areas.value)
    }
}
