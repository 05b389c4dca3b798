//! How the cases came out.
use crate::areas::{Growth, Room};
use crate::asked::marks;
use crate::case::Answers;
use crate::recorded::Recorded;
use crate::run::Run;
use anyhow::Context;
use graph::Graph;
use std::alloc::{AllocError, Global};
use std::fmt::Write;

/// A kind of graph.
#[derive(Clone, Copy)]
pub(crate) enum Kind {
    Catalogue,
    List,
}

/// How a case came out.
#[derive(Clone, Copy)]
enum Outcome {
    /// The answers are the recorded ones.
    Agrees,
    /// They are not, but those that the rule of the empty key demands.
    ByRule,
    Unexplained,
}

/// How many cases came out in each way, and how their areas grew.
#[derive(Clone, Copy)]
struct Tally {
    with_rows: u32,
    agree: u32,
    by_rule: u32,
    unexplained: u32,
    rows_added: u32,
    bytes_added: u32,
}

/// How many filters answered as recorded at each of their states, and how many did not.
#[derive(Clone, Copy)]
struct Asked {
    agree: u32,
    unexplained: u32,
}

/// The account so far.
#[derive(Drop)]
pub(crate) struct Account {
    // the unexplained cases, each with the answers that were expected and those that came
    text: String,
    catalogue: Tally,
    growing_catalogue: Tally,
    list: Tally,
    growing_list: Tally,
    asked: Asked,
}

const NONE: Tally = Tally {
    with_rows: 0,
    agree: 0,
    by_rule: 0,
    unexplained: 0,
    rows_added: 0,
    bytes_added: 0,
};

/// What is compared, and what is not.
const COMPARED: &str = "\
compared: the key, the total and the state of each answer, the end, two calls after it, and the count
compared where the record has rows, after the opening and after each answer: the depth, the key bytes, a waiting total,
  and the position, the total and the state of each row
the depth is seen by the fewest rows that `key` takes, a waiting total by a second search without an upper bound
not compared: the nodes of rows, which the record does not have
each case runs with 256 rows and 255 bytes, and again with one row and no byte, to which each 14 adds a row and each 15 a byte
";

impl Tally {
    fn count(&mut self, outcome: Outcome, with_rows: bool, growth: Growth) {
        let number = match outcome {
            Outcome::Agrees => &mut self.agree,
            Outcome::ByRule => &mut self.by_rule,
            Outcome::Unexplained => &mut self.unexplained,
        };
        *number = number.saturating_add(1);
        if with_rows {
            self.with_rows = self.with_rows.saturating_add(1);
        }
        self.rows_added = self.rows_added.saturating_add(growth.rows);
        self.bytes_added = self.bytes_added.saturating_add(growth.bytes);
    }

    fn write(self, text: &mut String) -> Result<(), AllocError> {
        let Tally {
            with_rows,
            agree,
            by_rule,
            unexplained,
            rows_added,
            bytes_added,
        } = self;
        let cases = agree.saturating_add(by_rule).saturating_add(unexplained);
        writeln!(text, "{cases} cases, {with_rows} with rows")?;
        writeln!(text, "  {agree} agree")?;
        writeln!(text, "  {by_rule} differ by the rule of the empty key")?;
        writeln!(text, "  {unexplained} unexplained")?;
        writeln!(
            text,
            "  refused and tried again: 14 {rows_added}, 15 {bytes_added}"
        )
    }
}

impl Account {
    pub(crate) fn new(heap: Global) -> Account {
        Account {
            text: String::new(heap),
            catalogue: NONE,
            growing_catalogue: NONE,
            list: NONE,
            growing_list: NONE,
            asked: Asked {
                agree: 0,
                unexplained: 0,
            },
        }
    }

    fn tally(&mut self, kind: Kind, room: Room) -> &mut Tally {
        match (kind, room) {
            (Kind::Catalogue, Room::Ample) => &mut self.catalogue,
            (Kind::Catalogue, Room::Growing) => &mut self.growing_catalogue,
            (Kind::List, Room::Ample) => &mut self.list,
            (Kind::List, Room::Growing) => &mut self.growing_list,
        }
    }

    fn show(&mut self, word: &str, answers: &Answers) -> Result<(), AllocError> {
        writeln!(self.text, "{word}:")?;
        write!(self.text, "{}", answers.text)?;
        writeln!(self.text, "end {}", answers.count)
    }

    /// Runs a case, and compares the answers with the recorded ones and with those that the rule demands.
    pub(crate) fn compare<'w, G: Graph, F: Recorded<'w>>(
        &mut self,
        kind: Kind,
        run: &Run<'_, G, F>,
    ) -> Result<(), AllocError> {
        let (answers, growth) = run.answers()?;
        let recorded = &run.case.answers;
        let by_rule = run.expected_by_rule()?;
        let outcome = match &by_rule {
            None if answers == *recorded => Outcome::Agrees,
            Some(expected) if answers == *expected && answers != *recorded => Outcome::ByRule,
            _ => Outcome::Unexplained,
        };
        if matches!(outcome, Outcome::Unexplained) {
            writeln!(self.text, "unexplained: {}", run.case.head)?;
            self.show("expected", by_rule.as_ref().unwrap_or(recorded))?;
            self.show("answered", &answers)?;
        }
        self.tally(kind, run.room)
            .count(outcome, run.case.with_rows, growth);
        Ok(())
    }

    /// Asks a filter at single states, and compares the answers with the recorded ones.
    pub(crate) fn ask(&mut self, heap: Global, line: &str) -> anyhow::Result<()> {
        let short = "a line of questions has three parts";
        let (keys, rest) = line.split_once(' ').context(short)?;
        let (recorded, filter) = rest.split_once(' ').context(short)?;
        let answered = marks(heap, keys, filter)?;
        if answered.as_str() == recorded {
            self.asked.agree = self.asked.agree.saturating_add(1);
        } else {
            self.asked.unexplained = self.asked.unexplained.saturating_add(1);
            writeln!(self.text, "unexplained: {line}")?;
            writeln!(self.text, "answered: {answered}")?;
        }
        Ok(())
    }

    /// The whole account.
    pub(crate) fn close(self) -> Result<String, AllocError> {
        let Account {
            mut text,
            catalogue,
            growing_catalogue,
            list,
            growing_list,
            asked,
        } = self;
        write!(text, "{COMPARED}")?;
        let mut unexplained = asked.unexplained;
        for (title, tally) in [
            ("through a catalogue", catalogue),
            ("through a catalogue, areas growing", growing_catalogue),
            ("through a list", list),
            ("through a list, areas growing", growing_list),
        ] {
            write!(text, "{title}: ")?;
            tally.write(&mut text)?;
            unexplained = unexplained.saturating_add(tally.unexplained);
        }
        writeln!(
            text,
            "filters asked whether states match, can match, always will"
        )?;
        writeln!(text, "  {} agree", asked.agree)?;
        writeln!(text, "  {} unexplained", asked.unexplained)?;
        writeln!(text, "unexplained {unexplained}")?;
        Ok(text)
    }
}
