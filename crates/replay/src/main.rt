//! Replays searches that the original answered, asks filters what it was asked, and compares every answer.
#![tactic(auto)]

mod account;
mod any_filter;
mod areas;
mod asked;
mod case;
mod notation;
mod recorded;
mod rule;
mod run;
mod word;

use account::{Account, Kind};
use anyhow::{Context, anyhow, ensure};
use areas::Room;
use case::{Case, Graphs, Names, read_case};
use catalogue::Catalogue;
use graph::Graph;
use list::List;
use recorded::{FourDeep, Recorded};
use run::Run;
use std::alloc::{AllocError, Global};
use std::io::{BufRead, BufReader};

/// Runs a case through a graph, with ample areas and then with areas that grow.
fn replay_through<'w, G: Graph, F: Recorded<'w>>(
    heap: Global,
    account: &mut Account,
    kind: Kind,
    graph: &G,
    filter: &F,
    case: &Case,
) -> Result<(), AllocError> {
    let all = F::all();
    for room in [Room::Ample, Room::Growing] {
        let run = Run {
            heap,
            graph,
            filter,
            all: &all,
            room,
            case,
        };
        account.compare(kind, &run)?;
    }
    Ok(())
}

/// Runs a case through a catalogue, and through a list where the record has names for one.
fn replay<'w, F: Recorded<'w>>(
    heap: Global,
    account: &mut Account,
    case: &'w Case,
    graphs: Graphs,
) -> anyhow::Result<()> {
    let Graphs { catalogue, names } = graphs;
    let (filter, rest) = F::said(case.words.as_slice()).context("no filter")?;
    ensure!(rest.is_empty(), "words after the filter");
    let catalogue = Catalogue::open(catalogue).map_err(|refusal| anyhow!(
        "catalogue refused by {}",
        refusal.number()
    ))?;
    replay_through(heap, account, Kind::Catalogue, &catalogue, &filter, case)?;
    if let Some(Names { text, rows }) = names {
        let list = List::open(text, rows).map_err(|refusal| anyhow!(
            "list refused by {}",
            refusal.number()
        ))?;
        replay_through(heap, account, Kind::List, &list, &filter, case)?;
    }
    Ok(())
}

fn main(rt: HostRuntime) -> anyhow::Result<()> {
    let mut account = Account::new(rt.alloc());
    let mut current = None;
    for line in BufReader::new(rt.alloc(), rt.stdin())?.lines(rt.alloc()) {
        let line = line?;
        let line = line.as_str();
        if let Some(head) = line.strip_prefix("> ") {
            current = Some(read_case(rt.alloc(), head)?);
        } else if let Some(count) = line.strip_prefix("end ") {
            let (mut case, graphs) = current.take().context("an end without a case")?;
            case.answers.count = count.parse::<u32>()?;
            replay::<FourDeep<'_>>(rt.alloc(), &mut account, &case, graphs)?;
        } else if let Some(asked) = line.strip_prefix("? ") {
            account.ask(rt.alloc(), asked)?;
        } else if let Some((case, _)) = &mut current {
            case.add_answer(line)?;
        }
    }
    let text = account.close()?;
    print!(rt; "{text}")?;
    Ok(())
}
