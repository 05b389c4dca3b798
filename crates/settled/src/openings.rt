//! Queries that are handed back, and opened again.
use crate::showing::{blank, show};
use automaton::AlwaysMatch;
use graph::Graph;
use list::List;
use own_graph::Board;
use search::{Query, Row};
use std::io;

/// Prints why a query is not opened, and hands it back.
fn handed_back<'b, G: Graph>(
    rt: &HostRuntime,
    query: Query<'b>,
    graph: &G,
    rows: &mut [Row<()>],
    key_area: &mut [u8],
) -> io::Result<Query<'b>> {
    match query.open(graph, &AlwaysMatch, rows, key_area) {
        Ok(_) => {
            print!(rt; "opened, ")?;
            Ok(Query::new())
        }
        Err(unopened) => {
            print!(rt; "refused {}, ", unopened.refusal.number())?;
            Ok(unopened.query)
        }
    }
}

/// A lower bound of two bytes needs three rows and two bytes.
fn show_small(rt: &HostRuntime, list: &List) -> io::Result<()> {
    let query = Query::new().ge(b"aa").le(b"ab");
    let query = handed_back(rt, query, list, &mut [blank(()); 2], &mut [0; 2])?;
    let query = handed_back(rt, query, list, &mut [blank(()); 3], &mut [0; 1])?;
    show(rt, "ge \"aa\" and le \"ab\"", query, list, &AlwaysMatch)
}

/// The way to column b counts 8 squares, which have to fit.
fn show_board(rt: &HostRuntime) -> io::Result<()> {
    let query = Query::new().ge(b"b1").lt(b"b3");
    let full = Board { before: u64::MAX };
    let query = handed_back(rt, query, &full, &mut [blank(()); 3], &mut [0; 2])?;
    let board = Board { before: 100 };
    show(rt, "ge \"b1\" and lt \"b3\"", query, &board, &AlwaysMatch)
}

pub(crate) fn show_openings(rt: &HostRuntime, list: &List) -> io::Result<()> {
    show_small(rt, list)?;
    show_board(rt)
}
