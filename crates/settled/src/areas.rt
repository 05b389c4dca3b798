//! Work areas that are small, that grow, and that are cut short, and keys that stand or do not.
use crate::showing::{blank, show, show_key, show_next};
use automaton::AlwaysMatch;
use list::List;
use search::{Query, Row, Search};
use std::io;

/// Prints what `calls` calls of an unfiltered search answer.
fn show_calls(
    rt: &HostRuntime,
    list: &List,
    calls: usize,
    search: &mut Search<'_, ()>,
    rows: &mut [Row<()>],
    key_area: &mut [u8],
) -> io::Result<()> {
    for _ in 0..calls {
        let _ = show_next(rt, list, &AlwaysMatch, search, rows, key_area)?;
    }
    Ok(())
}

/// A stack of two rows has none for "ab"; one more row is enough.
fn show_two_rows(rt: &HostRuntime, list: &List) -> io::Result<()> {
    print!(rt; "two rows: ")?;
    let (mut rows, mut key_area) = ([blank(()); 2], [0; 2]);
    let Ok(mut search) = Query::new().open(list, &AlwaysMatch, &mut rows, &mut key_area) else {
        return println!(rt; "not opened");
    };
    show_calls(rt, list, 4, &mut search, &mut rows, &mut key_area)?;
    show_key(rt, &search, &rows, &key_area)?;
    print!(rt; ", a third row: ")?;
    let mut rows = [rows[0], rows[1], blank(())];
    show_calls(rt, list, 3, &mut search, &mut rows, &mut key_area)?;
    println!(rt; "count {}", search.close())
}

/// A key area of one byte has none for the "b" of "ab"; one more byte is enough.
fn show_one_byte(rt: &HostRuntime, list: &List) -> io::Result<()> {
    print!(rt; "one byte: ")?;
    let (mut rows, mut key_area) = ([blank(()); 3], [0; 1]);
    let Ok(mut search) = Query::new().open(list, &AlwaysMatch, &mut rows, &mut key_area) else {
        return println!(rt; "not opened");
    };
    show_calls(rt, list, 4, &mut search, &mut rows, &mut key_area)?;
    show_key(rt, &search, &rows, &key_area)?;
    print!(rt; ", a second byte: ")?;
    let mut key_area = [key_area[0], 0];
    show_calls(rt, list, 3, &mut search, &mut rows, &mut key_area)?;
    println!(rt; "count {}", search.close())
}

/// Areas cut short are refused, and with the old ones the search goes on.
fn show_cut(rt: &HostRuntime, list: &List) -> io::Result<()> {
    print!(rt; "cut short: ")?;
    let (mut rows, mut key_area) = ([blank(()); 3], [0; 2]);
    let Ok(mut search) = Query::new().open(list, &AlwaysMatch, &mut rows, &mut key_area) else {
        return println!(rt; "not opened");
    };
    show_calls(rt, list, 2, &mut search, &mut rows, &mut key_area)?;
    show_calls(rt, list, 1, &mut search, &mut rows[..1], &mut key_area)?;
    show_calls(rt, list, 1, &mut search, &mut rows, &mut [])?;
    show_calls(rt, list, 3, &mut search, &mut rows, &mut key_area)?;
    println!(rt; "count {}", search.close())
}

/// A key stands from the call that hands it out to the next call of `next`.
fn show_standing(rt: &HostRuntime, list: &List) -> io::Result<()> {
    print!(rt; "standing: ")?;
    let (mut rows, mut key_area) = ([blank(()); 3], [0; 2]);
    let Ok(mut search) = Query::new().open(list, &AlwaysMatch, &mut rows, &mut key_area) else {
        return println!(rt; "not opened");
    };
    show_key(rt, &search, &rows, &key_area)?;
    print!(rt; ", ")?;
    show_calls(rt, list, 2, &mut search, &mut rows, &mut key_area)?;
    show_key(rt, &search, &rows, &[])?;
    print!(rt; ", ")?;
    show_key(rt, &search, &rows, &key_area)?;
    print!(rt; ", ")?;
    show_calls(rt, list, 1, &mut search, &mut rows, &mut [])?;
    show_key(rt, &search, &rows, &key_area)?;
    print!(rt; ", ")?;
    show_calls(rt, list, 3, &mut search, &mut rows, &mut key_area)?;
    show_key(rt, &search, &rows, &key_area)?;
    println!(rt; ", count {}", search.close())
}

/// A search above the key that another has handed out hands out the rest.
fn show_resumed(rt: &HostRuntime, list: &List) -> io::Result<()> {
    print!(rt; "first two: ")?;
    let (mut rows, mut key_area) = ([blank(()); 3], [0; 2]);
    let Ok(mut search) = Query::new().open(list, &AlwaysMatch, &mut rows, &mut key_area) else {
        return println!(rt; "not opened");
    };
    show_calls(rt, list, 2, &mut search, &mut rows, &mut key_area)?;
    let Ok(key) = search.key(&rows, &key_area) else {
        return println!(rt; "no key");
    };
    println!(rt; "count {}", search.close())?;
    show(
        rt,
        "above the second",
        Query::new().gt(key),
        list,
        &AlwaysMatch,
    )
}

pub(crate) fn show_areas(rt: &HostRuntime, list: &List) -> io::Result<()> {
    show_two_rows(rt, list)?;
    show_one_byte(rt, list)?;
    show_cut(rt, list)?;
    show_standing(rt, list)?;
    show_resumed(rt, list)
}
