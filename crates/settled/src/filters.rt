//! Filters with the states that they report.
use crate::graphs::two_names;
use crate::showing::{blank, show, show_next, show_rest};
use automaton::{Automaton, Closed, Str, Subsequence};
use list::List;
use search::Query;
use std::io;

/// A filter that does not accept the empty key, and then one that does: the key was passed over for good.
fn show_changed(rt: &HostRuntime, list: &List) -> io::Result<()> {
    print!(rt; "Str \"a\", then not Str \"a\": ")?;
    let filter = Str::new(b"a");
    let (mut rows, mut key_area) = ([blank(filter.start()); 3], [0; 2]);
    let Ok(mut search) = Query::new().open(list, &filter, &mut rows, &mut key_area) else {
        return println!(rt; "not opened");
    };
    let _ = show_next(rt, list, &filter, &mut search, &mut rows, &mut key_area)?;
    let others = filter.complement();
    show_rest(rt, list, &others, &mut search, &mut rows, &mut key_area)?;
    println!(rt; "count {}", search.close())
}

pub(crate) fn show_filters(rt: &HostRuntime, list: &List) -> io::Result<()> {
    show(rt, "Str \"ab\"", Query::new(), list, &Str::new(b"ab"))?;
    show(
        rt,
        "Subsequence \"b\"",
        Query::new(),
        list,
        &Subsequence::new(b"b"),
    )?;
    let begins = Str::new(b"a").starts_with();
    show(rt, "beginning with \"a\"", Query::new(), list, &begins)?;
    let differs = Str::new(b"a").complement();
    show(rt, "not Str \"a\"", Query::new(), list, &differs)?;
    show_changed(rt, list)?;
    let Some(list) = two_names(rt.alloc())? else {
        return println!(rt; "no list");
    };
    let closed = Closed::new(Str::new(b"a/"));
    show(
        rt,
        "Closed Str \"a/\" over \"a\" and \"a/\"",
        Query::new(),
        &list,
        &closed,
    )
}
