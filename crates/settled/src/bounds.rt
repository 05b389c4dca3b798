//! Bounds on either side, together, and one in the place of another.
use crate::showing::show;
use automaton::AlwaysMatch;
use list::List;
use search::Query;
use std::io;

fn show_all(rt: &HostRuntime, title: &str, query: Query<'_>, list: &List) -> io::Result<()> {
    show(rt, title, query, list, &AlwaysMatch)
}

fn show_lower(rt: &HostRuntime, list: &List) -> io::Result<()> {
    show_all(rt, "gt \"\"", Query::new().gt(b""), list)?;
    show_all(rt, "ge \"\"", Query::new().ge(b""), list)?;
    show_all(rt, "ge \"aa\"", Query::new().ge(b"aa"), list)?;
    show_all(rt, "ge \"ab\"", Query::new().ge(b"ab"), list)?;
    show_all(rt, "gt \"ab\"", Query::new().gt(b"ab"), list)?;
    show_all(rt, "ge \"abc\"", Query::new().ge(b"abc"), list)?;
    show_all(rt, "ge \"c\"", Query::new().ge(b"c"), list)
}

fn show_upper(rt: &HostRuntime, list: &List) -> io::Result<()> {
    show_all(rt, "le \"\"", Query::new().le(b""), list)?;
    show_all(rt, "lt \"\"", Query::new().lt(b""), list)?;
    show_all(rt, "le \"a\"", Query::new().le(b"a"), list)?;
    show_all(rt, "lt \"aa\"", Query::new().lt(b"aa"), list)
}

fn show_both(rt: &HostRuntime, list: &List) -> io::Result<()> {
    show_all(
        rt,
        "ge \"a\" and lt \"b\"",
        Query::new().ge(b"a").lt(b"b"),
        list,
    )?;
    show_all(
        rt,
        "gt \"b\" and le \"a\"",
        Query::new().gt(b"b").le(b"a"),
        list,
    )
}

/// A later bound replaces the earlier one of its side.
fn show_replaced(rt: &HostRuntime, list: &List) -> io::Result<()> {
    show_all(
        rt,
        "ge \"b\", then gt \"\"",
        Query::new().ge(b"b").gt(b""),
        list,
    )?;
    show_all(
        rt,
        "gt \"\", then ge \"b\"",
        Query::new().gt(b"").ge(b"b"),
        list,
    )?;
    show_all(
        rt,
        "le \"a\", then lt \"a\"",
        Query::new().le(b"a").lt(b"a"),
        list,
    )?;
    show_all(
        rt,
        "lt \"a\", then le \"a\"",
        Query::new().lt(b"a").le(b"a"),
        list,
    )
}

pub(crate) fn show_bounds(rt: &HostRuntime, list: &List) -> io::Result<()> {
    show_all(rt, "all", Query::new(), list)?;
    show_lower(rt, list)?;
    show_upper(rt, list)?;
    show_both(rt, list)?;
    show_replaced(rt, list)
}
