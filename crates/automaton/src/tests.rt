//! Examples, two of them like those of the original's documentation.
use super::*;

#[test]
fn str_accepts_its_bytes_alone(rt: HostRuntime) {
    let filter = Str::new(b"\x00\xff");
    assert!(rt; accepts(&filter, b"\x00\xff"));
    assert!(rt; !accepts(&filter, b"\x00"));
    assert!(rt; !accepts(&filter, b"\x00\xff\x00"));
}

#[test]
fn subsequence_finds_bytes_in_order(rt: HostRuntime) {
    let filter = Subsequence::new(b"hpf");
    assert!(rt; accepts(&filter, b"/home/projects/foo"));
    assert!(rt; !accepts(&filter, b"/home/projects/bar"));
}

#[test]
fn starts_with_accepts_by_a_prefix(rt: HostRuntime) {
    let filter = Str::new(b"/home").starts_with();
    assert!(rt; accepts(&filter, b"/home/projects/bar"));
    assert!(rt; !accepts(&filter, b"/var/foo"));
}

#[test]
fn closed_accepts_the_key_before_the_slash(rt: HostRuntime) {
    let filter = Closed::new(Str::new(b"a/"));
    assert!(rt; accepts(&filter, b"a"));
    assert!(rt; !accepts(&filter, b"a/"));
    assert_eq!(rt; run(&filter, b"a"), Some(1));
}

#[test]
fn complement_drops_the_end_state(rt: HostRuntime) {
    let filter = Closed::new(Str::new(b"a/")).complement();
    assert!(rt; accepts(&filter, b"a"));
    assert!(rt; !accepts(&filter, b"a/"));
}

#[test]
fn union_accepts_by_one_filter(rt: HostRuntime) {
    let filter = Str::new(b"a").union(Subsequence::new(b"b"));
    assert!(rt; accepts(&filter, b"cb"));
    assert!(rt; !accepts(&filter, b"ac"));
}

#[test]
fn intersection_accepts_by_two_filters(rt: HostRuntime) {
    let filter = Str::new(b"/a")
        .starts_with()
        .intersection(Subsequence::new(b"b"));
    assert!(rt; accepts(&filter, b"/a/bolt"));
    assert!(rt; !accepts(&filter, b"/a/nut"));
}

#[test]
fn lent_filter_gives_the_same_answers(rt: HostRuntime) {
    let filter = AlwaysMatch;
    assert!(rt; accepts(&&filter, b""));
    assert!(rt; !accepts(&(&filter).complement(), b""));
}
