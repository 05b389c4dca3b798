//! Searches over the own graph, with the own filter, whose answers were worked out by hand.
use super::*;
use crate::exhausting::{complements_agree, count_by_two, unions_agree};
use automaton::{AlwaysMatch, Automaton, Str};
use search::{Query, Refusal, Row};

/// Every square of the board counts itself, and 100 stand before.
const BOARD: Board = Board { before: 100 };

fn root_row<A: Automaton>(filter: &A) -> Row<A::State> {
    Row {
        node: 0,
        position: 0,
        total: 0,
        state: filter.start(),
    }
}

// a macro: no generic function knows how large an array of rows is
/// The number of listed squares, with a row for each node on the way and a byte for each step.
macro_rules! count {
    ($query:expr, $board:expr, $filter:expr) => {
        count_listed($query, &$board, &$filter, &mut [root_row(&$filter); 3], &mut [0; 2])
    };
}

#[test]
fn board_has_64_squares_of_which_32_are_dark(rt: HostRuntime) {
    assert_eq!(rt; count!(Query::new(), BOARD, AlwaysMatch), Ok(64));
    assert_eq!(rt; count!(Query::new(), BOARD, EvenSum), Ok(32));
    assert_eq!(rt; count!(Query::new(), BOARD, EvenSum.complement()), Ok(32));
}

#[test]
fn bounds_cut_the_squares(rt: HostRuntime) {
    let column = Query::new().ge(b"c3").lt(b"d");
    assert_eq!(rt; count!(column, BOARD, AlwaysMatch), Ok(6));
    let column = Query::new().ge(b"c3").lt(b"d");
    assert_eq!(rt; count!(column, BOARD, EvenSum), Ok(3));
    assert_eq!(rt; count!(Query::new().gt(b"h7"), BOARD, EvenSum), Ok(1));
    assert_eq!(rt; count!(Query::new().le(b"a"), BOARD, AlwaysMatch), Ok(0));
}

#[test]
fn own_filter_joins_others(rt: HostRuntime) {
    let column_a = Str::new(b"a").starts_with();
    assert_eq!(rt;
        count!(Query::new(), BOARD, EvenSum.intersection(column_a)),
        Ok(4)
    );
    assert_eq!(rt;
        count!(Query::new(), BOARD, EvenSum.union(column_a)),
        Ok(36)
    );
}

#[test]
fn square_has_its_number_as_total(rt: HostRuntime) {
    let mut rows = [root_row(&EvenSum); 3];
    let mut key_area = [0; 2];
    let opened = Query::new()
        .gt(b"c4")
        .open(&BOARD, &EvenSum, &mut rows, &mut key_area);
    let mut search = opened
        .map_err(|unopened| unopened.refusal)
        .expect(&rt, "opened");
    // two columns of 8, four squares and itself
    let next = search.next(&BOARD, &EvenSum, &mut rows, &mut key_area);
    assert_eq!(rt; next, Ok(Some((2, 121, true))));
    assert_eq!(rt; search.key(&rows, &key_area), Ok(&b"c5"[..]));
}

#[test]
fn small_areas_and_large_totals_are_refused(rt: HostRuntime) {
    let mut rows = [root_row(&EvenSum); 3];
    let few = count_listed(Query::new(), &BOARD, &EvenSum, &mut rows[..2], &mut [0; 2]);
    assert_eq!(rt; few, Err(Refusal::StackFull));
    let short = count_listed(Query::new(), &BOARD, &EvenSum, &mut rows, &mut [0; 1]);
    assert_eq!(rt; short, Err(Refusal::KeyAreaFull));
    // the last square's total is the largest there is, and one more
    let before = u64::MAX - 64;
    assert_eq!(rt; count!(Query::new(), Board { before }, EvenSum), Ok(32));
    let before = u64::MAX - 63;
    assert_eq!(rt;
        count!(Query::new(), Board { before }, EvenSum),
        Err(Refusal::SumTooLarge)
    );
}

#[test]
fn counts_of_several_searches_agree(rt: HostRuntime) {
    let column_a = Str::new(b"a").starts_with();
    let either = EvenSum.union(column_a);
    let mut dark = [root_row(&EvenSum); 3];
    let mut column = [root_row(&column_a); 3];
    let mut pairs = [root_row(&either); 3];
    let mut key_area = [0; 2];
    assert_eq!(rt;
        unions_agree(
            &BOARD,
            &EvenSum,
            &column_a,
            b"a2",
            &mut dark,
            &mut column,
            &mut pairs,
            &mut key_area
        ),
        Ok(true)
    );
    let mut all = [root_row(&AlwaysMatch); 3];
    assert_eq!(rt;
        complements_agree(&BOARD, &EvenSum, b"f5", &mut dark, &mut all, &mut key_area),
        Ok(true)
    );
    assert_eq!(rt;
        count_by_two(
            &BOARD,
            &EvenSum,
            &mut dark,
            &mut key_area,
            &mut [root_row(&EvenSum); 3],
            &mut [0; 2]
        ),
        Ok(Some(32))
    );
}
