//! The count at its largest, which no run can reach by calls. What comes of it was worked out by hand.
ghost use Rattle.search.specs.Chain.{chain_table};
ghost use Rattle.search.specs.ChainLaws.{chain_table_is_lawful};

use super::*;
use automaton::AlwaysMatch;
use graph::{Graph, Transition};

/// The keys "", "a" and "aa": node n leads by "a" to node n − 1, and every node is final.
#[derive(Clone, Copy)]
struct Chain;

impl Graph for Chain {
    ghost table = { λ _. chain_table };

    ghost lawful = { λ _. chain_table_is_lawful };

    fn root(&self) -> u32 {
        2
    }

    fn first_total(&self) -> u64 {
        0
    }

    fn len(&self, node: u32) -> usize {
        if node == 0 { 0 } else { 1 }
    }

    fn transition(&self, node: u32, position: usize) -> Option<Transition> {
        if position >= self.len(node) {
            return None;
        }
        Some(Transition {
            byte: b'a',
            output: 0,
            target: node - 1,
        })
    }

    fn is_final(&self, _node: u32) -> bool {
        true
    }

    fn final_output(&self, _node: u32) -> u64 {
        0
    }

    #[tactic(auto, using(crate::specs::ChainLaws::way_found))]
    fn find_input(&self, node: u32, byte: u8) -> Option<usize> {
        if byte == b'a' && node != 0 {
            Some(0)
        } else {
            None
        }
    }
}

fn row(node: u32, position: usize) -> Row<()> {
    Row {
        node,
        position,
        total: 0,
        state: (),
    }
}

#[test]
fn full_count_refuses_the_next_key(rt: HostRuntime) {
    let (mut rows, mut key_area) = ([row(0, 0); 3], [0; 2]);
    let opened = Query::new()
        .gt(b"")
        .open(&Chain, &AlwaysMatch, &mut rows, &mut key_area);
    let mut search = opened
        .map_err(|unopened| unopened.refusal)
        .expect(&rt, "opened");
    // "a" and "aa" are to come, and the count has room for one
    search.count = 4_294_967_294;
    let next = search.next(&Chain, &AlwaysMatch, &mut rows, &mut key_area);
    assert_eq!(rt; next, Ok(Some((1, 0, ()))));
    assert_eq!(rt; search.count, 4_294_967_295);
    assert_eq!(rt; search.key(&rows, &key_area), Ok(&b"a"[..]));
    for _ in 0..2 {
        let next = search.next(&Chain, &AlwaysMatch, &mut rows, &mut key_area);
        assert_eq!(rt; next, Err(Refusal::CountFull));
        assert_eq!(rt; rows, [row(2, 1), row(1, 0), row(0, 0)]);
        assert_eq!(rt; key_area, *b"a\0");
        assert_eq!(rt;
            (search.stack.depth, search.waiting, search.standing),
            (2, None, false)
        );
        assert_eq!(rt; search.key(&rows, &key_area), Err(Refusal::NoStandingKey));
    }
    assert_eq!(rt; search.close(), 4_294_967_295);
}

#[test]
fn full_count_keeps_the_empty_key_waiting(rt: HostRuntime) {
    let (mut rows, mut key_area) = ([row(0, 0); 3], [0; 2]);
    let opened = Query::new().open(&Chain, &AlwaysMatch, &mut rows, &mut key_area);
    let mut search = opened
        .map_err(|unopened| unopened.refusal)
        .expect(&rt, "opened");
    search.count = 4_294_967_295;
    for _ in 0..2 {
        let next = search.next(&Chain, &AlwaysMatch, &mut rows, &mut key_area);
        assert_eq!(rt; next, Err(Refusal::CountFull));
        assert_eq!(rt; rows, [row(2, 0), row(0, 0), row(0, 0)]);
        assert_eq!(rt;
            (search.stack.depth, search.waiting, search.standing),
            (1, Some(0), false)
        );
    }
    search.count = 4_294_967_294;
    let next = search.next(&Chain, &AlwaysMatch, &mut rows, &mut key_area);
    assert_eq!(rt; next, Ok(Some((0, 0, ()))));
    assert_eq!(rt; (search.waiting, search.close()), (None, 4_294_967_295));
}
