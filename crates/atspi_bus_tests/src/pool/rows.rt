//! Small pools, call by call, with counts worked out by hand.

use crate::pool::chains::{cut_back, has_blocks, open, pop, push, stands};
use atspi_pool::Pool;

/// 300 bytes fill a block and 44 bytes of the next; a second chain takes the block that a pop gave back.
#[test]
fn two_chains_share_blocks(rt: HostRuntime) {
    let mut pool = Pool::new(rt.alloc());
    let first = open(&rt, &mut pool);
    stands(&rt, &pool, first, (0, 0, 0), &[]);
    push(&rt, &mut pool, first, &[7; 300]);
    stands(&rt, &pool, first, (300, 2, 0), &[7; 256]);
    pop(&rt, &mut pool, first, 256);
    stands(&rt, &pool, first, (44, 2, 1), &[7; 44]);
    let second = open(&rt, &mut pool);
    assert!(rt; first != second);
    push(&rt, &mut pool, second, &[9; 10]);
    stands(&rt, &pool, second, (10, 2, 0), &[9; 10]);
    stands(&rt, &pool, first, (44, 2, 0), &[7; 44]);
    pool.drop_chain(first);
    pool.drop_chain(second);
    assert!(rt; has_blocks(&pool, 2, 2));
}

/// 50 bytes less than 300 end in the first block, so the second becomes free; nothing else moves.
#[test]
fn cutting_back_frees_the_last_block(rt: HostRuntime) {
    let mut pool = Pool::new(rt.alloc());
    let chain = open(&rt, &mut pool);
    push(&rt, &mut pool, chain, &[5; 300]);
    cut_back(&rt, &mut pool, chain, 50);
    stands(&rt, &pool, chain, (250, 2, 1), &[5; 250]);
    cut_back(&rt, &mut pool, chain, 0);
    stands(&rt, &pool, chain, (250, 2, 1), &[5; 250]);
    cut_back(&rt, &mut pool, chain, 250);
    stands(&rt, &pool, chain, (0, 2, 2), &[]);
}

/// A chain whose first block was popped in part has one block more than its bytes fill, and its next bytes go behind.
#[test]
fn a_popped_front_is_not_filled_again(rt: HostRuntime) {
    let mut pool = Pool::new(rt.alloc());
    let chain = open(&rt, &mut pool);
    push(&rt, &mut pool, chain, &[1; 256]);
    pop(&rt, &mut pool, chain, 255);
    push(&rt, &mut pool, chain, &[2; 257]);
    stands(&rt, &pool, chain, (258, 3, 0), &[1]);
    pop(&rt, &mut pool, chain, 1);
    stands(&rt, &pool, chain, (257, 3, 1), &[2; 256]);
    pop(&rt, &mut pool, chain, 256);
    stands(&rt, &pool, chain, (1, 3, 2), &[2]);
    push(&rt, &mut pool, chain, &[]);
    pop(&rt, &mut pool, chain, 1);
    stands(&rt, &pool, chain, (0, 3, 3), &[]);
}

/// The number of a dropped chain may come again, for an empty chain; it is no other's.
#[test]
fn numbers_come_again(rt: HostRuntime) {
    let mut pool = Pool::new(rt.alloc());
    let first = open(&rt, &mut pool);
    let second = open(&rt, &mut pool);
    assert!(rt; first != second);
    push(&rt, &mut pool, first, &[1; 600]);
    push(&rt, &mut pool, second, &[2; 3]);
    pool.drop_chain(first);
    assert!(rt; has_blocks(&pool, 4, 3));
    let third = open(&rt, &mut pool);
    assert!(rt; third != second);
    stands(&rt, &pool, third, (0, 4, 3), &[]);
    stands(&rt, &pool, second, (3, 4, 3), &[2; 3]);
}
