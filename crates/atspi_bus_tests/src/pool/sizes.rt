//! Many chains, and a long one.

ghost use Rattle.std.specs.Prelude.{◌≡◌, ◌+◌, ◌<◌, ◌≤◌, ℕ, length, IsSome};
ghost use Rattle.atspi_pool.specs.Store.{chain_at};
ghost use Rattle.atspi_pool.specs.Pool.{in_use, no_pool};
ghost use Rattle.atspi_bus_tests.specs.Kept.{AllUsed, KeepsChains};

use crate::pool::chains::{counts, cut_back, open, pop, push};
use atspi_pool::Pool;
use std::alloc::Global;
use std::process::Abort;

/// So many chains of a new pool.
fn opened(rt: &impl Abort, alloc: Global, pool: &mut Pool, count: u32) -> Vec<u32>
    requires { pool.old ≡ no_pool }
    ensures { AllUsed pool.new result.items }
{
    let mut numbers = Vec::new(alloc);
    for _ in 0..count {
        let number = open(rt, pool);
        numbers.push(number).expect(rt, "memory");
    }
    numbers
}

/// The most blocks that chains of these lengths have.
fn most_blocks(pool: &Pool, numbers: &[u32]) -> u64
    requires { AllUsed pool.now numbers.now }
{
    let mut most = 0u64;
    for number in numbers {
        let len = pool.len(*number);
        if 0 < len {
            most = most.saturating_add(u64::from(len / 256 + 2));
        }
    }
    most
}

/// Every chain grows.
fn grow(rt: &impl Abort, pool: &mut Pool, numbers: &[u32])
    requires { AllUsed pool.old numbers.now }
    ensures { KeepsChains pool.old pool.new }
{
    for number in numbers {
        push(rt, pool, *number, &[3; 700]);
    }
}

/// Every chain loses all its bytes.
fn empty(rt: &impl Abort, pool: &mut Pool, numbers: &[u32])
    requires { AllUsed pool.old numbers.now }
    ensures { KeepsChains pool.old pool.new }
{
    for number in numbers {
        let n = pool.len(*number);
        pop(rt, pool, *number, n);
    }
}

/// In each round every chain grows, and every second one shrinks at its front, every third one at its end.
fn grow_and_shrink(rt: &impl Abort, pool: &mut Pool, numbers: &[u32], round: u32)
    requires { AllUsed pool.old numbers.now }
    ensures { KeepsChains pool.old pool.new }
{
    let bytes = [3; 700];
    for (i, number) in numbers.iter().enumerate() {
        let len = (i * 7 % 600 + round as usize % 100).min(700);
        push(rt, pool, *number, &bytes[..len]);
        if i % 2 == 0 {
            let n = pool.front(*number).len() as u32;
            pop(rt, pool, *number, n);
        }
        if i % 3 == 0 {
            let n = pool.len(*number) / 3;
            cut_back(rt, pool, *number, n);
        }
    }
}

/// 1,000 chains grow and shrink in turn: the blocks made never pass the greatest sum that the bound allows.
#[test]
fn a_thousand_chains(rt: HostRuntime) {
    let mut pool = Pool::new(rt.alloc());
    let numbers = opened(&rt, rt.alloc(), &mut pool, 1000);
    let mut greatest = 0u64;
    for round in 0..20 {
        grow(&rt, &mut pool, &numbers);
        greatest = greatest.max(most_blocks(&pool, &numbers));
        grow_and_shrink(&rt, &mut pool, &numbers, round);
        greatest = greatest.max(most_blocks(&pool, &numbers));
        assert!(rt; pool.made() <= greatest);
    }
    empty(&rt, &mut pool, &numbers);
    assert!(rt; pool.free() == pool.made());
}

/// 16 MiB of bytes that tell where they stand.
fn sixteen(rt: &impl Abort, alloc: Global) -> Vec<u8> {
    let mut bytes = Vec::new(alloc);
    for i in 0..16_777_216u32 {
        bytes.push((i % 251) as u8).expect(rt, "memory");
    }
    bytes
}

/// Looks whether these bytes come out of a chain in 70,000 blocks.
fn drains(rt: &impl Abort, pool: &mut Pool, chain: u32, bytes: &[u8])
    requires { IsSome (chain_at pool.old chain) }
    ensures { KeepsChains pool.old pool.new }
{
    let mut rest = bytes;
    for _ in 0..70_000 {
        let front = pool.front(chain);
        rest = rest
            .strip_prefix(front)
            .expect(rt, "the bytes in their order");
        let n = front.len() as u32;
        pop(rt, pool, chain, n);
    }
    assert!(rt; rest.is_empty());
}

/// A chain of 16 MiB comes out as it went in.
#[test]
fn sixteen_mebibytes(rt: HostRuntime) {
    let bytes = sixteen(&rt, rt.alloc());
    assert!(rt; bytes.len() <= 100_000_000);
    let mut pool = Pool::new(rt.alloc());
    let chain = open(&rt, &mut pool);
    push(&rt, &mut pool, chain, &[0; 100]);
    pop(&rt, &mut pool, chain, 99);
    push(&rt, &mut pool, chain, &bytes);
    assert!(rt; counts(&pool, chain, 16_777_217, 65_537, 0));
    pop(&rt, &mut pool, chain, 1);
    drains(&rt, &mut pool, chain, &bytes);
    assert!(rt; counts(&pool, chain, 0, 65_537, 65_537));
}
