//! Calls on chains in use, whose lengths are looked up first.

ghost use Rattle.std.specs.Prelude.{◌≡◌, ◌+◌, ◌<◌, ◌≤◌, ◌^◌, ℕ, length, IsSome};
ghost use Rattle.atspi_pool.specs.Store.{chain_at};
ghost use Rattle.atspi_pool.specs.Pool.{in_use};
ghost use Rattle.atspi_bus_tests.specs.Kept.{KeepsChains};

use atspi_pool::Pool;
use std::process::Abort;

/// The most bytes of a chain in these tests.
const MOST: u32 = 100_000_000;

/// A new chain.
pub fn open(rt: &impl Abort, pool: &mut Pool) -> u32
    requires { in_use pool.old.chains < 2 ^ 32 }
    ensures used { IsSome (chain_at pool.new result) }
    ensures others { (q : ℕ) → IsSome (chain_at pool.old q) → IsSome (chain_at pool.new q) }
    ensures count { in_use pool.new.chains ≡ in_use pool.old.chains + 1 }
{
    pool.new_chain().expect(rt, "a chain")
}

/// Appends bytes.
pub fn push(rt: &impl Abort, pool: &mut Pool, chain: u32, bytes: &[u8])
    requires used { IsSome (chain_at pool.old chain) }
    requires few { length bytes.now ≤ 100000000 }
    ensures { KeepsChains pool.old pool.new }
{
    assert!(rt; pool.len(chain) < MOST);
    pool.push(chain, bytes).expect(rt, "memory");
}

/// Drops the first bytes, at most as many as the chain has.
pub fn pop(rt: &impl Abort, pool: &mut Pool, chain: u32, n: u32)
    requires { IsSome (chain_at pool.old chain) }
    ensures { KeepsChains pool.old pool.new }
{
    assert!(rt; n <= pool.len(chain));
    pool.pop(chain, n);
}

/// Drops the last bytes, at most as many as the chain has.
pub fn cut_back(rt: &impl Abort, pool: &mut Pool, chain: u32, n: u32)
    requires { IsSome (chain_at pool.old chain) }
    ensures { KeepsChains pool.old pool.new }
{
    assert!(rt; n <= pool.len(chain));
    pool.cut_back(chain, n);
}

/// Whether a chain has so many bytes, in a pool of so many blocks of which so many are free.
pub fn counts(pool: &Pool, chain: u32, len: u32, made: u64, free: u64) -> bool
    requires { IsSome (chain_at pool.now chain) }
{
    pool.len(chain) == len && has_blocks(pool, made, free)
}

/// Whether so many blocks were made, and so many of them are free.
pub fn has_blocks(pool: &Pool, made: u64, free: u64) -> bool {
    pool.made() == made && pool.free() == free
}

/// Looks whether a chain has so many bytes, in a pool of so many blocks of which so many are free, and whether its
/// first block has these bytes.
pub fn stands(rt: &impl Abort, pool: &Pool, chain: u32, counted: (u32, u64, u64), front: &[u8])
    requires { IsSome (chain_at pool.now chain) }
{
    let (len, made, free) = counted;
    let holds = counts(pool, chain, len, made, free) && pool.front(chain) == front;
    assert!(rt; holds);
}
