// A layer given back: its record is free, its run closed.
#![tactic(auto)]

ghost use Rattle.tables.specs.Tables.{tables};
ghost use Rattle.std.specs.Prelude.{◌≡◌, ◌+◌, ◌-◌, ◌<◌, leb, length, get_or};
ghost use Rattle.laws.specs.Cells.{zero_row};
ghost use Rattle.access.specs.Limits.{max_layers};
ghost use Rattle.domain_end.specs.End.{pool_closed, lower_one, lowered, released};

use access::limits::MAX_LAYERS;
use cells::{row_start, row_write, write};
use tables::rows::{
    LAYER_FIRST, LAYER_WIDTH, RULE_WIDTH, SYSTEM_LAYERS, SYSTEM_POOL, layer_count, layer_first,
    layers_used, pool_used,
};

// 0 where `b` is larger.
pub fn minus(a: u64, b: u64) -> u64
    ensures { result ≡ a - b }
{
    if a < b { 0 } else { a - b }
}

// A run of `count` rules from `first` on ends at or before `at`.
fn ends_before(first: u64, count: u64, at: u64) -> bool
    ensures { result ≡ leb (first + count) at }
{
    if at < first {
        return false;
    }
    count <= at - first
}

pub fn zero_row(t: &mut [u64], width: usize, i: usize)
    ensures { t.new ≡ zero_row t.old width i }
{
    let mut k = 0;
    while k < width {
        row_write(t, width, i, k, 0);
        k += 1;
    }
}

// A layer whose run comes after that one begins as much lower.
fn lower_one(layers: &mut [u64], first: u64, count: u64, l: usize)
    ensures { layers.new ≡ lower_one layers.old first count l }
{
    let at = layer_first(layers, l as u64);
    if !ends_before(first, count, at) {
        return;
    }
    row_write(layers, LAYER_WIDTH, l, LAYER_FIRST, minus(at, count));
}

fn lower_firsts(layers: &mut [u64], first: u64, count: u64)
    ensures { layers.new ≡ lowered layers.old first count max_layers }
{
    let mut n = 0;
    while n < MAX_LAYERS {
        lower_one(layers, first, count, n);
        n += 1;
    }
}

// A cell of the pool as it is closed: that `more` further on, or 0 past the end.
fn cell_after(pool: &[u64], at: usize, more: usize) -> u64
    requires { at < length pool.now }
    ensures { result ≡ get_or pool.now (at + more) 0 }
{
    if more < pool.len() - at {
        pool[at + more]
    } else {
        0
    }
}

// Closes up the pool over a run: what stands after it moves down, and zeros come in at the end.
fn close_pool(pool: &mut [u64], first: usize, count: usize)
    ensures { pool.new ≡ pool_closed pool.old first count }
{
    let low = row_start(pool.len(), RULE_WIDTH, first);
    let gap = row_start(pool.len(), RULE_WIDTH, count);
    let mut i = low;
    while i < pool.len() {
        pool[i] = cell_after(pool, i, gap);
        i += 1;
    }
}

// Gives a layer back: its record is free, its run closed.
pub fn release(
    system: &mut [u64],
    entries: &[u64],
    rulesets: &[u64],
    layers: &mut [u64],
    pool: &mut [u64],
    threads: &[u64],
    l: u64,
)
    ensures { tables system.new entries.now rulesets.now layers.new pool.new threads.now ≡ released (tables system.old entries.now rulesets.now layers.old pool.old threads.now) l }
{
    let first = layer_first(layers, l);
    let count = layer_count(layers, l);
    let used = layers_used(system);
    let taken = pool_used(system);
    write(system, SYSTEM_LAYERS, minus(used, 1));
    write(system, SYSTEM_POOL, minus(taken, count));
    lower_firsts(layers, first, count);
    zero_row(layers, LAYER_WIDTH, l as usize);
    close_pool(pool, first as usize, count as usize);
}
