// The soundness test of the layers and the pool: each record, no pool place in two runs, what is in use counted, free space zero. `used`
// layers and `taken` pool rules are in use.
#![tactic(auto)]

ghost use Rattle.std.specs.Prelude.{◌≡◌, ◌*◌, ◌<◌, ◌≤◌, length};
ghost use Rattle.laws.specs.Tests.{all_below};
ghost use Rattle.access.specs.Limits.{max_entries, max_layers, max_pool};
ghost use Rattle.tables.specs.Tables.{entry_width, layer_width, rule_width};
ghost use Rattle.sound_objects.specs.Objects.{Indexed};
ghost use Rattle.sound_layers.specs.Layers.{layers_counted, run_sound, pool_filled, pool_rest, layers_sound};
ghost use Rattle.sound_layers.specs.Runs.{RunsPlaced};

use access::limits::{MAX_LAYERS, MAX_POOL};
use bitmap::{WORD_BITS, take_run};
use sound_layers::each_sound;
use sound_zero::all_zero;
use tables::rows::{LAYER_COUNT, LAYER_FIRST, LAYER_HOLDERS, LAYER_WIDTH, POOL_CELLS, RULE_WIDTH};

// The runs of the layers in use are apart: no place of the pool is taken twice.
fn runs_sound(layers: &[u64]) -> bool
    requires { (length layers.now ≡ layer_width * max_layers) × RunsPlaced layers.now max_layers }
    ensures { result ≡ all_below (run_sound layers.now) max_layers }
{
    let mut taken = [0u64; MAX_POOL / WORD_BITS];
    for l in 0..MAX_LAYERS {
        let at = LAYER_WIDTH * l;
        let first = layers[at + LAYER_FIRST] as usize;
        let count = layers[at + LAYER_COUNT] as usize;
        if !take_run(&mut taken, first, count) {
            return false;
        }
    }
    true
}

// So many layers are in use.
fn layers_counted(layers: &[u64], used: u64) -> bool
    requires { length layers.now ≡ layer_width * max_layers }
    ensures { result ≡ layers_counted layers.now used }
{
    let n = (0..MAX_LAYERS)
        .filter(|l| layers[LAYER_WIDTH * *l + LAYER_HOLDERS] != 0)
        .count();
    used == n as u64
}

// They have so many rules.
fn pool_filled(layers: &[u64], taken: u64) -> bool
    requires { (length layers.now ≡ layer_width * max_layers) × RunsPlaced layers.now max_layers }
    ensures { result ≡ pool_filled layers.now taken }
{
    let n: u64 = (0..MAX_LAYERS)
        .map(|l| layers[LAYER_WIDTH * l + LAYER_COUNT])
        .sum();
    taken == n
}

// Past the rules in use every cell of the pool is 0.
fn pool_rest(pool: &[u64], taken: u64) -> bool
    requires { (length pool.now ≡ rule_width * max_pool) × (taken ≤ max_pool) }
    ensures { result ≡ pool_rest pool.now taken }
{
    let at = RULE_WIDTH * (taken as usize);
    all_zero(&pool[at..POOL_CELLS])
}

// The layers and the pool are sound; `next` is the counter of object numbers, `heads` and `links` are the index of objects.
pub fn layers_sound(
    entries: &[u64],
    heads: &[u16],
    links: &[u16],
    next: u64,
    level: u64,
    layers: &[u64],
    pool: &[u64],
    used: u64,
    taken: u64,
) -> bool
    requires { (length layers.now ≡ layer_width * max_layers) × ((length pool.now ≡ rule_width * max_pool) × ((length entries.now ≡ entry_width * max_entries) × Indexed entries.now heads.now links.now)) }
    ensures { result ≡ layers_sound entries.now next level layers.now pool.now used taken }
{
    if !layers_counted(layers, used) {
        return false;
    }
    if taken > MAX_POOL as u64 {
        return false;
    }
    if !each_sound(entries, heads, links, next, level, layers, pool, taken) {
        return false;
    }
    if !runs_sound(layers) {
        return false;
    }
    if !pool_filled(layers, taken) {
        return false;
    }
    pool_rest(pool, taken)
}
