// The soundness test of the hierarchy of layers: their holders are counted in one pass over the cells that name layers, and a climb ends
// at a layer that an earlier climb came from.
#![tactic(auto)]

ghost use Rattle.std.specs.Prelude.{◌≡◌, ℕ, ◌+◌, ◌-◌, ◌*◌, ◌<◌, ◌≤◌, length, get_or, MatchOption};
ghost use Rattle.laws.specs.Tests.{all_below};
ghost use Rattle.access.specs.Limits.{max_layers, max_threads, max_domain};
ghost use Rattle.tables.specs.Tables.{layer_width, thread_width};
ghost use Rattle.sound_domains.specs.Domains.{hierarchy_sound, domains_sound};
ghost use Rattle.sound_domains.specs.Counting.{count_one, count_rows, depth, Depths, place_counted};

use access::limits::{MAX_DOMAIN, MAX_LAYERS, MAX_THREADS};
use cells::{read, row_read};
use sound_domains::threads_sound;
use tables::rows::{
    LAYER_PARENT, LAYER_WIDTH, THREAD_WIDTH, THREAD_YOUNGEST, layer_holders, layer_parent,
};

// One more for the layer that a cell names (its number + 1, or 0 for none).
fn count_one(counts: &mut [u64], y: u64)
    requires { get_or counts.old (y - 1) 0 ≤ 65536 }
    ensures { counts.new ≡ count_one counts.old y }
{
    if y == 0 {
        return;
    }
    let l = (y - 1) as usize;
    if l >= counts.len() {
        return;
    }
    counts[l] += 1;
}

// The same for cell `k` of the first `n` rows of a table.
fn count_rows(counts: &mut [u64], table: &[u64], width: usize, k: usize, n: usize)
    requires { (n ≤ 1024) × ((l : ℕ) → get_or counts.old l 0 ≤ 1024) }
    ensures { counts.new ≡ count_rows counts.old table.now width k n }
{
    for i in 0..n {
        count_one(counts, row_read(table, width, i, k));
    }
}

// How many layers there are from `l` on; none if these are more than the limit of a domain. `depths` has this of each layer below `l`.
fn depth_of(layers: &[u64], depths: &[u64], l: usize) -> Option<u64>
    requires { (length layers.now ≡ layer_width * max_layers) × ((l < max_layers) × Depths layers.now depths.now l) }
    ensures { MatchOption result (max_domain < depth layers.now max_domain (l + 1)) (λ d. (d ≤ max_domain) × (d ≡ depth layers.now max_domain (l + 1))) }
{
    // As the cells name a layer: its number + 1, or 0 for none.
    let mut at = l as u64 + 1;
    for n in 0..MAX_DOMAIN as u64 {
        if at == 0 {
            return Some(n);
        }
        if at <= l as u64 {
            let d = n + depths[(at - 1) as usize];
            return if d > MAX_DOMAIN as u64 { None } else { Some(d) };
        }
        if at > MAX_LAYERS as u64 {
            return Some(n + 1);
        }
        at = layers[LAYER_WIDTH * (at - 1) as usize];
    }
    if at == 0 {
        Some(MAX_DOMAIN as u64)
    } else {
        None
    }
}

// A layer's parent is one of the records, and its count is the one counted; its depth is within the limit of a domain.
fn place_sound(layers: &[u64], counts: &[u64], l: usize) -> bool
    requires { depth layers.now max_domain (l + 1) ≤ max_domain }
    ensures { result ≡ place_counted layers.now counts.now l }
{
    if layer_parent(layers, l as u64) > MAX_LAYERS as u64 {
        return false;
    }
    layer_holders(layers, l as u64) == read(counts, l)
}

fn places_sound(layers: &[u64], counts: &[u64]) -> bool
    requires { length layers.now ≡ layer_width * max_layers }
    ensures { result ≡ all_below (place_counted layers.now counts.now) max_layers }
{
    let mut depths = [0u64; MAX_LAYERS];
    for l in 0..MAX_LAYERS {
        let Some(d) = depth_of(layers, &depths, l) else {
            return false;
        };
        if !place_sound(layers, counts, l) {
            return false;
        }
        depths[l] = d;
    }
    true
}

// The hierarchy of layers is sound.
fn hierarchy_sound(layers: &[u64], threads: &[u64]) -> bool
    requires { (length layers.now ≡ layer_width * max_layers) × (length threads.now ≡ thread_width * max_threads) }
    ensures { result ≡ hierarchy_sound layers.now threads.now }
{
    let mut counts = [0u64; MAX_LAYERS];
    count_rows(&mut counts, layers, LAYER_WIDTH, LAYER_PARENT, MAX_LAYERS);
    count_rows(
        &mut counts,
        threads,
        THREAD_WIDTH,
        THREAD_YOUNGEST,
        MAX_THREADS,
    );
    places_sound(layers, &counts)
}

// Threads and the hierarchy of layers are sound.
pub fn domains_sound(layers: &[u64], threads: &[u64]) -> bool
    requires { (length layers.now ≡ layer_width * max_layers) × (length threads.now ≡ thread_width * max_threads) }
    ensures { result ≡ domains_sound layers.now threads.now }
{
    if !threads_sound(layers, threads, MAX_LAYERS as u64) {
        return false;
    }
    hierarchy_sound(layers, threads)
}
