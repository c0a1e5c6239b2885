// The soundness test of each layer record by itself. `taken` pool rules are in use.
#![tactic(auto)]

ghost use Rattle.std.specs.Prelude.{◌≡◌, ◌*◌, ◌<◌, ◌≤◌, length};
ghost use Rattle.laws.specs.Tests.{all_below};
ghost use Rattle.access.specs.Limits.{max_entries, max_layers, max_pool};
ghost use Rattle.tables.specs.Tables.{entry_width, layer_width, rule_width};
ghost use Rattle.sound_objects.specs.Objects.{Indexed};
ghost use Rattle.sound_layers.specs.Layers.{run_placed, layer_sound, record_sound};

use access::limits::{MAX_LAYERS, MAX_RULES};
use access::rights::Rights;
use sound_keys::rules_sound;
use sound_rules::masks_known;
use sound_zero::all_zero;
use tables::rows::{
    LAYER_COUNT, LAYER_FIRST, LAYER_FS, LAYER_HOLDERS, LAYER_NET, LAYER_SCOPE, LAYER_WIDTH,
    RULE_WIDTH, handles_any,
};

// The run of a layer, by its first rule and its number of rules.
fn run_placed(first: u64, count: u64, taken: u64) -> bool
    ensures { result ≡ run_placed first count taken }
{
    if count > MAX_RULES as u64 {
        return false;
    }
    if first > taken {
        return false;
    }
    if count > taken - first {
        return false;
    }
    if count != 0 {
        return true;
    }
    first == 0
}

fn layer_sound(
    entries: &[u64],
    heads: &[u16],
    links: &[u16],
    next: u64,
    level: u64,
    layers: &[u64],
    pool: &[u64],
    taken: u64,
    l: usize,
) -> bool
    requires { (length layers.now ≡ layer_width * max_layers) × ((length pool.now ≡ rule_width * max_pool) × ((taken ≤ max_pool) × ((l < max_layers) × ((length entries.now ≡ entry_width * max_entries) × Indexed entries.now heads.now links.now)))) }
    ensures { result ≡ layer_sound entries.now next level layers.now pool.now taken l }
{
    let at = LAYER_WIDTH * l;
    let first = layers[at + LAYER_FIRST];
    let count = layers[at + LAYER_COUNT];
    if !run_placed(first, count, taken) {
        return false;
    }
    let fs = Rights(layers[at + LAYER_FS]);
    let net = Rights(layers[at + LAYER_NET]);
    let scope = Rights(layers[at + LAYER_SCOPE]);
    if !handles_any(fs, net, scope) {
        return false;
    }
    if !masks_known(level, fs, net, scope) {
        return false;
    }
    let from = RULE_WIDTH * (first as usize);
    let to = from + RULE_WIDTH * (count as usize);
    rules_sound(entries, heads, links, next, fs, net, &pool[from..to])
}

// A record that nothing holds is zero; a layer in use is sound.
fn record_sound(
    entries: &[u64],
    heads: &[u16],
    links: &[u16],
    next: u64,
    level: u64,
    layers: &[u64],
    pool: &[u64],
    taken: u64,
    l: usize,
) -> bool
    requires { (length layers.now ≡ layer_width * max_layers) × ((length pool.now ≡ rule_width * max_pool) × ((taken ≤ max_pool) × ((l < max_layers) × ((length entries.now ≡ entry_width * max_entries) × Indexed entries.now heads.now links.now)))) }
    ensures { result ≡ record_sound entries.now next level layers.now pool.now taken l }
{
    let at = LAYER_WIDTH * l;
    if layers[at + LAYER_HOLDERS] == 0 {
        return all_zero(&layers[at..at + LAYER_WIDTH]);
    }
    layer_sound(entries, heads, links, next, level, layers, pool, taken, l)
}

pub fn each_sound(
    entries: &[u64],
    heads: &[u16],
    links: &[u16],
    next: u64,
    level: u64,
    layers: &[u64],
    pool: &[u64],
    taken: u64,
) -> bool
    requires { (length layers.now ≡ layer_width * max_layers) × ((length pool.now ≡ rule_width * max_pool) × ((taken ≤ max_pool) × ((length entries.now ≡ entry_width * max_entries) × Indexed entries.now heads.now links.now))) }
    ensures { result ≡ all_below (record_sound entries.now next level layers.now pool.now taken) max_layers }
{
    (0..MAX_LAYERS).all(|l| record_sound(
        entries, heads, links, next, level, layers, pool, taken, l,
    ))
}
