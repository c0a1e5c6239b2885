// The soundness test of the tables: what every call does first.
#![tactic(auto)]

ghost use Rattle.std.specs.Prelude.{◌≡◌, true, ◌*◌, length};
ghost use Rattle.access.specs.Limits.{max_rulesets};
ghost use Rattle.tables.specs.Tables.{system_width, ruleset_width, tables, lengths_right};
ghost use Rattle.sound.specs.Sound.{system_sound, any_open, level_zero_sound, parts_sound, sound};

use access::limits::{MAX_COUNTER, MAX_LEVEL, MAX_RULESETS};
use access::rights::Rights;
use sound_entries::entries_sound;
use sound_holders::domains_sound;
use sound_objects::{BUCKETS, LINKS, rows_used};
use sound_rulesets::rulesets_sound;
use sound_runs::layers_sound;
use tables::rows::{
    RULESET_NET, RULESET_SCOPE, RULESET_WIDTH, SYSTEM_COUNTER, SYSTEM_LAYERS, SYSTEM_LEVEL,
    SYSTEM_POOL, handles_any, lengths_right,
};

fn system_sound(system: &[u64]) -> bool
    requires { length system.now ≡ system_width }
    ensures { result ≡ system_sound system.now }
{
    if system[SYSTEM_LEVEL] > MAX_LEVEL {
        return false;
    }
    let next = system[SYSTEM_COUNTER];
    if next < 1 {
        return false;
    }
    if next > MAX_COUNTER {
        return false;
    }
    true
}

fn any_open(rulesets: &[u64]) -> bool
    requires { length rulesets.now ≡ ruleset_width * max_rulesets }
    ensures { result ≡ any_open rulesets.now }
{
    (0..MAX_RULESETS).any(|r| {
        let at = RULESET_WIDTH * r;
        let fs = Rights(rulesets[at]);
        let net = Rights(rulesets[at + RULESET_NET]);
        handles_any(fs, net, Rights(rulesets[at + RULESET_SCOPE]))
    })
}

fn level_zero_sound(system: &[u64], rulesets: &[u64]) -> bool
    requires { (length system.now ≡ system_width) × (length rulesets.now ≡ ruleset_width * max_rulesets) }
    ensures { result ≡ level_zero_sound system.now rulesets.now }
{
    if system[SYSTEM_LEVEL] != 0 {
        return true;
    }
    if system[SYSTEM_LAYERS] != 0 {
        return false;
    }
    !any_open(rulesets)
}

// Every part passes its test.
fn parts_sound(
    system: &[u64],
    entries: &[u64],
    rulesets: &[u64],
    layers: &[u64],
    pool: &[u64],
    threads: &[u64],
) -> bool
    requires { lengths_right (tables system.now entries.now rulesets.now layers.now pool.now threads.now) ≡ true }
    ensures { result ≡ parts_sound (tables system.now entries.now rulesets.now layers.now pool.now threads.now) }
{
    let level = system[SYSTEM_LEVEL];
    let next = system[SYSTEM_COUNTER];
    let used = system[SYSTEM_LAYERS];
    if !system_sound(system) {
        return false;
    }
    if !level_zero_sound(system, rulesets) {
        return false;
    }
    if !domains_sound(layers, threads) {
        return false;
    }
    let end = rows_used(entries);
    // Cells no wider than an entry's number needs, since they are zeroed at each call.
    let mut heads = [0u16; BUCKETS];
    let mut links = [0u16; LINKS];
    if !entries_sound(entries, end, next, &mut heads, &mut links) {
        return false;
    }
    if !rulesets_sound(entries, &heads, &links, next, level, rulesets) {
        return false;
    }
    layers_sound(
        entries,
        &heads,
        &links,
        next,
        level,
        layers,
        pool,
        used,
        system[SYSTEM_POOL],
    )
}

// The tables are sound, for slices of any length and contents.
pub fn is_sound(
    system: &[u64],
    entries: &[u64],
    rulesets: &[u64],
    layers: &[u64],
    pool: &[u64],
    threads: &[u64],
) -> bool
    ensures { result ≡ sound (tables system.now entries.now rulesets.now layers.now pool.now threads.now) }
{
    if !lengths_right(system, entries, rulesets, layers, pool, threads) {
        return false;
    }
    parts_sound(system, entries, rulesets, layers, pool, threads)
}
