// When a thread is refused a new layer, made of a ruleset.
#![tactic(auto)]

ghost use Rattle.tables.specs.Tables.{tables};
ghost use Rattle.std.specs.Prelude.{◌≡◌};
ghost use Rattle.laws.specs.Refusals.{first};
ghost use Rattle.domain_restrict.specs.Restrict.{unmarked, restrict_form, is_deep, no_room, restrict_room, restrict_checks};

use access::errno::Errno;
use access::limits::{MAX_DOMAIN, MAX_LAYERS, MAX_POOL};
use tables::rows::{
    admin_of, layer_parent, layers_used, level_of, no_new_privs_of, pool_used, ruleset_count,
    ruleset_open, thread_live, youngest_of,
};

fn is_unmarked(threads: &[u64], t: u64) -> bool
    ensures { result ≡ unmarked threads.now t }
{
    if no_new_privs_of(threads, t) != 0 {
        return false;
    }
    admin_of(threads, t) == 0
}

fn restrict_form(system: &[u64], threads: &[u64], t: u64, flags: u64) -> u64
    ensures { result ≡ first (restrict_form system.now threads.now t flags) }
{
    if !thread_live(threads, t) {
        return Errno::ESRCH.0;
    }
    if level_of(system) == 0 {
        return Errno::EOPNOTSUPP.0;
    }
    if is_unmarked(threads, t) {
        return Errno::EPERM.0;
    }
    if flags != 0 {
        return Errno::EINVAL.0;
    }
    0
}

// The thread's domain has as many layers as it may.
fn is_deep(layers: &[u64], threads: &[u64], t: u64) -> bool
    ensures { result ≡ is_deep layers.now threads.now t }
{
    let mut at = youngest_of(threads, t);
    let mut n = MAX_DOMAIN;
    while n > 0 {
        if at == 0 {
            return false;
        }
        at = layer_parent(layers, at - 1);
        n -= 1;
    }
    true
}

// No layer record, or fewer pool rules, are free than the ruleset needs.
fn has_no_room(system: &[u64], rulesets: &[u64], r: u64) -> bool
    ensures { result ≡ no_room system.now rulesets.now r }
{
    if layers_used(system) >= MAX_LAYERS as u64 {
        return true;
    }
    let used = pool_used(system);
    let count = ruleset_count(rulesets, r);
    if used > MAX_POOL as u64 {
        return true;
    }
    count > MAX_POOL as u64 - used
}

fn restrict_room(
    system: &[u64],
    entries: &[u64],
    rulesets: &[u64],
    layers: &[u64],
    pool: &[u64],
    threads: &[u64],
    t: u64,
    r: u64,
) -> u64
    ensures { result ≡ first (restrict_room (tables system.now entries.now rulesets.now layers.now pool.now threads.now) t r) }
{
    if !ruleset_open(rulesets, r) {
        return Errno::EBADF.0;
    }
    if is_deep(layers, threads, t) {
        return Errno::E2BIG.0;
    }
    if has_no_room(system, rulesets, r) {
        return Errno::ENOMEM.0;
    }
    0
}

pub fn restrict_checks(
    system: &[u64],
    entries: &[u64],
    rulesets: &[u64],
    layers: &[u64],
    pool: &[u64],
    threads: &[u64],
    t: u64,
    r: u64,
    flags: u64,
) -> u64
    ensures { result ≡ first (restrict_checks (tables system.now entries.now rulesets.now layers.now pool.now threads.now) t r flags) }
{
    let e = restrict_form(system, threads, t, flags);
    if e != 0 {
        return e;
    }
    restrict_room(system, entries, rulesets, layers, pool, threads, t, r)
}
