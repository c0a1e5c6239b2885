// What the tree calls answer whose field has no room in the log: their own refusals, in their order, or ENOSPC. They change no cell.
#![tactic(auto)]

ghost use Rattle.tables.specs.Tables.{tables};
ghost use Rattle.std.specs.Prelude.{◌≡◌};
ghost use Rattle.named.specs.Named.{with_names, named_outcome};
ghost use Rattle.named.specs.Tree.{create_named, remove_named, link_named, rename_named, exchange_named};
ghost use Rattle.log_calls.specs.Logs.{without_room};

use access::errno::{Errno, Reply};
use log_append::without_room;
use name_bearer::bearer;
use named_link::link_checks;
use named_moves::rename_checks;
use named_sound::named_sound;
use named_tree::create_checks;
use tree::entries::free_entry;
use tree_exchange::exchange_checks;
use tree_remove::remove_checks;

pub fn create_full(
    system: &[u64],
    entries: &[u64],
    rulesets: &[u64],
    layers: &[u64],
    pool: &[u64],
    threads: &[u64],
    names: &[u8],
    t: u64,
    d: u64,
    k: u64,
    name: &[u8],
) -> Reply
    ensures { named_outcome result (with_names (tables system.now entries.now rulesets.now layers.now pool.now threads.now) names.now) ≡ without_room (with_names (tables system.now entries.now rulesets.now layers.now pool.now threads.now) names.now) (create_named (with_names (tables system.now entries.now rulesets.now layers.now pool.now threads.now) names.now) t d k name.now) }
{
    if !named_sound(system, entries, rulesets, layers, pool, threads, names) {
        return Reply::Refused(Errno::EIO);
    }
    let e = free_entry(entries);
    without_room(create_checks(
        system, entries, rulesets, layers, pool, threads, names, t, d, k, name, e,
    ))
}

pub fn remove_full(
    system: &[u64],
    entries: &[u64],
    rulesets: &[u64],
    layers: &[u64],
    pool: &[u64],
    threads: &[u64],
    names: &[u8],
    t: u64,
    e: u64,
) -> Reply
    ensures { named_outcome result (with_names (tables system.now entries.now rulesets.now layers.now pool.now threads.now) names.now) ≡ without_room (with_names (tables system.now entries.now rulesets.now layers.now pool.now threads.now) names.now) (remove_named (with_names (tables system.now entries.now rulesets.now layers.now pool.now threads.now) names.now) t e) }
{
    if !named_sound(system, entries, rulesets, layers, pool, threads, names) {
        return Reply::Refused(Errno::EIO);
    }
    without_room(remove_checks(system, entries, rulesets, layers, pool, threads, t, e))
}

pub fn link_full(
    system: &[u64],
    entries: &[u64],
    rulesets: &[u64],
    layers: &[u64],
    pool: &[u64],
    threads: &[u64],
    names: &[u8],
    t: u64,
    s: u64,
    d: u64,
    name: &[u8],
) -> Reply
    ensures { named_outcome result (with_names (tables system.now entries.now rulesets.now layers.now pool.now threads.now) names.now) ≡ without_room (with_names (tables system.now entries.now rulesets.now layers.now pool.now threads.now) names.now) (link_named (with_names (tables system.now entries.now rulesets.now layers.now pool.now threads.now) names.now) t s d name.now) }
{
    if !named_sound(system, entries, rulesets, layers, pool, threads, names) {
        return Reply::Refused(Errno::EIO);
    }
    let e = free_entry(entries);
    without_room(link_checks(
        system, entries, rulesets, layers, pool, threads, names, t, s, d, name, e,
    ))
}

pub fn rename_full(
    system: &[u64],
    entries: &[u64],
    rulesets: &[u64],
    layers: &[u64],
    pool: &[u64],
    threads: &[u64],
    names: &[u8],
    t: u64,
    s: u64,
    d: u64,
    name: &[u8],
) -> Reply
    ensures { named_outcome result (with_names (tables system.now entries.now rulesets.now layers.now pool.now threads.now) names.now) ≡ without_room (with_names (tables system.now entries.now rulesets.now layers.now pool.now threads.now) names.now) (rename_named (with_names (tables system.now entries.now rulesets.now layers.now pool.now threads.now) names.now) t s d name.now) }
{
    if !named_sound(system, entries, rulesets, layers, pool, threads, names) {
        return Reply::Refused(Errno::EIO);
    }
    let x = bearer(entries, names, d, name);
    without_room(rename_checks(
        system, entries, rulesets, layers, pool, threads, names, t, s, d, name, x,
    ))
}

pub fn exchange_full(
    system: &[u64],
    entries: &[u64],
    rulesets: &[u64],
    layers: &[u64],
    pool: &[u64],
    threads: &[u64],
    names: &[u8],
    t: u64,
    s: u64,
    d: u64,
    x: u64,
) -> Reply
    ensures { named_outcome result (with_names (tables system.now entries.now rulesets.now layers.now pool.now threads.now) names.now) ≡ without_room (with_names (tables system.now entries.now rulesets.now layers.now pool.now threads.now) names.now) (exchange_named (with_names (tables system.now entries.now rulesets.now layers.now pool.now threads.now) names.now) t s d x) }
{
    if !named_sound(system, entries, rulesets, layers, pool, threads, names) {
        return Reply::Refused(Errno::EIO);
    }
    without_room(exchange_checks(system, entries, rulesets, layers, pool, threads, t, s, d, x))
}
