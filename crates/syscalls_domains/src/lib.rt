// The entry points of layers and threads, on tables with names: each answers EIO if the tables are not sound, then does the call. A refusal changes no cell.
#![tactic(auto)]

ghost use Rattle.tables.specs.Tables.{tables};
ghost use Rattle.std.specs.Prelude.{◌≡◌};
ghost use Rattle.tables.specs.Outcome.{error_of};
ghost use Rattle.domain_restrict.specs.Restrict.{restrict_call};
ghost use Rattle.domain.specs.Layer.{layer_read, layer_part};
ghost use Rattle.domain.specs.Threads.{cloned, privs_set, admin_set};
ghost use Rattle.domain_end.specs.End.{end_call};
ghost use Rattle.named.specs.Named.{with_names, named_outcome, lift, lift_part};

use access::errno::{Errno, Reply};
use sound_names::names_sound;

// One layer's rules, as a part of the pool: `code` becomes 0, or EIO or EBADF with an empty part.
pub fn layer_rules<'a>(
    system: &[u64],
    entries: &[u64],
    rulesets: &[u64],
    layers: &[u64],
    pool: &'a [u64],
    threads: &[u64],
    names: &[u8],
    l: u64,
    code: &mut u64,
) -> &'a [u64]
    ensures part { result.now ≡ lift_part (with_names (tables system.now entries.now rulesets.now layers.now pool.now threads.now) names.now) (layer_part (with_names (tables system.now entries.now rulesets.now layers.now pool.now threads.now) names.now).core l) }
    ensures answer { code.new ≡ error_of (lift (with_names (tables system.now entries.now rulesets.now layers.now pool.now threads.now) names.now) (layer_read (with_names (tables system.now entries.now rulesets.now layers.now pool.now threads.now) names.now).core l)).reply }
    ensures left { with_names (tables system.now entries.now rulesets.now layers.now pool.now threads.now) names.now ≡ (lift (with_names (tables system.now entries.now rulesets.now layers.now pool.now threads.now) names.now) (layer_read (with_names (tables system.now entries.now rulesets.now layers.now pool.now threads.now) names.now).core l)).left }
{
    if !names_sound(entries, names) {
        *code = Errno::EIO.0;
        return &pool[0..0];
    }
    broker_domains::layer_rules(system, entries, rulesets, layers, pool, threads, l, code)
}

// Gives a thread a new layer: EIO, ESRCH, EOPNOTSUPP, EPERM, EINVAL, EBADF, E2BIG, ENOMEM.
pub fn restrict(
    system: &mut [u64],
    entries: &[u64],
    rulesets: &[u64],
    layers: &mut [u64],
    pool: &mut [u64],
    threads: &mut [u64],
    names: &[u8],
    t: u64,
    r: u64,
    flags: u64,
) -> Reply
    ensures { named_outcome result (with_names (tables system.new entries.now rulesets.now layers.new pool.new threads.new) names.now) ≡ lift (with_names (tables system.old entries.now rulesets.now layers.old pool.old threads.old) names.now) (restrict_call (with_names (tables system.old entries.now rulesets.now layers.old pool.old threads.old) names.now).core t r flags) }
{
    if !names_sound(entries, names) {
        return Reply::Refused(Errno::EIO);
    }
    broker_domains::restrict(
        system, entries, rulesets, layers, pool, threads, t, r, flags,
    )
}

// Copies a thread's domain and marks to the lowest free thread: EIO, ESRCH, EAGAIN. Answers its number.
pub fn clone_thread(
    system: &[u64],
    entries: &[u64],
    rulesets: &[u64],
    layers: &mut [u64],
    pool: &[u64],
    threads: &mut [u64],
    names: &[u8],
    t: u64,
) -> Reply
    ensures { named_outcome result (with_names (tables system.now entries.now rulesets.now layers.new pool.now threads.new) names.now) ≡ lift (with_names (tables system.now entries.now rulesets.now layers.old pool.now threads.old) names.now) (cloned (with_names (tables system.now entries.now rulesets.now layers.old pool.now threads.old) names.now).core t) }
{
    if !names_sound(entries, names) {
        return Reply::Refused(Errno::EIO);
    }
    broker_domains::clone_thread(system, entries, rulesets, layers, pool, threads, t)
}

// Ends a thread, and gives back the layers that it alone reached: EIO, ESRCH, EBUSY.
pub fn end_thread(
    system: &mut [u64],
    entries: &[u64],
    rulesets: &[u64],
    layers: &mut [u64],
    pool: &mut [u64],
    threads: &mut [u64],
    names: &[u8],
    t: u64,
) -> Reply
    ensures { named_outcome result (with_names (tables system.new entries.now rulesets.now layers.new pool.new threads.new) names.now) ≡ lift (with_names (tables system.old entries.now rulesets.now layers.old pool.old threads.old) names.now) (end_call (with_names (tables system.old entries.now rulesets.now layers.old pool.old threads.old) names.now).core t) }
{
    if !names_sound(entries, names) {
        return Reply::Refused(Errno::EIO);
    }
    broker_domains::end_thread(system, entries, rulesets, layers, pool, threads, t)
}

// Sets a thread's no_new_privs mark, once for all: EIO, ESRCH.
pub fn set_no_new_privs(
    system: &[u64],
    entries: &[u64],
    rulesets: &[u64],
    layers: &[u64],
    pool: &[u64],
    threads: &mut [u64],
    names: &[u8],
    t: u64,
) -> Reply
    ensures { named_outcome result (with_names (tables system.now entries.now rulesets.now layers.now pool.now threads.new) names.now) ≡ lift (with_names (tables system.now entries.now rulesets.now layers.now pool.now threads.old) names.now) (privs_set (with_names (tables system.now entries.now rulesets.now layers.now pool.now threads.old) names.now).core t) }
{
    if !names_sound(entries, names) {
        return Reply::Refused(Errno::EIO);
    }
    broker_domains::set_no_new_privs(system, entries, rulesets, layers, pool, threads, t)
}

// Sets a thread's admin mark, or clears it where `on` is 0: EIO, ESRCH.
pub fn set_admin(
    system: &[u64],
    entries: &[u64],
    rulesets: &[u64],
    layers: &[u64],
    pool: &[u64],
    threads: &mut [u64],
    names: &[u8],
    t: u64,
    on: u64,
) -> Reply
    ensures { named_outcome result (with_names (tables system.now entries.now rulesets.now layers.now pool.now threads.new) names.now) ≡ lift (with_names (tables system.now entries.now rulesets.now layers.now pool.now threads.old) names.now) (admin_set (with_names (tables system.now entries.now rulesets.now layers.now pool.now threads.old) names.now).core t on) }
{
    if !names_sound(entries, names) {
        return Reply::Refused(Errno::EIO);
    }
    broker_domains::set_admin(system, entries, rulesets, layers, pool, threads, t, on)
}
