// The entry points of layers and threads: each tests the tables first and answers EIO if they are not sound, then does the call. A refusal changes no cell.
#![tactic(auto)]

ghost use Rattle.tables.specs.Tables.{tables};
ghost use Rattle.std.specs.Prelude.{◌≡◌};
ghost use Rattle.tables.specs.Outcome.{outcome};
ghost use Rattle.domain_restrict.specs.Restrict.{restrict_call};
ghost use Rattle.domain.specs.Layer.{layer_read, layer_code, layer_part};
ghost use Rattle.domain.specs.Threads.{cloned, privs_set, admin_set};
ghost use Rattle.domain_end.specs.End.{end_call};

use access::errno::{Errno, Reply};

// One layer's rules, as a part of the pool: `code` becomes 0, or EIO or EBADF with an empty part.
pub fn layer_rules<'a>(
    system: &[u64],
    entries: &[u64],
    rulesets: &[u64],
    layers: &[u64],
    pool: &'a [u64],
    threads: &[u64],
    l: u64,
    code: &mut u64,
) -> &'a [u64]
    ensures part { result.now ≡ layer_part (tables system.now entries.now rulesets.now layers.now pool.now threads.now) l }
    ensures answer { code.new ≡ layer_code (tables system.now entries.now rulesets.now layers.now pool.now threads.now) l }
    ensures left { tables system.now entries.now rulesets.now layers.now pool.now threads.now ≡ (layer_read (tables system.now entries.now rulesets.now layers.now pool.now threads.now) l).left }
{
    domain_layer::layer_rules(system, entries, rulesets, layers, pool, threads, l, code)
}

// Gives a thread a new layer: EIO, ESRCH, EOPNOTSUPP, EPERM, EINVAL, EBADF, E2BIG, ENOMEM.
pub fn restrict(
    system: &mut [u64],
    entries: &[u64],
    rulesets: &[u64],
    layers: &mut [u64],
    pool: &mut [u64],
    threads: &mut [u64],
    t: u64,
    r: u64,
    flags: u64,
) -> Reply
    ensures { outcome result (tables system.new entries.now rulesets.now layers.new pool.new threads.new) ≡ restrict_call (tables system.old entries.now rulesets.now layers.old pool.old threads.old) t r flags }
{
    if !sound::is_sound(system, entries, rulesets, layers, pool, threads) {
        return Reply::Refused(Errno::EIO);
    }
    restrict_apply::restrict(
        system, entries, rulesets, layers, pool, threads, t, r, flags,
    )
}

// Copies a thread's domain and marks to the lowest free thread: EIO, ESRCH, EAGAIN. Answers its number.
pub fn clone_thread(
    system: &[u64],
    entries: &[u64],
    rulesets: &[u64],
    layers: &mut [u64],
    pool: &[u64],
    threads: &mut [u64],
    t: u64,
) -> Reply
    ensures { outcome result (tables system.now entries.now rulesets.now layers.new pool.now threads.new) ≡ cloned (tables system.now entries.now rulesets.now layers.old pool.now threads.old) t }
{
    if !sound::is_sound(system, entries, rulesets, layers, pool, threads) {
        return Reply::Refused(Errno::EIO);
    }
    domain::threads::clone_thread(system, entries, rulesets, layers, pool, threads, t)
}

// Ends a thread, and gives back the layers that it alone reached: EIO, ESRCH, EBUSY.
pub fn end_thread(
    system: &mut [u64],
    entries: &[u64],
    rulesets: &[u64],
    layers: &mut [u64],
    pool: &mut [u64],
    threads: &mut [u64],
    t: u64,
) -> Reply
    ensures { outcome result (tables system.new entries.now rulesets.now layers.new pool.new threads.new) ≡ end_call (tables system.old entries.now rulesets.now layers.old pool.old threads.old) t }
{
    if !sound::is_sound(system, entries, rulesets, layers, pool, threads) {
        return Reply::Refused(Errno::EIO);
    }
    end_apply::end_thread(system, entries, rulesets, layers, pool, threads, t)
}

// Sets a thread's no_new_privs mark, once for all: EIO, ESRCH.
pub fn set_no_new_privs(
    system: &[u64],
    entries: &[u64],
    rulesets: &[u64],
    layers: &[u64],
    pool: &[u64],
    threads: &mut [u64],
    t: u64,
) -> Reply
    ensures { outcome result (tables system.now entries.now rulesets.now layers.now pool.now threads.new) ≡ privs_set (tables system.now entries.now rulesets.now layers.now pool.now threads.old) t }
{
    if !sound::is_sound(system, entries, rulesets, layers, pool, threads) {
        return Reply::Refused(Errno::EIO);
    }
    domain_marks::set_no_new_privs(system, entries, rulesets, layers, pool, threads, t)
}

// Sets a thread's admin mark, or clears it where `on` is 0: EIO, ESRCH.
pub fn set_admin(
    system: &[u64],
    entries: &[u64],
    rulesets: &[u64],
    layers: &[u64],
    pool: &[u64],
    threads: &mut [u64],
    t: u64,
    on: u64,
) -> Reply
    ensures { outcome result (tables system.now entries.now rulesets.now layers.now pool.now threads.new) ≡ admin_set (tables system.now entries.now rulesets.now layers.now pool.now threads.old) t on }
{
    if !sound::is_sound(system, entries, rulesets, layers, pool, threads) {
        return Reply::Refused(Errno::EIO);
    }
    domain_marks::set_admin(system, entries, rulesets, layers, pool, threads, t, on)
}
