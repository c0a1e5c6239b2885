// A thread's marks.
#![tactic(auto)]

ghost use Rattle.std.specs.Prelude.{◌≡◌, cond, eqb};
ghost use Rattle.laws.specs.Refusals.{first};
ghost use Rattle.tables.specs.Tables.{tables, privs_cell, admin_cell};
ghost use Rattle.tables.specs.Outcome.{outcome, answer};
ghost use Rattle.domain.specs.Threads.{mark_checks, mark_done};

use access::errno::{Errno, Reply};
use cells::row_write;
use tables::rows::{THREAD_ADMIN, THREAD_PRIVS, THREAD_WIDTH, thread_live};

fn mark_checks(
    system: &[u64],
    entries: &[u64],
    rulesets: &[u64],
    layers: &[u64],
    pool: &[u64],
    threads: &[u64],
    t: u64,
) -> u64
    ensures { result ≡ first (mark_checks (tables system.now entries.now rulesets.now layers.now pool.now threads.now) t) }
{
    if !thread_live(threads, t) {
        return Errno::ESRCH.0;
    }
    0
}

// Sets one of the thread's marks, by its cell.
fn set_mark(
    system: &[u64],
    entries: &[u64],
    rulesets: &[u64],
    layers: &[u64],
    pool: &[u64],
    threads: &mut [u64],
    t: u64,
    k: usize,
    v: u64,
) -> Reply
    ensures { outcome result (tables system.now entries.now rulesets.now layers.now pool.now threads.new) ≡ answer (tables system.now entries.now rulesets.now layers.now pool.now threads.old) (mark_checks (tables system.now entries.now rulesets.now layers.now pool.now threads.old) t) (mark_done (tables system.now entries.now rulesets.now layers.now pool.now threads.old) t k v) }
{
    let e = mark_checks(system, entries, rulesets, layers, pool, threads, t);
    if e != 0 {
        return Reply::Refused(Errno(e));
    }
    row_write(threads, THREAD_WIDTH, t as usize, k, v);
    Reply::Done(0)
}

// Sets no_new_privs, which nothing clears.
pub fn set_no_new_privs(
    system: &[u64],
    entries: &[u64],
    rulesets: &[u64],
    layers: &[u64],
    pool: &[u64],
    threads: &mut [u64],
    t: u64,
) -> Reply
    ensures { outcome result (tables system.now entries.now rulesets.now layers.now pool.now threads.new) ≡ answer (tables system.now entries.now rulesets.now layers.now pool.now threads.old) (mark_checks (tables system.now entries.now rulesets.now layers.now pool.now threads.old) t) (mark_done (tables system.now entries.now rulesets.now layers.now pool.now threads.old) t privs_cell 1) }
{
    set_mark(
        system,
        entries,
        rulesets,
        layers,
        pool,
        threads,
        t,
        THREAD_PRIVS,
        1,
    )
}

// Sets the admin mark, or clears it where `on` is 0.
pub fn set_admin(
    system: &[u64],
    entries: &[u64],
    rulesets: &[u64],
    layers: &[u64],
    pool: &[u64],
    threads: &mut [u64],
    t: u64,
    on: u64,
) -> Reply
    ensures { outcome result (tables system.now entries.now rulesets.now layers.now pool.now threads.new) ≡ answer (tables system.now entries.now rulesets.now layers.now pool.now threads.old) (mark_checks (tables system.now entries.now rulesets.now layers.now pool.now threads.old) t) (mark_done (tables system.now entries.now rulesets.now layers.now pool.now threads.old) t admin_cell (cond (eqb on 0) 0 1)) }
{
    let v = if on == 0 { 0 } else { 1 };
    set_mark(
        system,
        entries,
        rulesets,
        layers,
        pool,
        threads,
        t,
        THREAD_ADMIN,
        v,
    )
}
