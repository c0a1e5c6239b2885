// Clone a thread.
ghost use Rattle.std.specs.Prelude.{◌≡◌, true, ◌+◌, ◌-◌, ◌≤◌};
ghost use Rattle.laws.specs.Refusals.{first};
ghost use Rattle.access.specs.Limits.{max_layers, max_threads};
ghost use Rattle.tables.specs.Tables.{tables};
ghost use Rattle.tables.specs.Layers.{layer_holders};
ghost use Rattle.tables.specs.Outcome.{outcome, answer};
ghost use Rattle.sound.specs.Sound.{sound};
ghost use Rattle.domain.specs.Threads.{free_thread, clone_checks, copied_thread, held_more, clone_done};

use access::errno::{Errno, Reply};
use access::limits::MAX_THREADS;
use cells::row_write;
use tables::rows::{
    LAYER_HOLDERS, LAYER_WIDTH, THREAD_ADMIN, THREAD_PRIVS, THREAD_STATE, THREAD_WIDTH,
    THREAD_YOUNGEST, admin_of, layer_holders, no_new_privs_of, thread_live, youngest_of,
};

// The lowest number of no live thread; the number of threads if all are live.
fn free_thread(threads: &[u64]) -> usize
    ensures { result ≡ free_thread threads.now }
{
    let mut t = 0;
    while t < MAX_THREADS {
        if !thread_live(threads, t as u64) {
            return t;
        }
        t += 1;
    }
    t
}

fn clone_checks(
    system: &[u64],
    entries: &[u64],
    rulesets: &[u64],
    layers: &[u64],
    pool: &[u64],
    threads: &[u64],
    t: u64,
) -> u64
    ensures { result ≡ first (clone_checks (tables system.now entries.now rulesets.now layers.now pool.now threads.now) t) }
{
    if !thread_live(threads, t) {
        return Errno::ESRCH.0;
    }
    if free_thread(threads) >= MAX_THREADS {
        return Errno::EAGAIN.0;
    }
    0
}

// Makes `u` a live thread with the domain and the marks of `t`.
fn copy_thread(threads: &mut [u64], u: usize, t: u64)
    ensures { threads.new ≡ copied_thread threads.old u t }
{
    let youngest = youngest_of(threads, t);
    let privs = no_new_privs_of(threads, t);
    let admin = admin_of(threads, t);
    row_write(threads, THREAD_WIDTH, u, THREAD_STATE, 1);
    row_write(threads, THREAD_WIDTH, u, THREAD_YOUNGEST, youngest);
    row_write(threads, THREAD_WIDTH, u, THREAD_PRIVS, privs);
    row_write(threads, THREAD_WIDTH, u, THREAD_ADMIN, admin);
}

// One holder more for a layer (its number + 1, or 0 for none).
fn hold_layer(layers: &mut [u64], y: u64)
    requires { layer_holders layers.old (y - 1) ≤ max_threads + max_layers }
    ensures { layers.new ≡ held_more layers.old y }
{
    if y == 0 {
        return;
    }
    let held = layer_holders(layers, y - 1);
    row_write(
        layers,
        LAYER_WIDTH,
        (y - 1) as usize,
        LAYER_HOLDERS,
        held + 1,
    );
}

// Gives the lowest free thread a copy of a thread's domain and marks.
pub fn clone_thread(
    system: &[u64],
    entries: &[u64],
    rulesets: &[u64],
    layers: &mut [u64],
    pool: &[u64],
    threads: &mut [u64],
    t: u64,
) -> Reply
    requires { sound (tables system.now entries.now rulesets.now layers.old pool.now threads.old) ≡ true }
    ensures { outcome result (tables system.now entries.now rulesets.now layers.new pool.now threads.new) ≡ answer (tables system.now entries.now rulesets.now layers.old pool.now threads.old) (clone_checks (tables system.now entries.now rulesets.now layers.old pool.now threads.old) t) (clone_done (tables system.now entries.now rulesets.now layers.old pool.now threads.old) t) }
{
    let e = clone_checks(system, entries, rulesets, layers, pool, threads, t);
    if e != 0 {
        return Reply::Refused(Errno(e));
    }
    let u = free_thread(threads);
    hold_layer(layers, youngest_of(threads, t));
    copy_thread(threads, u, t);
    Reply::Done(u as u64)
}
