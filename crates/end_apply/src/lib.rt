// The end of a thread: its row is free, and the layers that it alone reached are given back.
#![tactic(auto)]

ghost use Rattle.tables.specs.Tables.{tables};
ghost use Rattle.std.specs.Prelude.{◌≡◌};
ghost use Rattle.access.specs.Limits.{max_domain};
ghost use Rattle.tables.specs.Outcome.{outcome, answer};
ghost use Rattle.domain_end.specs.End.{put_layer, ended, end_checks, end_done};

use access::errno::{Errno, Reply};
use access::limits::MAX_DOMAIN;
use cells::row_write;
use domain_end::end_checks;
use end_release::{minus, release, zero_row};
use tables::rows::{
    LAYER_HOLDERS, LAYER_WIDTH, THREAD_WIDTH, layer_holders, layer_parent, youngest_of,
};

// A layer (its number + 1, or 0 for none) loses a holder; with its last one it is given back, and its parent loses a holder.
fn put_layer(
    system: &mut [u64],
    entries: &[u64],
    rulesets: &[u64],
    layers: &mut [u64],
    pool: &mut [u64],
    threads: &[u64],
    y: u64,
)
    ensures { tables system.new entries.now rulesets.now layers.new pool.new threads.now ≡ put_layer max_domain (tables system.old entries.now rulesets.now layers.old pool.old threads.now) y }
{
    let mut at = y;
    let mut n = MAX_DOMAIN;
    while n > 0 {
        if at == 0 {
            return;
        }
        let l = at - 1;
        let held = layer_holders(layers, l);
        if held != 1 {
            row_write(
                layers,
                LAYER_WIDTH,
                l as usize,
                LAYER_HOLDERS,
                minus(held, 1),
            );
            return;
        }
        at = layer_parent(layers, l);
        release(system, entries, rulesets, layers, pool, threads, l);
        n -= 1;
    }
}

// The thread's row is free, and its youngest layer loses a holder.
fn apply_end(
    system: &mut [u64],
    entries: &[u64],
    rulesets: &[u64],
    layers: &mut [u64],
    pool: &mut [u64],
    threads: &mut [u64],
    t: u64,
)
    ensures { tables system.new entries.now rulesets.now layers.new pool.new threads.new ≡ ended (tables system.old entries.now rulesets.now layers.old pool.old threads.old) t }
{
    let y = youngest_of(threads, t);
    zero_row(threads, THREAD_WIDTH, t as usize);
    put_layer(system, entries, rulesets, layers, pool, threads, y);
}

// Ends a thread.
pub fn end_thread(
    system: &mut [u64],
    entries: &[u64],
    rulesets: &[u64],
    layers: &mut [u64],
    pool: &mut [u64],
    threads: &mut [u64],
    t: u64,
) -> Reply
    ensures { outcome result (tables system.new entries.now rulesets.now layers.new pool.new threads.new) ≡ answer (tables system.old entries.now rulesets.now layers.old pool.old threads.old) (end_checks (tables system.old entries.now rulesets.now layers.old pool.old threads.old) t) (end_done (tables system.old entries.now rulesets.now layers.old pool.old threads.old) t) }
{
    let e = end_checks(system, entries, rulesets, layers, pool, threads, t);
    if e != 0 {
        return Reply::Refused(Errno(e));
    }
    apply_end(system, entries, rulesets, layers, pool, threads, t);
    Reply::Done(0)
}
