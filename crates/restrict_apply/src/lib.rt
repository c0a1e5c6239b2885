// A thread given a new layer of a ruleset.
#![tactic(auto)]

ghost use Rattle.std.specs.Prelude.{◌≡◌, ◌+◌, ◌*◌, ◌≤◌, ◌<◌};
ghost use Rattle.access.specs.Limits.{max_layers, max_pool};
ghost use Rattle.tables.specs.Tables.{tables, layers_used, pool_used};
ghost use Rattle.tables.specs.Layers.{ruleset_count};
ghost use Rattle.tables.specs.Outcome.{outcome, answer};
ghost use Rattle.domain_restrict.specs.Restrict.{restrict_checks, restricted, restrict_done};

use access::errno::{Errno, Reply};
use cells::{copy, row_write};
use domain_restrict::restrict_checks;
use judge::rules::ruleset_rules;
use restrict_layer::{count_layer, free_layer, put_layer};
use tables::rows::{
    RULE_WIDTH, THREAD_WIDTH, THREAD_YOUNGEST, pool_used, ruleset_count, ruleset_fs, ruleset_net,
    ruleset_scope, youngest_of,
};

fn apply_restrict(
    system: &mut [u64],
    entries: &[u64],
    rulesets: &[u64],
    layers: &mut [u64],
    pool: &mut [u64],
    threads: &mut [u64],
    t: u64,
    r: u64,
)
    requires { (layers_used system.old < max_layers) × (pool_used system.old + ruleset_count rulesets.now r ≤ max_pool) }
    ensures { tables system.new entries.now rulesets.now layers.new pool.new threads.new ≡ restricted (tables system.old entries.now rulesets.now layers.old pool.old threads.old) t r }
{
    let l = free_layer(layers);
    let p = pool_used(system);
    let fs = ruleset_fs(rulesets, r);
    let net = ruleset_net(rulesets, r);
    let scope = ruleset_scope(rulesets, r);
    let count = ruleset_count(rulesets, r);
    copy(pool, RULE_WIDTH * (p as usize), ruleset_rules(rulesets, r));
    put_layer(layers, l, youngest_of(threads, t), fs, net, scope, p, count);
    count_layer(system, count);
    row_write(threads, THREAD_WIDTH, t as usize, THREAD_YOUNGEST, l + 1);
}

// Gives the thread a new layer, made of the ruleset as it is now.
pub fn restrict(
    system: &mut [u64],
    entries: &[u64],
    rulesets: &[u64],
    layers: &mut [u64],
    pool: &mut [u64],
    threads: &mut [u64],
    t: u64,
    r: u64,
    flags: u64,
) -> Reply
    ensures { outcome result (tables system.new entries.now rulesets.now layers.new pool.new threads.new) ≡ answer (tables system.old entries.now rulesets.now layers.old pool.old threads.old) (restrict_checks (tables system.old entries.now rulesets.now layers.old pool.old threads.old) t r flags) (restrict_done (tables system.old entries.now rulesets.now layers.old pool.old threads.old) t r) }
{
    let e = restrict_checks(
        system, entries, rulesets, layers, pool, threads, t, r, flags,
    );
    if e != 0 {
        return Reply::Refused(Errno(e));
    }
    apply_restrict(system, entries, rulesets, layers, pool, threads, t, r);
    Reply::Done(0)
}
