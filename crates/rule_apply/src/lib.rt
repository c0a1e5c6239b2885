// Rules added to a ruleset.
#![tactic(auto)]

ghost use Rattle.std.specs.Prelude.{◌≡◌, ◌^◌, ◌<◌};
ghost use Rattle.access.specs.Limits.{max_rules};
ghost use Rattle.tables.specs.Tables.{tables, object, path_rule, port_rule};
ghost use Rattle.tables.specs.Outcome.{outcome, answer};
ghost use Rattle.rule.specs.Rule.{add_path_checks, add_port_checks, joined, appended, added, add_done};

use access::errno::{Errno, Reply};
use access::limits::MAX_RULES;
use access::rights::Rights;
use cells::{row_read, row_write};
use rule::{add_path_checks, add_port_checks, place_in};
use tables::rows::{
    PATH_RULE, PORT_RULE, RULE_KEY, RULE_RIGHTS, RULE_WIDTH, RULESET_COUNT, RULESET_HEAD,
    RULESET_WIDTH, object_of, ruleset_count,
};

fn join_rule(rulesets: &mut [u64], r: u64, i: usize, rights: Rights)
    requires { i < 2 ^ 60 }
    ensures { rulesets.new ≡ joined rulesets.old r i rights.0 }
{
    let k = RULESET_HEAD + (RULE_WIDTH * i + RULE_RIGHTS);
    let old = Rights(row_read(rulesets, RULESET_WIDTH, r as usize, k));
    let both = old.join(rights);
    row_write(rulesets, RULESET_WIDTH, r as usize, k, both.0);
}

fn append_rule(rulesets: &mut [u64], r: u64, i: u64, ty: u64, key: u64, rights: Rights)
    requires { i < max_rules }
    ensures { rulesets.new ≡ appended rulesets.old r i ty key rights.0 }
{
    let k = RULESET_HEAD + RULE_WIDTH * (i as usize);
    row_write(rulesets, RULESET_WIDTH, r as usize, k, ty);
    row_write(rulesets, RULESET_WIDTH, r as usize, k + RULE_KEY, key);
    row_write(
        rulesets,
        RULESET_WIDTH,
        r as usize,
        k + RULE_RIGHTS,
        rights.0,
    );
    row_write(rulesets, RULESET_WIDTH, r as usize, RULESET_COUNT, i + 1);
}

// Adds the rule: joins the rights of the one for the key, or appends a new one if there is room.
fn apply_add(rulesets: &mut [u64], r: u64, ty: u64, key: u64, rights: Rights)
    ensures { rulesets.new ≡ added rulesets.old r ty key rights.0 }
{
    let place = place_in(rulesets, r, ty, key);
    let count = ruleset_count(rulesets, r);
    if count > place as u64 {
        join_rule(rulesets, r, place, rights);
        return;
    }
    if count < MAX_RULES as u64 {
        append_rule(rulesets, r, count, ty, key, rights);
    }
}

// Adds a rule for the entry's object.
pub fn add_path(
    system: &[u64],
    entries: &[u64],
    rulesets: &mut [u64],
    layers: &[u64],
    pool: &[u64],
    threads: &[u64],
    r: u64,
    e: u64,
    rights: Rights,
    flags: u64,
) -> Reply
    ensures { outcome result (tables system.now entries.now rulesets.new layers.now pool.now threads.now) ≡ answer (tables system.now entries.now rulesets.old layers.now pool.now threads.now) (add_path_checks (tables system.now entries.now rulesets.old layers.now pool.now threads.now) r e rights.0 flags) (add_done (tables system.now entries.now rulesets.old layers.now pool.now threads.now) r path_rule (object entries.now e) rights.0) }
{
    let a = add_path_checks(
        system, entries, rulesets, layers, pool, threads, r, e, rights, flags,
    );
    if a != 0 {
        return Reply::Refused(Errno(a));
    }
    apply_add(rulesets, r, PATH_RULE, object_of(entries, e), rights);
    Reply::Done(0)
}

// Adds a rule for a port.
pub fn add_port(
    system: &[u64],
    entries: &[u64],
    rulesets: &mut [u64],
    layers: &[u64],
    pool: &[u64],
    threads: &[u64],
    r: u64,
    port: u64,
    rights: Rights,
    flags: u64,
) -> Reply
    ensures { outcome result (tables system.now entries.now rulesets.new layers.now pool.now threads.now) ≡ answer (tables system.now entries.now rulesets.old layers.now pool.now threads.now) (add_port_checks (tables system.now entries.now rulesets.old layers.now pool.now threads.now) r port rights.0 flags) (add_done (tables system.now entries.now rulesets.old layers.now pool.now threads.now) r port_rule port rights.0) }
{
    let a = add_port_checks(
        system, entries, rulesets, layers, pool, threads, r, port, rights, flags,
    );
    if a != 0 {
        return Reply::Refused(Errno(a));
    }
    apply_add(rulesets, r, PORT_RULE, port, rights);
    Reply::Done(0)
}
