// When a rule, for a path or a port, is refused.
#![tactic(auto)]

ghost use Rattle.tables.specs.Tables.{tables};
ghost use Rattle.std.specs.Prelude.{◌≡◌, ◌<◌};
ghost use Rattle.laws.specs.Refusals.{first};
ghost use Rattle.rule.specs.Rule.{place_in, add_form, is_full, sweeping, path_form, port_form, add_path_checks, add_port_checks};

use access::errno::Errno;
use access::limits::{MAX_PORT, MAX_RULES};
use access::rights::Rights;
use judge::rules::{rule_place, ruleset_rules};
use tables::rows::{
    PATH_RULE, PORT_RULE, entry_live, level_of, object_of, past_file_set, ruleset_count,
    ruleset_fs, ruleset_net, ruleset_open,
};

fn add_form(system: &[u64], rulesets: &[u64], r: u64, rights: Rights, flags: u64) -> u64
    ensures { result ≡ first (add_form system.now rulesets.now r rights.0 flags) }
{
    if level_of(system) == 0 {
        return Errno::EOPNOTSUPP.0;
    }
    if flags != 0 {
        return Errno::EINVAL.0;
    }
    if !ruleset_open(rulesets, r) {
        return Errno::EBADF.0;
    }
    if rights.is_empty() {
        return Errno::ENOMSG.0;
    }
    0
}

// Where the rule for the key stands in the ruleset; the number of its rules if there is none.
pub fn place_in(rulesets: &[u64], r: u64, ty: u64, key: u64) -> usize
    ensures { result ≡ place_in rulesets.now r ty key }
{
    rule_place(ruleset_rules(rulesets, r), ty, key)
}

fn is_full(rulesets: &[u64], r: u64, ty: u64, key: u64) -> bool
    ensures { result ≡ is_full rulesets.now r ty key }
{
    let count = ruleset_count(rulesets, r);
    if count > place_in(rulesets, r, ty, key) as u64 {
        return false;
    }
    count >= MAX_RULES as u64
}

// A rule on the root that asks for a right of the write set.
fn is_sweeping(e: u64, rights: Rights) -> bool
    ensures { result ≡ sweeping e rights.0 }
{
    if e != 0 {
        return false;
    }
    !rights.meet(Rights::WRITE).is_empty()
}

fn path_form(entries: &[u64], rulesets: &[u64], r: u64, e: u64, rights: Rights) -> u64
    ensures { result ≡ first (path_form entries.now rulesets.now r e rights.0) }
{
    let fs = ruleset_fs(rulesets, r);
    if !fs.contains(rights) {
        return Errno::EINVAL.0;
    }
    if !entry_live(entries, e) {
        return Errno::EBADF.0;
    }
    if is_sweeping(e, rights) {
        return Errno::EPERM.0;
    }
    if past_file_set(entries, e, rights) {
        return Errno::EINVAL.0;
    }
    if is_full(rulesets, r, PATH_RULE, object_of(entries, e)) {
        return Errno::E2BIG.0;
    }
    0
}

fn port_form(rulesets: &[u64], r: u64, port: u64, rights: Rights) -> u64
    ensures { result ≡ first (port_form rulesets.now r port rights.0) }
{
    let net = ruleset_net(rulesets, r);
    if !net.contains(rights) {
        return Errno::EINVAL.0;
    }
    if MAX_PORT < port {
        return Errno::EINVAL.0;
    }
    if is_full(rulesets, r, PORT_RULE, port) {
        return Errno::E2BIG.0;
    }
    0
}

pub fn add_path_checks(
    system: &[u64],
    entries: &[u64],
    rulesets: &[u64],
    layers: &[u64],
    pool: &[u64],
    threads: &[u64],
    r: u64,
    e: u64,
    rights: Rights,
    flags: u64,
) -> u64
    ensures { result ≡ first (add_path_checks (tables system.now entries.now rulesets.now layers.now pool.now threads.now) r e rights.0 flags) }
{
    let a = add_form(system, rulesets, r, rights, flags);
    if a != 0 {
        return a;
    }
    path_form(entries, rulesets, r, e, rights)
}

pub fn add_port_checks(
    system: &[u64],
    entries: &[u64],
    rulesets: &[u64],
    layers: &[u64],
    pool: &[u64],
    threads: &[u64],
    r: u64,
    port: u64,
    rights: Rights,
    flags: u64,
) -> u64
    ensures { result ≡ first (add_port_checks (tables system.now entries.now rulesets.now layers.now pool.now threads.now) r port rights.0 flags) }
{
    let a = add_form(system, rulesets, r, rights, flags);
    if a != 0 {
        return a;
    }
    port_form(rulesets, r, port, rights)
}
