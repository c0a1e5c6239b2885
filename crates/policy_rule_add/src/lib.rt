// One rule of a policy file, added to a ruleset of sound tables: no call tests soundness again.
#![tactic(auto)]

ghost use Rattle.std.specs.Prelude.{◌≡◌, true, min, ◌<◌, get_or};
ghost use Rattle.tables.specs.Tables.{tables};
ghost use Rattle.ruleset.specs.Attribute.{number};
ghost use Rattle.policy.specs.Grammar.{rights_size};
ghost use Rattle.policy.specs.Meaning.{path, port};
ghost use Rattle.named.specs.Named.{with_names, named_sound};
ghost use Rattle.named.specs.Policy.{add_rule};
ghost use Rattle.policy_rule_add.specs.Added.{rule_in, Soundly};

use access::errno::Reply;
use access::rights::Rights;
use path_lookup::lookup;
use policy::{PATH_TAG, RIGHTS_SIZE};
use rule_apply::{add_path, add_port};
use ruleset::attribute::mask;

fn byte(bytes: &[u8], i: usize) -> u64
    ensures { (result ≡ get_or bytes.now i 0) × (result < 256) }
{
    if i < bytes.len() { bytes[i] as u64 } else { 0 }
}

// The port of a rule: two bytes behind its rights.
fn port_of(value: &[u8]) -> u64
    ensures { result ≡ number value.now rights_size 2 }
{
    byte(value, RIGHTS_SIZE) + 256 * byte(value, RIGHTS_SIZE + 1)
}

// Where the path starts in a value of `len` bytes.
fn path_start(len: usize) -> usize
    ensures { result ≡ min rights_size len }
{
    if len < RIGHTS_SIZE {
        return len;
    }
    RIGHTS_SIZE
}

// Looks a path up, then adds a rule for the entry that it names.
fn add_path_rule(
    system: &[u64],
    entries: &[u64],
    rulesets: &mut [u64],
    layers: &[u64],
    pool: &[u64],
    threads: &[u64],
    names: &[u8],
    r: u64,
    rights: Rights,
    bytes: &[u8],
) -> Reply
    requires { named_sound (with_names (tables system.now entries.now rulesets.old layers.now pool.now threads.now) names.now) ≡ true }
    ensures { Soundly (add_rule r (with_names (tables system.now entries.now rulesets.old layers.now pool.now threads.now) names.now) (path rights.0 bytes.now)) result (with_names (tables system.now entries.now rulesets.new layers.now pool.now threads.now) names.now) }
{
    match lookup(entries, names, bytes) {
        Reply::Done(e) => {
            add_path(
                system, entries, rulesets, layers, pool, threads, r, e, rights, 0,
            )
        }
        Reply::Refused(e) => Reply::Refused(e),
        Reply::Denied(e, l, s) => Reply::Denied(e, l, s),
    }
}

// Adds a rule for a port.
fn add_port_rule(
    system: &[u64],
    entries: &[u64],
    rulesets: &mut [u64],
    layers: &[u64],
    pool: &[u64],
    threads: &[u64],
    names: &[u8],
    r: u64,
    rights: Rights,
    p: u64,
) -> Reply
    requires { named_sound (with_names (tables system.now entries.now rulesets.old layers.now pool.now threads.now) names.now) ≡ true }
    ensures { Soundly (add_rule r (with_names (tables system.now entries.now rulesets.old layers.now pool.now threads.now) names.now) (port rights.0 p)) result (with_names (tables system.now entries.now rulesets.new layers.now pool.now threads.now) names.now) }
{
    add_port(
        system, entries, rulesets, layers, pool, threads, r, p, rights, 0,
    )
}

// Adds the rule of a field with the tag of a path rule or of a port rule.
pub fn add_rule(
    system: &[u64],
    entries: &[u64],
    rulesets: &mut [u64],
    layers: &[u64],
    pool: &[u64],
    threads: &[u64],
    names: &[u8],
    r: u64,
    tag: u8,
    value: &[u8],
) -> Reply
    requires { named_sound (with_names (tables system.now entries.now rulesets.old layers.now pool.now threads.now) names.now) ≡ true }
    ensures { Soundly (add_rule r (with_names (tables system.now entries.now rulesets.old layers.now pool.now threads.now) names.now) (rule_in tag value.now)) result (with_names (tables system.now entries.now rulesets.new layers.now pool.now threads.now) names.now) }
{
    let rights = Rights(mask(value, 0));
    if tag == PATH_TAG {
        let from = path_start(value.len());
        return add_path_rule(
            system,
            entries,
            rulesets,
            layers,
            pool,
            threads,
            names,
            r,
            rights,
            &value[from..],
        );
    }
    add_port_rule(
        system,
        entries,
        rulesets,
        layers,
        pool,
        threads,
        names,
        r,
        rights,
        port_of(value),
    )
}
