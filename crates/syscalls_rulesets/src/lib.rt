// The entry points of rulesets and rules, on tables with names: each answers EIO if the tables are not sound, then does the call. A refusal changes no cell.
#![tactic(auto)]

ghost use Rattle.tables.specs.Tables.{tables};
ghost use Rattle.std.specs.Prelude.{◌≡◌};
ghost use Rattle.ruleset.specs.Create.{created, closed};
ghost use Rattle.rule.specs.Rule.{path_added, port_added};
ghost use Rattle.named.specs.Named.{with_names, named_outcome, lift};

use access::errno::{Errno, Reply};
use access::rights::Rights;
use sound_names::names_sound;

// Opens a ruleset: EIO, EOPNOTSUPP, EINVAL, E2BIG, EINVAL, ENOMSG, EMFILE. Answers its number.
pub fn create_ruleset(
    system: &[u64],
    entries: &[u64],
    rulesets: &mut [u64],
    layers: &[u64],
    pool: &[u64],
    threads: &[u64],
    names: &[u8],
    bytes: &[u8],
    flags: u64,
) -> Reply
    ensures answer { named_outcome result (with_names (tables system.now entries.now rulesets.new layers.now pool.now threads.now) names.now) ≡ lift (with_names (tables system.now entries.now rulesets.old layers.now pool.now threads.now) names.now) (created (with_names (tables system.now entries.now rulesets.old layers.now pool.now threads.now) names.now).core bytes.now flags) }
    ensures bytes { bytes.now ≡ bytes.now }
{
    if !names_sound(entries, names) {
        return Reply::Refused(Errno::EIO);
    }
    broker_rulesets::create_ruleset(
        system, entries, rulesets, layers, pool, threads, bytes, flags,
    )
}

// Closes a ruleset: EIO, EBADF.
pub fn close_ruleset(
    system: &[u64],
    entries: &[u64],
    rulesets: &mut [u64],
    layers: &[u64],
    pool: &[u64],
    threads: &[u64],
    names: &[u8],
    r: u64,
) -> Reply
    ensures { named_outcome result (with_names (tables system.now entries.now rulesets.new layers.now pool.now threads.now) names.now) ≡ lift (with_names (tables system.now entries.now rulesets.old layers.now pool.now threads.now) names.now) (closed (with_names (tables system.now entries.now rulesets.old layers.now pool.now threads.now) names.now).core r) }
{
    if !names_sound(entries, names) {
        return Reply::Refused(Errno::EIO);
    }
    broker_rulesets::close_ruleset(system, entries, rulesets, layers, pool, threads, r)
}

// Adds a rule for an entry's object: EIO, EOPNOTSUPP, EINVAL, EBADF, ENOMSG, EINVAL, EBADF, EPERM, EINVAL, E2BIG.
pub fn add_path_rule(
    system: &[u64],
    entries: &[u64],
    rulesets: &mut [u64],
    layers: &[u64],
    pool: &[u64],
    threads: &[u64],
    names: &[u8],
    r: u64,
    e: u64,
    rights: Rights,
    flags: u64,
) -> Reply
    ensures { named_outcome result (with_names (tables system.now entries.now rulesets.new layers.now pool.now threads.now) names.now) ≡ lift (with_names (tables system.now entries.now rulesets.old layers.now pool.now threads.now) names.now) (path_added (with_names (tables system.now entries.now rulesets.old layers.now pool.now threads.now) names.now).core r e rights.0 flags) }
{
    if !names_sound(entries, names) {
        return Reply::Refused(Errno::EIO);
    }
    broker_rulesets::add_path_rule(
        system, entries, rulesets, layers, pool, threads, r, e, rights, flags,
    )
}

// Adds a rule for a port: EIO, EOPNOTSUPP, EINVAL, EBADF, ENOMSG, EINVAL, E2BIG.
pub fn add_port_rule(
    system: &[u64],
    entries: &[u64],
    rulesets: &mut [u64],
    layers: &[u64],
    pool: &[u64],
    threads: &[u64],
    names: &[u8],
    r: u64,
    port: u64,
    rights: Rights,
    flags: u64,
) -> Reply
    ensures { named_outcome result (with_names (tables system.now entries.now rulesets.new layers.now pool.now threads.now) names.now) ≡ lift (with_names (tables system.now entries.now rulesets.old layers.now pool.now threads.now) names.now) (port_added (with_names (tables system.now entries.now rulesets.old layers.now pool.now threads.now) names.now).core r port rights.0 flags) }
{
    if !names_sound(entries, names) {
        return Reply::Refused(Errno::EIO);
    }
    broker_rulesets::add_port_rule(
        system, entries, rulesets, layers, pool, threads, r, port, rights, flags,
    )
}
