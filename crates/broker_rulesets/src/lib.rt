// The entry points of rulesets and rules: each tests the tables first and answers EIO if they are not sound, then does the call. A refusal changes no cell.
#![tactic(auto)]

ghost use Rattle.tables.specs.Tables.{tables};
ghost use Rattle.std.specs.Prelude.{◌≡◌};
ghost use Rattle.tables.specs.Outcome.{outcome};
ghost use Rattle.ruleset.specs.Create.{created, closed};
ghost use Rattle.rule.specs.Rule.{path_added, port_added};

use access::errno::{Errno, Reply};
use access::rights::Rights;

// Opens a ruleset: EIO, EOPNOTSUPP, EINVAL, E2BIG, EINVAL, ENOMSG, EMFILE. Answers its number.
pub fn create_ruleset(
    system: &[u64],
    entries: &[u64],
    rulesets: &mut [u64],
    layers: &[u64],
    pool: &[u64],
    threads: &[u64],
    bytes: &[u8],
    flags: u64,
) -> Reply
    ensures answer { outcome result (tables system.now entries.now rulesets.new layers.now pool.now threads.now) ≡ created (tables system.now entries.now rulesets.old layers.now pool.now threads.now) bytes.now flags }
    ensures bytes { bytes.now ≡ bytes.now }
{
    if !sound::is_sound(system, entries, rulesets, layers, pool, threads) {
        return Reply::Refused(Errno::EIO);
    }
    ruleset_apply::create(
        system, entries, rulesets, layers, pool, threads, bytes, flags,
    )
}

// Closes a ruleset: EIO, EBADF.
pub fn close_ruleset(
    system: &[u64],
    entries: &[u64],
    rulesets: &mut [u64],
    layers: &[u64],
    pool: &[u64],
    threads: &[u64],
    r: u64,
) -> Reply
    ensures { outcome result (tables system.now entries.now rulesets.new layers.now pool.now threads.now) ≡ closed (tables system.now entries.now rulesets.old layers.now pool.now threads.now) r }
{
    if !sound::is_sound(system, entries, rulesets, layers, pool, threads) {
        return Reply::Refused(Errno::EIO);
    }
    ruleset_apply::close(system, entries, rulesets, layers, pool, threads, r)
}

// Adds a rule for an entry's object: EIO, EOPNOTSUPP, EINVAL, EBADF, ENOMSG, EINVAL, EBADF, EPERM, EINVAL, E2BIG.
pub fn add_path_rule(
    system: &[u64],
    entries: &[u64],
    rulesets: &mut [u64],
    layers: &[u64],
    pool: &[u64],
    threads: &[u64],
    r: u64,
    e: u64,
    rights: Rights,
    flags: u64,
) -> Reply
    ensures { outcome result (tables system.now entries.now rulesets.new layers.now pool.now threads.now) ≡ path_added (tables system.now entries.now rulesets.old layers.now pool.now threads.now) r e rights.0 flags }
{
    if !sound::is_sound(system, entries, rulesets, layers, pool, threads) {
        return Reply::Refused(Errno::EIO);
    }
    rule_apply::add_path(
        system, entries, rulesets, layers, pool, threads, r, e, rights, flags,
    )
}

// Adds a rule for a port: EIO, EOPNOTSUPP, EINVAL, EBADF, ENOMSG, EINVAL, E2BIG.
pub fn add_port_rule(
    system: &[u64],
    entries: &[u64],
    rulesets: &mut [u64],
    layers: &[u64],
    pool: &[u64],
    threads: &[u64],
    r: u64,
    port: u64,
    rights: Rights,
    flags: u64,
) -> Reply
    ensures { outcome result (tables system.now entries.now rulesets.new layers.now pool.now threads.now) ≡ port_added (tables system.now entries.now rulesets.old layers.now pool.now threads.now) r port rights.0 flags }
{
    if !sound::is_sound(system, entries, rulesets, layers, pool, threads) {
        return Reply::Refused(Errno::EIO);
    }
    rule_apply::add_port(
        system, entries, rulesets, layers, pool, threads, r, port, rights, flags,
    )
}
