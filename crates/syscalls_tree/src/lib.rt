// The entry points of the calls that make and remove entries, on tables with names: each tests the tables first and answers EIO if they are not sound, then does
// the call. A refusal changes no cell.
#![tactic(auto)]

ghost use Rattle.tables.specs.Tables.{tables};
ghost use Rattle.std.specs.Prelude.{◌≡◌};
ghost use Rattle.named.specs.Named.{with_names, named_outcome};
ghost use Rattle.named.specs.Tree.{create_named, remove_named};

use access::errno::{Errno, Reply};
use named_sound::named_sound;

// Makes an entry of a kind with a name in a directory: EIO, ESRCH, ENOENT, ENOTDIR, ENAMETOOLONG, EINVAL, EEXIST, EINVAL, EACCES, ENOSPC. Answers its number.
pub fn create(
    system: &mut [u64],
    entries: &mut [u64],
    rulesets: &[u64],
    layers: &[u64],
    pool: &[u64],
    threads: &[u64],
    names: &mut [u8],
    t: u64,
    d: u64,
    k: u64,
    name: &[u8],
) -> Reply
    ensures { named_outcome result (with_names (tables system.new entries.new rulesets.now layers.now pool.now threads.now) names.new) ≡ create_named (with_names (tables system.old entries.old rulesets.now layers.now pool.now threads.now) names.old) t d k name.now }
{
    if !named_sound(system, entries, rulesets, layers, pool, threads, names) {
        return Reply::Refused(Errno::EIO);
    }
    named_tree::create(
        system, entries, rulesets, layers, pool, threads, names, t, d, k, name,
    )
}

// Removes an entry: EIO, ESRCH, ENOENT, EBUSY, EACCES, ENOTEMPTY.
pub fn remove(
    system: &[u64],
    entries: &mut [u64],
    rulesets: &[u64],
    layers: &[u64],
    pool: &[u64],
    threads: &[u64],
    names: &mut [u8],
    t: u64,
    e: u64,
) -> Reply
    ensures { named_outcome result (with_names (tables system.now entries.new rulesets.now layers.now pool.now threads.now) names.new) ≡ remove_named (with_names (tables system.now entries.old rulesets.now layers.now pool.now threads.now) names.old) t e }
{
    if !named_sound(system, entries, rulesets, layers, pool, threads, names) {
        return Reply::Refused(Errno::EIO);
    }
    named_tree::remove(
        system, entries, rulesets, layers, pool, threads, names, t, e,
    )
}
