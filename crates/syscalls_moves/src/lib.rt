// The entry points of the calls that link and move entries, on tables with names: each tests the tables first and answers EIO if they are not sound, then does
// the call. A refusal changes no cell.
#![tactic(auto)]

ghost use Rattle.tables.specs.Tables.{tables};
ghost use Rattle.std.specs.Prelude.{◌≡◌};
ghost use Rattle.named.specs.Named.{with_names, named_outcome};
ghost use Rattle.named.specs.Tree.{link_named, rename_named, exchange_named};

use access::errno::{Errno, Reply};
use named_sound::named_sound;

// Links an entry into a directory under a name: EIO, ESRCH, ENOENT, EBUSY, ENOTDIR, ENAMETOOLONG, EINVAL, EEXIST, EPERM, EACCES, EXDEV, ENOSPC. Answers the new
// entry's number.
pub fn link(
    system: &[u64],
    entries: &mut [u64],
    rulesets: &[u64],
    layers: &[u64],
    pool: &[u64],
    threads: &[u64],
    names: &mut [u8],
    t: u64,
    s: u64,
    d: u64,
    name: &[u8],
) -> Reply
    ensures { named_outcome result (with_names (tables system.now entries.new rulesets.now layers.now pool.now threads.now) names.new) ≡ link_named (with_names (tables system.now entries.old rulesets.now layers.now pool.now threads.now) names.old) t s d name.now }
{
    if !named_sound(system, entries, rulesets, layers, pool, threads, names) {
        return Reply::Refused(Errno::EIO);
    }
    named_link::link(
        system, entries, rulesets, layers, pool, threads, names, t, s, d, name,
    )
}

// Moves an entry to a directory under a name, in place of the entry that bears it there: EIO, ESRCH, ENOENT, EBUSY, ENOTDIR, ENAMETOOLONG, EINVAL, EACCES,
// EXDEV, then 0 for two entries of one object, ENOTDIR, EISDIR, ENOTEMPTY.
pub fn rename(
    system: &[u64],
    entries: &mut [u64],
    rulesets: &[u64],
    layers: &[u64],
    pool: &[u64],
    threads: &[u64],
    names: &mut [u8],
    t: u64,
    s: u64,
    d: u64,
    name: &[u8],
) -> Reply
    ensures { named_outcome result (with_names (tables system.now entries.new rulesets.now layers.now pool.now threads.now) names.new) ≡ rename_named (with_names (tables system.now entries.old rulesets.now layers.now pool.now threads.now) names.old) t s d name.now }
{
    if !named_sound(system, entries, rulesets, layers, pool, threads, names) {
        return Reply::Refused(Errno::EIO);
    }
    named_moves::rename(
        system, entries, rulesets, layers, pool, threads, names, t, s, d, name,
    )
}

// Exchanges an entry with one of a directory, and their names: EIO, ESRCH, ENOENT, EBUSY, ENOTDIR, EINVAL, EACCES, EXDEV.
pub fn exchange(
    system: &[u64],
    entries: &mut [u64],
    rulesets: &[u64],
    layers: &[u64],
    pool: &[u64],
    threads: &[u64],
    names: &mut [u8],
    t: u64,
    s: u64,
    d: u64,
    x: u64,
) -> Reply
    ensures { named_outcome result (with_names (tables system.now entries.new rulesets.now layers.now pool.now threads.now) names.new) ≡ exchange_named (with_names (tables system.now entries.old rulesets.now layers.now pool.now threads.now) names.old) t s d x }
{
    if !named_sound(system, entries, rulesets, layers, pool, threads, names) {
        return Reply::Refused(Errno::EIO);
    }
    named_moves::exchange(
        system, entries, rulesets, layers, pool, threads, names, t, s, d, x,
    )
}
