// The entry points of link, rename and exchange: each tests the tables first and answers EIO if they are not sound, then does the call. A refusal changes no cell.
#![tactic(auto)]

ghost use Rattle.tables.specs.Tables.{tables};
ghost use Rattle.std.specs.Prelude.{◌≡◌};
ghost use Rattle.tables.specs.Outcome.{outcome};
ghost use Rattle.tree.specs.Link.{tree_link};
ghost use Rattle.tree.specs.Rename.{tree_rename};
ghost use Rattle.tree.specs.Exchange.{tree_exchange};

use access::errno::{Errno, Reply};
use tree::Replaced;

// Links an entry into a directory: EIO, ESRCH, ENOENT, EBUSY, ENOTDIR, EPERM, EACCES, EXDEV, ENOSPC. Answers the new entry's number.
pub fn link(
    system: &[u64],
    entries: &mut [u64],
    rulesets: &[u64],
    layers: &[u64],
    pool: &[u64],
    threads: &[u64],
    t: u64,
    s: u64,
    d: u64,
) -> Reply
    ensures { outcome result (tables system.now entries.new rulesets.now layers.now pool.now threads.now) ≡ tree_link (tables system.now entries.old rulesets.now layers.now pool.now threads.now) t s d }
{
    if !sound::is_sound(system, entries, rulesets, layers, pool, threads) {
        return Reply::Refused(Errno::EIO);
    }
    tree_link::link(system, entries, rulesets, layers, pool, threads, t, s, d)
}

// Moves an entry to a directory, in place of another or of none: EIO, ESRCH, ENOENT, EBUSY, ENOTDIR, EINVAL, EACCES, EXDEV, then
// 0 for two entries of one object, ENOTDIR, EISDIR, ENOTEMPTY.
pub fn rename(
    system: &[u64],
    entries: &mut [u64],
    rulesets: &[u64],
    layers: &[u64],
    pool: &[u64],
    threads: &[u64],
    t: u64,
    s: u64,
    d: u64,
    x: Replaced,
) -> Reply
    ensures { outcome result (tables system.now entries.new rulesets.now layers.now pool.now threads.now) ≡ tree_rename (tables system.now entries.old rulesets.now layers.now pool.now threads.now) t s d x }
{
    if !sound::is_sound(system, entries, rulesets, layers, pool, threads) {
        return Reply::Refused(Errno::EIO);
    }
    tree_rename::rename(system, entries, rulesets, layers, pool, threads, t, s, d, x)
}

// Exchanges an entry with one of a directory: EIO, ESRCH, ENOENT, EBUSY, ENOTDIR, EINVAL, EACCES, EXDEV.
pub fn exchange(
    system: &[u64],
    entries: &mut [u64],
    rulesets: &[u64],
    layers: &[u64],
    pool: &[u64],
    threads: &[u64],
    t: u64,
    s: u64,
    d: u64,
    x: u64,
) -> Reply
    ensures { outcome result (tables system.now entries.new rulesets.now layers.now pool.now threads.now) ≡ tree_exchange (tables system.now entries.old rulesets.now layers.now pool.now threads.now) t s d x }
{
    if !sound::is_sound(system, entries, rulesets, layers, pool, threads) {
        return Reply::Refused(Errno::EIO);
    }
    tree_exchange::exchange(system, entries, rulesets, layers, pool, threads, t, s, d, x)
}
