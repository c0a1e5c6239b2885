// The entry points of the calls that move entries, with a log: the change of a call goes into the log as a field. A change whose field has no room is
// ENOSPC, after the call's own refusals; a call that changes nothing needs no room. A refusal changes no cell, and no byte of the log.
#![tactic(auto)]

ghost use Rattle.tables.specs.Tables.{tables};
ghost use Rattle.std.specs.Prelude.{◌≡◌};
ghost use Rattle.tree.specs.Entries.{replacing, same_object};
ghost use Rattle.names.specs.Names.{bearer};
ghost use Rattle.named.specs.Named.{with_names, named_outcome};
ghost use Rattle.tree_log.specs.Changes.{rename, exchange};
ghost use Rattle.tree_log.specs.Logged.{logged_outcome, logged_log};
ghost use Rattle.log_calls.specs.Logs.{log_of};

use access::errno::Reply;
use log_append::{EXCHANGE_FIXED, RENAME_FIXED, append_exchange, append_rename, has_room};
use log_full::{exchange_full, rename_full};
use name_bearer::bearer;
use tree::entries::same_object;
use tree_replaced::is_same;

// The name is already that of an entry of the same object: a rename then changes nothing.
fn renames_itself(entries: &[u64], names: &[u8], s: u64, d: u64, name: &[u8]) -> bool
    ensures { result ≡ replacing (bearer entries.now names.now d name.now) (same_object entries.now s) }
{
    let x = bearer(entries, names, d, name);
    is_same(entries, s, x)
}

// Moves an entry to a directory under a name, in place of the entry that bears it there: EIO, ESRCH, ENOENT, EBUSY, ENOTDIR, ENAMETOOLONG, EINVAL, EACCES,
// EXDEV, then 0 for two entries of one object, ENOTDIR, EISDIR, ENOTEMPTY, ENOSPC.
pub fn rename(
    system: &[u64],
    entries: &mut [u64],
    rulesets: &[u64],
    layers: &[u64],
    pool: &[u64],
    threads: &[u64],
    names: &mut [u8],
    t: u64,
    s: u64,
    d: u64,
    name: &[u8],
    log: &mut [u8],
    used: &mut u64,
) -> Reply
    ensures reply { named_outcome result (with_names (tables system.now entries.new rulesets.now layers.now pool.now threads.now) names.new) ≡ logged_outcome (with_names (tables system.now entries.old rulesets.now layers.now pool.now threads.now) names.old) (log_of log.old used.old) t (rename s d name.now) }
    ensures log { log_of log.new used.new ≡ logged_log (with_names (tables system.now entries.old rulesets.now layers.now pool.now threads.now) names.old) (log_of log.old used.old) t (rename s d name.now) }
{
    let idle = renames_itself(entries, names, s, d, name);
    if !idle {
        if !has_room(log, *used, RENAME_FIXED, name.len()) {
            return rename_full(
                system, entries, rulesets, layers, pool, threads, names, t, s, d, name,
            );
        }
    }
    let reply = syscalls_moves::rename(
        system, entries, rulesets, layers, pool, threads, names, t, s, d, name,
    );
    if idle {
        return reply;
    }
    if reply.is_refused() {
        return reply;
    }
    append_rename(log, used, s, d, name);
    reply
}

// Exchanges an entry with one of a directory, and their names: EIO, ESRCH, ENOENT, EBUSY, ENOTDIR, EINVAL, EACCES, EXDEV, then 0 for two entries of one object,
// ENOSPC.
pub fn exchange(
    system: &[u64],
    entries: &mut [u64],
    rulesets: &[u64],
    layers: &[u64],
    pool: &[u64],
    threads: &[u64],
    names: &mut [u8],
    t: u64,
    s: u64,
    d: u64,
    x: u64,
    log: &mut [u8],
    used: &mut u64,
) -> Reply
    ensures reply { named_outcome result (with_names (tables system.now entries.new rulesets.now layers.now pool.now threads.now) names.new) ≡ logged_outcome (with_names (tables system.now entries.old rulesets.now layers.now pool.now threads.now) names.old) (log_of log.old used.old) t (exchange s d x) }
    ensures log { log_of log.new used.new ≡ logged_log (with_names (tables system.now entries.old rulesets.now layers.now pool.now threads.now) names.old) (log_of log.old used.old) t (exchange s d x) }
{
    let same = same_object(entries, s, x);
    if !same {
        if !has_room(log, *used, EXCHANGE_FIXED, 0) {
            return exchange_full(
                system, entries, rulesets, layers, pool, threads, names, t, s, d, x,
            );
        }
    }
    let reply = syscalls_moves::exchange(
        system, entries, rulesets, layers, pool, threads, names, t, s, d, x,
    );
    if same {
        return reply;
    }
    if reply.is_refused() {
        return reply;
    }
    append_exchange(log, used, s, d, x);
    reply
}
