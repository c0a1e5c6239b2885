// The entry points of the calls that make and remove entries, with a log: the change of a call goes into the log as a field. A change whose field has no room is
// ENOSPC, after the call's own refusals. A refusal changes no cell, and no byte of the log.
#![tactic(auto)]

ghost use Rattle.tables.specs.Tables.{tables};
ghost use Rattle.std.specs.Prelude.{◌≡◌};
ghost use Rattle.named.specs.Named.{with_names, named_outcome};
ghost use Rattle.tree_log.specs.Changes.{create, remove};
ghost use Rattle.tree_log.specs.Logged.{logged_outcome, logged_log};
ghost use Rattle.log_calls.specs.Logs.{log_of};

use access::errno::Reply;
use log_append::{CREATE_FIXED, REMOVE_FIXED, append_create, append_remove, has_room};
use log_full::{create_full, remove_full};

// Makes an entry of a kind with a name in a directory: EIO, ESRCH, ENOENT, ENOTDIR, ENAMETOOLONG, EINVAL, EEXIST, EINVAL, EACCES, ENOSPC. Answers its number.
pub fn create(
    system: &mut [u64],
    entries: &mut [u64],
    rulesets: &[u64],
    layers: &[u64],
    pool: &[u64],
    threads: &[u64],
    names: &mut [u8],
    t: u64,
    d: u64,
    k: u64,
    name: &[u8],
    log: &mut [u8],
    used: &mut u64,
) -> Reply
    ensures reply { named_outcome result (with_names (tables system.new entries.new rulesets.now layers.now pool.now threads.now) names.new) ≡ logged_outcome (with_names (tables system.old entries.old rulesets.now layers.now pool.now threads.now) names.old) (log_of log.old used.old) t (create k d name.now) }
    ensures log { log_of log.new used.new ≡ logged_log (with_names (tables system.old entries.old rulesets.now layers.now pool.now threads.now) names.old) (log_of log.old used.old) t (create k d name.now) }
{
    if !has_room(log, *used, CREATE_FIXED, name.len()) {
        return create_full(
            system, entries, rulesets, layers, pool, threads, names, t, d, k, name,
        );
    }
    let reply = syscalls_tree::create(
        system, entries, rulesets, layers, pool, threads, names, t, d, k, name,
    );
    if reply.is_refused() {
        return reply;
    }
    append_create(log, used, k, d, name);
    reply
}

// Removes an entry: EIO, ESRCH, ENOENT, EBUSY, EACCES, ENOTEMPTY, ENOSPC.
pub fn remove(
    system: &[u64],
    entries: &mut [u64],
    rulesets: &[u64],
    layers: &[u64],
    pool: &[u64],
    threads: &[u64],
    names: &mut [u8],
    t: u64,
    e: u64,
    log: &mut [u8],
    used: &mut u64,
) -> Reply
    ensures reply { named_outcome result (with_names (tables system.now entries.new rulesets.now layers.now pool.now threads.now) names.new) ≡ logged_outcome (with_names (tables system.now entries.old rulesets.now layers.now pool.now threads.now) names.old) (log_of log.old used.old) t (remove e) }
    ensures log { log_of log.new used.new ≡ logged_log (with_names (tables system.now entries.old rulesets.now layers.now pool.now threads.now) names.old) (log_of log.old used.old) t (remove e) }
{
    if !has_room(log, *used, REMOVE_FIXED, 0) {
        return remove_full(
            system, entries, rulesets, layers, pool, threads, names, t, e,
        );
    }
    let reply = syscalls_tree::remove(
        system, entries, rulesets, layers, pool, threads, names, t, e,
    );
    if reply.is_refused() {
        return reply;
    }
    append_remove(log, used, e);
    reply
}
