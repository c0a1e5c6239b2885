// The entry point of the call that links entries, with a log: its change goes into the log as a field. A change whose field has no room is ENOSPC, after the call's
// own refusals. A refusal changes no cell, and no byte of the log.
#![tactic(auto)]

ghost use Rattle.tables.specs.Tables.{tables};
ghost use Rattle.std.specs.Prelude.{◌≡◌};
ghost use Rattle.named.specs.Named.{with_names, named_outcome};
ghost use Rattle.tree_log.specs.Changes.{link};
ghost use Rattle.tree_log.specs.Logged.{logged_outcome, logged_log};
ghost use Rattle.log_calls.specs.Logs.{log_of};

use access::errno::Reply;
use log_append::{LINK_FIXED, append_link, has_room};
use log_full::link_full;

// Links an entry into a directory under a name: EIO, ESRCH, ENOENT, EBUSY, ENOTDIR, ENAMETOOLONG, EINVAL, EEXIST, EPERM, EACCES, EXDEV, ENOSPC. Answers the new
// entry's number.
pub fn link(
    system: &[u64],
    entries: &mut [u64],
    rulesets: &[u64],
    layers: &[u64],
    pool: &[u64],
    threads: &[u64],
    names: &mut [u8],
    t: u64,
    s: u64,
    d: u64,
    name: &[u8],
    log: &mut [u8],
    used: &mut u64,
) -> Reply
    ensures reply { named_outcome result (with_names (tables system.now entries.new rulesets.now layers.now pool.now threads.now) names.new) ≡ logged_outcome (with_names (tables system.now entries.old rulesets.now layers.now pool.now threads.now) names.old) (log_of log.old used.old) t (link s d name.now) }
    ensures log { log_of log.new used.new ≡ logged_log (with_names (tables system.now entries.old rulesets.now layers.now pool.now threads.now) names.old) (log_of log.old used.old) t (link s d name.now) }
{
    if !has_room(log, *used, LINK_FIXED, name.len()) {
        return link_full(
            system, entries, rulesets, layers, pool, threads, names, t, s, d, name,
        );
    }
    let reply = syscalls_moves::link(
        system, entries, rulesets, layers, pool, threads, names, t, s, d, name,
    );
    if reply.is_refused() {
        return reply;
    }
    append_link(log, used, s, d, name);
    reply
}
