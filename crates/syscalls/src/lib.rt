// The entry points of fresh tables, requests and lookups, on tables with names: each but fresh answers EIO if the tables are not sound, then does the call.
#![tactic(auto)]

ghost use Rattle.tables.specs.Tables.{tables};
ghost use Rattle.std.specs.Prelude.{◌≡◌};
ghost use Rattle.fs_access.specs.Access.{access_call, access_count};
ghost use Rattle.net.specs.Port.{port_call};
ghost use Rattle.task.specs.Task.{task_call};
ghost use Rattle.task.specs.declared.Scope.TheVariants.{AbstractSocket, Signal};
ghost use Rattle.names.specs.Paths.{path_checks, found};
ghost use Rattle.named.specs.Named.{with_names, named_outcome, named_call, lift, lift_count, freshened_named};

use access::errno::{Errno, Reply};
use access::rights::Rights;
use fs_access::Accessed;
use named_sound::named_sound;
use path_lookup::lookup as lookup_path;
use sound_names::names_sound;

// Makes fresh tables at a level, whatever they held: EIO for a wrong length, EINVAL for a level above 6.
pub fn fresh(
    system: &mut [u64],
    entries: &mut [u64],
    rulesets: &mut [u64],
    layers: &mut [u64],
    pool: &mut [u64],
    threads: &mut [u64],
    names: &mut [u8],
    level: u64,
) -> Reply
    ensures { named_outcome result (with_names (tables system.new entries.new rulesets.new layers.new pool.new threads.new) names.new) ≡ freshened_named (with_names (tables system.old entries.old rulesets.old layers.old pool.old threads.old) names.old) level }
{
    named_fresh::fresh(
        system, entries, rulesets, layers, pool, threads, names, level,
    )
}

// Whether a thread may use an entry with the rights: EIO, ESRCH, ENOENT, EINVAL, EACCES. Says also how many entries' rules were read: 0 before the
// verdict.
pub fn access(
    system: &[u64],
    entries: &[u64],
    rulesets: &[u64],
    layers: &[u64],
    pool: &[u64],
    threads: &[u64],
    names: &[u8],
    t: u64,
    e: u64,
    asked: Rights,
) -> Accessed
    ensures reply { named_outcome result.reply (with_names (tables system.now entries.now rulesets.now layers.now pool.now threads.now) names.now) ≡ lift (with_names (tables system.now entries.now rulesets.now layers.now pool.now threads.now) names.now) (access_call (with_names (tables system.now entries.now rulesets.now layers.now pool.now threads.now) names.now).core t e asked.0) }
    ensures read { result.read ≡ lift_count (with_names (tables system.now entries.now rulesets.now layers.now pool.now threads.now) names.now) (access_count (with_names (tables system.now entries.now rulesets.now layers.now pool.now threads.now) names.now).core t e asked.0) }
{
    if !names_sound(entries, names) {
        return Accessed {
            reply: Reply::Refused(Errno::EIO),
            read: 0,
        };
    }
    broker::entries::access(
        system, entries, rulesets, layers, pool, threads, t, e, asked,
    )
}

// Whether a thread may use a port with the rights: EIO, ESRCH, EINVAL, EACCES.
pub fn port(
    system: &[u64],
    entries: &[u64],
    rulesets: &[u64],
    layers: &[u64],
    pool: &[u64],
    threads: &[u64],
    names: &[u8],
    t: u64,
    port: u64,
    asked: Rights,
) -> Reply
    ensures { named_outcome result (with_names (tables system.now entries.now rulesets.now layers.now pool.now threads.now) names.now) ≡ lift (with_names (tables system.now entries.now rulesets.now layers.now pool.now threads.now) names.now) (port_call (with_names (tables system.now entries.now rulesets.now layers.now pool.now threads.now) names.now).core t port asked.0) }
{
    if !names_sound(entries, names) {
        return Reply::Refused(Errno::EIO);
    }
    broker::ports::port(
        system, entries, rulesets, layers, pool, threads, t, port, asked,
    )
}

// Whether thread `t` may signal thread `u`: EIO, ESRCH, EPERM.
pub fn signal(
    system: &[u64],
    entries: &[u64],
    rulesets: &[u64],
    layers: &[u64],
    pool: &[u64],
    threads: &[u64],
    names: &[u8],
    t: u64,
    u: u64,
) -> Reply
    ensures { named_outcome result (with_names (tables system.now entries.now rulesets.now layers.now pool.now threads.now) names.now) ≡ lift (with_names (tables system.now entries.now rulesets.now layers.now pool.now threads.now) names.now) (task_call (with_names (tables system.now entries.now rulesets.now layers.now pool.now threads.now) names.now).core t u Signal) }
{
    if !names_sound(entries, names) {
        return Reply::Refused(Errno::EIO);
    }
    broker::tasks::signal(system, entries, rulesets, layers, pool, threads, t, u)
}

// Whether thread `t` may reach the abstract UNIX socket of thread `u`: EIO, ESRCH, EPERM.
pub fn abstract_socket(
    system: &[u64],
    entries: &[u64],
    rulesets: &[u64],
    layers: &[u64],
    pool: &[u64],
    threads: &[u64],
    names: &[u8],
    t: u64,
    u: u64,
) -> Reply
    ensures { named_outcome result (with_names (tables system.now entries.now rulesets.now layers.now pool.now threads.now) names.now) ≡ lift (with_names (tables system.now entries.now rulesets.now layers.now pool.now threads.now) names.now) (task_call (with_names (tables system.now entries.now rulesets.now layers.now pool.now threads.now) names.now).core t u AbstractSocket) }
{
    if !names_sound(entries, names) {
        return Reply::Refused(Errno::EIO);
    }
    broker::tasks::abstract_socket(system, entries, rulesets, layers, pool, threads, t, u)
}

// The entry that an absolute path names: EIO; ENOENT, ENAMETOOLONG, EINVAL of the path; then ENOTDIR, ENAMETOOLONG, ENOENT at each component.
pub fn lookup(
    system: &[u64],
    entries: &[u64],
    rulesets: &[u64],
    layers: &[u64],
    pool: &[u64],
    threads: &[u64],
    names: &[u8],
    path: &[u8],
) -> Reply
    ensures { named_outcome result (with_names (tables system.now entries.now rulesets.now layers.now pool.now threads.now) names.now) ≡ named_call (with_names (tables system.now entries.now rulesets.now layers.now pool.now threads.now) names.now) (path_checks path.now) (named_outcome (found entries.now names.now path.now) (with_names (tables system.now entries.now rulesets.now layers.now pool.now threads.now) names.now)) }
{
    if !named_sound(system, entries, rulesets, layers, pool, threads, names) {
        return Reply::Refused(Errno::EIO);
    }
    lookup_path(entries, names, path)
}
