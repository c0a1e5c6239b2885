// The entry points of requests between threads.
ghost use Rattle.tables.specs.Tables.{tables};
ghost use Rattle.std.specs.Prelude.{◌≡◌};
ghost use Rattle.tables.specs.Outcome.{outcome};
ghost use Rattle.task.specs.Task.{task_call};

use access::errno::{Errno, Reply};
use task::Scope;

fn request(
    system: &[u64],
    entries: &[u64],
    rulesets: &[u64],
    layers: &[u64],
    pool: &[u64],
    threads: &[u64],
    t: u64,
    u: u64,
    scope: Scope,
) -> Reply
    ensures { outcome result (tables system.now entries.now rulesets.now layers.now pool.now threads.now) ≡ task_call (tables system.now entries.now rulesets.now layers.now pool.now threads.now) t u scope }
{
    if !sound::is_sound(system, entries, rulesets, layers, pool, threads) {
        return Reply::Refused(Errno::EIO);
    }
    task::task(
        system, entries, rulesets, layers, pool, threads, t, u, scope,
    )
}

// Whether thread `t` may signal thread `u`: EIO, ESRCH, EPERM.
pub fn signal(
    system: &[u64],
    entries: &[u64],
    rulesets: &[u64],
    layers: &[u64],
    pool: &[u64],
    threads: &[u64],
    t: u64,
    u: u64,
) -> Reply
    ensures { outcome result (tables system.now entries.now rulesets.now layers.now pool.now threads.now) ≡ task_call (tables system.now entries.now rulesets.now layers.now pool.now threads.now) t u Scope.Signal }
{
    request(
        system,
        entries,
        rulesets,
        layers,
        pool,
        threads,
        t,
        u,
        Scope::Signal,
    )
}

// Whether thread `t` may reach the abstract UNIX socket of thread `u`: EIO, ESRCH, EPERM.
pub fn abstract_socket(
    system: &[u64],
    entries: &[u64],
    rulesets: &[u64],
    layers: &[u64],
    pool: &[u64],
    threads: &[u64],
    t: u64,
    u: u64,
) -> Reply
    ensures { outcome result (tables system.now entries.now rulesets.now layers.now pool.now threads.now) ≡ task_call (tables system.now entries.now rulesets.now layers.now pool.now threads.now) t u Scope.AbstractSocket }
{
    request(
        system,
        entries,
        rulesets,
        layers,
        pool,
        threads,
        t,
        u,
        Scope::AbstractSocket,
    )
}
