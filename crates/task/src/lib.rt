// Requests between threads: signals, and abstract UNIX sockets.
#![tactic(auto)]

ghost use Rattle.tables.specs.Tables.{tables};
ghost use Rattle.std.specs.Prelude.{◌≡◌, not, ◌&&◌};
ghost use Rattle.laws.specs.Tests.{any, elem};
ghost use Rattle.laws.specs.Refusals.{first};
ghost use Rattle.access.specs.Rights.{within};
ghost use Rattle.access.specs.Limits.{max_domain};
ghost use Rattle.tables.specs.Layers.{layer_scope};
ghost use Rattle.tables.specs.Outcome.{outcome, answer};
ghost use Rattle.judge.specs.Domain.{chain, domain};
ghost use Rattle.task.specs.Task.{scope_right, escapes, reaches, task_checks};

use access::errno::{Errno, Reply};
use access::limits::MAX_DOMAIN;
use access::rights::Rights;
use tables::rows::{layer_parent, layer_scope, thread_live, youngest_of};

// What a request between threads is for.
#[derive(Clone, Copy)]
pub enum Scope {
    AbstractSocket,
    Signal,
}

impl Scope {
    // The scope that a layer handles.
    fn right(self) -> Rights
        ensures { result.0 ≡ scope_right self }
    {
        match self {
            Scope::AbstractSocket => Rights::ABSTRACT_UNIX_SOCKET,
            Scope::Signal => Rights::SIGNAL,
        }
    }
}

// The layer is in the domain whose youngest layer is `y` (its number + 1, or 0).
fn in_domain(layers: &[u64], y: u64, l: u64) -> bool
    ensures { result ≡ elem l (chain layers.now max_domain y) }
{
    let mut at = y;
    let mut n = MAX_DOMAIN;
    while n > 0 {
        if at == 0 {
            return false;
        }
        if at - 1 == l {
            return true;
        }
        at = layer_parent(layers, at - 1);
        n -= 1;
    }
    false
}

// The layer handles the scope and is not in the domain whose youngest layer is `y`.
fn leaves(layers: &[u64], scope: Rights, y: u64, l: u64) -> bool
    ensures { result ≡ escapes layers.now scope.0 (chain layers.now max_domain y) l }
{
    if !layer_scope(layers, l).contains(scope) {
        return false;
    }
    !in_domain(layers, y, l)
}

// Some layer of the domain of `y` handles the scope and is not in the domain of `z`.
fn any_leaves(layers: &[u64], scope: Rights, y: u64, z: u64) -> bool
    ensures { result ≡ any (escapes layers.now scope.0 (chain layers.now max_domain z)) (chain layers.now max_domain y) }
{
    let mut at = y;
    let mut left = MAX_DOMAIN;
    while left > 0 {
        if at == 0 {
            return false;
        }
        if leaves(layers, scope, z, at - 1) {
            return true;
        }
        at = layer_parent(layers, at - 1);
        left -= 1;
    }
    false
}

// Every layer of thread `t`'s domain that handles the scope is in thread `u`'s domain.
fn may_reach(layers: &[u64], threads: &[u64], t: u64, u: u64, scope: Scope) -> bool
    ensures { result ≡ reaches layers.now scope (domain layers.now threads.now t) (domain layers.now threads.now u) }
{
    !any_leaves(
        layers,
        scope.right(),
        youngest_of(threads, t),
        youngest_of(threads, u),
    )
}

fn task_checks(layers: &[u64], threads: &[u64], t: u64, u: u64, scope: Scope) -> u64
    ensures { result ≡ first (task_checks layers.now threads.now t u scope) }
{
    if !thread_live(threads, t) {
        return Errno::ESRCH.0;
    }
    if !thread_live(threads, u) {
        return Errno::ESRCH.0;
    }
    if !may_reach(layers, threads, t, u, scope) {
        return Errno::EPERM.0;
    }
    0
}

// Whether the thread may reach another one.
pub fn task(
    system: &[u64],
    entries: &[u64],
    rulesets: &[u64],
    layers: &[u64],
    pool: &[u64],
    threads: &[u64],
    t: u64,
    u: u64,
    scope: Scope,
) -> Reply
    ensures { outcome result (tables system.now entries.now rulesets.now layers.now pool.now threads.now) ≡ answer (tables system.now entries.now rulesets.now layers.now pool.now threads.now) (task_checks layers.now threads.now t u scope) (outcome (Reply.Done 0) (tables system.now entries.now rulesets.now layers.now pool.now threads.now)) }
{
    Reply::to(task_checks(layers, threads, t, u, scope))
}
