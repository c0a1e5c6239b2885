// Port requests.
#![tactic(auto)]

ghost use Rattle.tables.specs.Tables.{tables};
ghost use Rattle.std.specs.Prelude.{◌≡◌};
ghost use Rattle.laws.specs.Refusals.{first};
ghost use Rattle.tables.specs.Outcome.{outcome, answer};
ghost use Rattle.judge.specs.Blame.{naming_port};
ghost use Rattle.net.specs.Port.{port_form, port_checks};

use access::errno::{Errno, Reply};
use access::limits::MAX_PORT;
use access::rights::Rights;
use tables::rows::thread_live;
use verdict::{Question, thread_denial};

pub fn port_form(threads: &[u64], t: u64, port: u64, asked: Rights) -> u64
    ensures { result ≡ first (port_form threads.now t port asked.0) }
{
    if !thread_live(threads, t) {
        return Errno::ESRCH.0;
    }
    if MAX_PORT < port {
        return Errno::EINVAL.0;
    }
    if asked.is_empty() {
        return Errno::EINVAL.0;
    }
    if !Rights::ALL_NET.contains(asked) {
        return Errno::EINVAL.0;
    }
    0
}

// Whether the thread may use the port with the rights.
pub fn port(
    system: &[u64],
    entries: &[u64],
    rulesets: &[u64],
    layers: &[u64],
    pool: &[u64],
    threads: &[u64],
    t: u64,
    port: u64,
    asked: Rights,
) -> Reply
    ensures { outcome result (tables system.now entries.now rulesets.now layers.now pool.now threads.now) ≡ naming_port (tables system.now entries.now rulesets.now layers.now pool.now threads.now) t port asked.0 (answer (tables system.now entries.now rulesets.now layers.now pool.now threads.now) (port_checks (tables system.now entries.now rulesets.now layers.now pool.now threads.now) t port asked.0) (outcome (Reply.Done 0) (tables system.now entries.now rulesets.now layers.now pool.now threads.now))) }
{
    let e = port_form(threads, t, port, asked);
    if e != 0 {
        return Reply::Refused(Errno(e));
    }
    thread_denial(
        entries,
        layers,
        pool,
        threads,
        t,
        Question::Port(port, asked),
    )
    .reply()
}
