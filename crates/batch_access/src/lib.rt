// The answers of a batch to requests for access to an entry or a port on sound tables: the call's checks up to and with the verdict.
#![tactic(auto)]

ghost use Rattle.std.specs.Prelude.{◌≡◌};
ghost use Rattle.tables.specs.Tables.{tables};
ghost use Rattle.judge.specs.Blame.{entry_reply, port_reply};
ghost use Rattle.fs_access.specs.Access.{access_checks};
ghost use Rattle.net.specs.Port.{port_checks};
ghost use Rattle.batch_verdict.specs.Batch.{BatchReady};

use access::errno::{Errno, Reply};
use access::rights::Rights;
use batch_verdict::entry_denial;
use fs_access::{access_mask, access_names};
use net::port_form;
use verdict::{Question, thread_denial};

pub fn access_reply(
    system: &[u64],
    entries: &[u64],
    rulesets: &[u64],
    layers: &[u64],
    pool: &[u64],
    threads: &[u64],
    orders: &[u16],
    rows: &mut [u16],
    marks: &mut [u8],
    top: usize,
    t: u64,
    e: u64,
    asked: Rights,
) -> Reply
    requires { BatchReady entries.now layers.now pool.now threads.now orders.now top rows.old marks.old }
    ensures reply { result ≡ entry_reply (tables system.now entries.now rulesets.now layers.now pool.now threads.now) t e asked.0 (access_checks (tables system.now entries.now rulesets.now layers.now pool.now threads.now) t e asked.0) }
    ensures ready { BatchReady entries.now layers.now pool.now threads.now orders.now top rows.new marks.new }
{
    let a = access_names(entries, threads, t, e);
    if a != 0 {
        return Reply::Refused(Errno(a));
    }
    let b = access_mask(entries, e, asked);
    if b != 0 {
        return Reply::Refused(Errno(b));
    }
    let denial = entry_denial(
        entries, layers, pool, threads, orders, rows, marks, top, t, e, asked,
    );
    denial.reply()
}

pub fn port_reply(
    system: &[u64],
    entries: &[u64],
    rulesets: &[u64],
    layers: &[u64],
    pool: &[u64],
    threads: &[u64],
    t: u64,
    port: u64,
    asked: Rights,
) -> Reply
    ensures { result ≡ port_reply (tables system.now entries.now rulesets.now layers.now pool.now threads.now) t port asked.0 (port_checks (tables system.now entries.now rulesets.now layers.now pool.now threads.now) t port asked.0) }
{
    let a = port_form(threads, t, port, asked);
    if a != 0 {
        return Reply::Refused(Errno(a));
    }
    let denial = thread_denial(
        entries,
        layers,
        pool,
        threads,
        t,
        Question::Port(port, asked),
    );
    denial.reply()
}
