// An entry removed.
#![tactic(auto)]

ghost use Rattle.std.specs.Prelude.{◌≡◌};
ghost use Rattle.laws.specs.Refusals.{first};
ghost use Rattle.access.specs.Kinds.{kind_of};
ghost use Rattle.tables.specs.Tables.{tables, kind, parent};
ghost use Rattle.tables.specs.Outcome.{outcome, answer};
ghost use Rattle.judge.specs.Blame.{entry_reply, naming_entry};
ghost use Rattle.fs.specs.Needs.{remove_of};
ghost use Rattle.verdict.specs.Denial.{thread_denial};
ghost use Rattle.tree.specs.Entries.{free_row, with_entries};
ghost use Rattle.tree.specs.Create.{remove_shape, remove_later, remove_checks};

use access::errno::{Errno, Reply};
use access::kinds::Kind;
use fs::needs::remove_of;
use tables::rows::{entry_live, kind_of, parent_of, thread_live};
use tree::entries::{free_row, is_full};
use verdict::{Denial, Question, thread_denial};

fn remove_shape(
    system: &[u64],
    entries: &[u64],
    rulesets: &[u64],
    layers: &[u64],
    pool: &[u64],
    threads: &[u64],
    t: u64,
    e: u64,
) -> u64
    ensures { result ≡ first (remove_shape (tables system.now entries.now rulesets.now layers.now pool.now threads.now) t e) }
{
    if !thread_live(threads, t) {
        return Errno::ESRCH.0;
    }
    if !entry_live(entries, e) {
        return Errno::ENOENT.0;
    }
    if e == 0 {
        return Errno::EBUSY.0;
    }
    0
}

// What the thread's domain denies: the right to remove an entry of its kind from its directory.
fn remove_denial(
    entries: &[u64],
    layers: &[u64],
    pool: &[u64],
    threads: &[u64],
    t: u64,
    e: u64,
) -> Denial
    ensures { result ≡ thread_denial entries.now layers.now pool.now threads.now t (Question.Entry (parent entries.now e) (record { 0 = remove_of (kind_of (kind entries.now e)) })) }
{
    let directory = parent_of(entries, e);
    let right = remove_of(Kind::of_number(kind_of(entries, e)));
    thread_denial(
        entries,
        layers,
        pool,
        threads,
        t,
        Question::Entry(directory, right),
    )
}

fn remove_later(
    system: &[u64],
    entries: &[u64],
    rulesets: &[u64],
    layers: &[u64],
    pool: &[u64],
    threads: &[u64],
    e: u64,
) -> u64
    ensures { result ≡ first (remove_later (tables system.now entries.now rulesets.now layers.now pool.now threads.now) e) }
{
    if is_full(entries, e) {
        return Errno::ENOTEMPTY.0;
    }
    0
}

pub fn remove_checks(
    system: &[u64],
    entries: &[u64],
    rulesets: &[u64],
    layers: &[u64],
    pool: &[u64],
    threads: &[u64],
    t: u64,
    e: u64,
) -> Reply
    ensures { result ≡ entry_reply (tables system.now entries.now rulesets.now layers.now pool.now threads.now) t (parent entries.now e) (remove_of (kind_of (kind entries.now e))) (remove_checks (tables system.now entries.now rulesets.now layers.now pool.now threads.now) t e) }
{
    let a = remove_shape(system, entries, rulesets, layers, pool, threads, t, e);
    if a != 0 {
        return Reply::Refused(Errno(a));
    }
    let denial = remove_denial(entries, layers, pool, threads, t, e);
    if denial.refusal() != 0 {
        return denial.reply();
    }
    Reply::to(remove_later(system, entries, rulesets, layers, pool, threads, e))
}

// Removes an entry, and frees its row.
pub fn remove(
    system: &[u64],
    entries: &mut [u64],
    rulesets: &[u64],
    layers: &[u64],
    pool: &[u64],
    threads: &[u64],
    t: u64,
    e: u64,
) -> Reply
    ensures { outcome result (tables system.now entries.new rulesets.now layers.now pool.now threads.now) ≡ naming_entry (tables system.now entries.old rulesets.now layers.now pool.now threads.now) t (parent entries.old e) (remove_of (kind_of (kind entries.old e))) (answer (tables system.now entries.old rulesets.now layers.now pool.now threads.now) (remove_checks (tables system.now entries.old rulesets.now layers.now pool.now threads.now) t e) (outcome (Reply.Done 0) (with_entries (tables system.now entries.old rulesets.now layers.now pool.now threads.now) (free_row entries.old e)))) }
{
    let reply = remove_checks(system, entries, rulesets, layers, pool, threads, t, e);
    if reply.is_refused() {
        return reply;
    }
    free_row(entries, e);
    Reply::Done(0)
}
