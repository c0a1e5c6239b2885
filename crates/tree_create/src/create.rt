// Create an entry.
ghost use Rattle.std.specs.Prelude.{◌≡◌, ◌<◌};
ghost use Rattle.laws.specs.Refusals.{first};
ghost use Rattle.tables.specs.Outcome.{outcome, answer};
ghost use Rattle.access.specs.Kinds.{kind_of};
ghost use Rattle.access.specs.Limits.{max_counter};
ghost use Rattle.tables.specs.Tables.{tables, counter};
ghost use Rattle.judge.specs.Blame.{entry_reply, naming_entry};
ghost use Rattle.fs.specs.Needs.{make_of};
ghost use Rattle.verdict.specs.Denial.{thread_denial};
ghost use Rattle.tree.specs.Entries.{free_entry, unknown_kind};
ghost use Rattle.tree.specs.Create.{create_shape, create_later, tree_create_checks, tree_created};

use access::errno::{Errno, Reply};
use access::kinds::Kind;
use access::limits::{MAX_COUNTER, MAX_ENTRIES};
use cells::write;
use fs::needs::make_of;
use tables::rows::{LAST_KIND, SYSTEM_COUNTER, counter_of, entry_live, is_dir, thread_live};
use tree::entries::{free_entry, put_entry};
use verdict::{Denial, Question, thread_denial};

pub fn unknown_kind(k: u64) -> bool
    ensures { result ≡ unknown_kind k }
{
    if k == 0 {
        return true;
    }
    LAST_KIND < k
}

fn create_shape(
    system: &[u64],
    entries: &[u64],
    rulesets: &[u64],
    layers: &[u64],
    pool: &[u64],
    threads: &[u64],
    t: u64,
    d: u64,
    k: u64,
) -> u64
    ensures { result ≡ first (create_shape (tables system.now entries.now rulesets.now layers.now pool.now threads.now) t d k) }
{
    if !thread_live(threads, t) {
        return Errno::ESRCH.0;
    }
    if !entry_live(entries, d) {
        return Errno::ENOENT.0;
    }
    if !is_dir(entries, d) {
        return Errno::ENOTDIR.0;
    }
    if unknown_kind(k) {
        return Errno::EINVAL.0;
    }
    0
}

// What the thread's domain denies: the right to make an entry of the kind in the directory.
fn create_denial(
    entries: &[u64],
    layers: &[u64],
    pool: &[u64],
    threads: &[u64],
    t: u64,
    d: u64,
    k: u64,
) -> Denial
    ensures { result ≡ thread_denial entries.now layers.now pool.now threads.now t (Question.Entry d (record { 0 = make_of (kind_of k) })) }
{
    let right = make_of(Kind::of_number(k));
    thread_denial(entries, layers, pool, threads, t, Question::Entry(d, right))
}

// `e` is the lowest free entry.
fn create_later(
    system: &[u64],
    entries: &[u64],
    rulesets: &[u64],
    layers: &[u64],
    pool: &[u64],
    threads: &[u64],
    e: usize,
) -> u64
    requires { e ≡ free_entry entries.now }
    ensures { result ≡ first (create_later (tables system.now entries.now rulesets.now layers.now pool.now threads.now)) }
{
    if e >= MAX_ENTRIES {
        return Errno::ENOSPC.0;
    }
    if counter_of(system) >= MAX_COUNTER {
        return Errno::ENOSPC.0;
    }
    0
}

pub fn create_checks(
    system: &[u64],
    entries: &[u64],
    rulesets: &[u64],
    layers: &[u64],
    pool: &[u64],
    threads: &[u64],
    t: u64,
    d: u64,
    k: u64,
    e: usize,
) -> Reply
    requires { e ≡ free_entry entries.now }
    ensures { result ≡ entry_reply (tables system.now entries.now rulesets.now layers.now pool.now threads.now) t d (make_of (kind_of k)) (tree_create_checks (tables system.now entries.now rulesets.now layers.now pool.now threads.now) t d k) }
{
    let a = create_shape(system, entries, rulesets, layers, pool, threads, t, d, k);
    if a != 0 {
        return Reply::Refused(Errno(a));
    }
    let denial = create_denial(entries, layers, pool, threads, t, d, k);
    if denial.refusal() != 0 {
        return denial.reply();
    }
    Reply::to(create_later(system, entries, rulesets, layers, pool, threads, e))
}

pub fn apply_create(
    system: &mut [u64],
    entries: &mut [u64],
    rulesets: &[u64],
    layers: &[u64],
    pool: &[u64],
    threads: &[u64],
    d: u64,
    k: u64,
    e: usize,
)
    requires { (e ≡ free_entry entries.old) × (counter system.old < max_counter) }
    ensures { tables system.new entries.new rulesets.now layers.now pool.now threads.now ≡ tree_created (tables system.old entries.old rulesets.now layers.now pool.now threads.now) d k }
{
    let object = counter_of(system);
    write(system, SYSTEM_COUNTER, object + 1);
    put_entry(entries, e, k, d, object);
}

// Makes an entry of kind `k` in the directory `d`, with a new object. Answers its number.
pub fn create(
    system: &mut [u64],
    entries: &mut [u64],
    rulesets: &[u64],
    layers: &[u64],
    pool: &[u64],
    threads: &[u64],
    t: u64,
    d: u64,
    k: u64,
) -> Reply
    ensures { outcome result (tables system.new entries.new rulesets.now layers.now pool.now threads.now) ≡ naming_entry (tables system.old entries.old rulesets.now layers.now pool.now threads.now) t d (make_of (kind_of k)) (answer (tables system.old entries.old rulesets.now layers.now pool.now threads.now) (tree_create_checks (tables system.old entries.old rulesets.now layers.now pool.now threads.now) t d k) (outcome (Reply.Done (free_entry entries.old)) (tree_created (tables system.old entries.old rulesets.now layers.now pool.now threads.now) d k))) }
{
    let e = free_entry(entries);
    let reply = create_checks(system, entries, rulesets, layers, pool, threads, t, d, k, e);
    if reply.is_refused() {
        return reply;
    }
    apply_create(system, entries, rulesets, layers, pool, threads, d, k, e);
    Reply::Done(e as u64)
}
