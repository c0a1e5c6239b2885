// Link an entry: another entry of its object.
#![tactic(auto)]

ghost use Rattle.tables.specs.Tables.{tables};
ghost use Rattle.std.specs.Prelude.{◌≡◌, true};
ghost use Rattle.laws.specs.Refusals.{first};
ghost use Rattle.access.specs.declared.kinds.MaybeKind.TheVariants.{None};
ghost use Rattle.tables.specs.Outcome.{outcome, answer};
ghost use Rattle.fs.specs.Blame.{move_reply, naming_move};
ghost use Rattle.fs.specs.declared.needs.Step.TheVariants.{Link};
ghost use Rattle.verdict.specs.Denial.{thread_denial};
ghost use Rattle.tree.specs.Moves.{kind_at, link_move};
ghost use Rattle.tree_moves.specs.Rows.{reads_possible};
ghost use Rattle.tree.specs.Entries.{free_entry, with_entries};
ghost use Rattle.tree.specs.Link.{link_shape, link_later, link_checks, linked};

use access::errno::{Errno, Reply};
use access::limits::MAX_ENTRIES;
use fs::table::needs_table;
use tables::rows::{entry_live, is_dir, kind_of, object_of, thread_live};
use tree::entries::{free_entry, put_entry};
use tree_moves::link_move;
use verdict::{Denial, Question, move_denial};

fn link_shape(
    system: &[u64],
    entries: &[u64],
    rulesets: &[u64],
    layers: &[u64],
    pool: &[u64],
    threads: &[u64],
    t: u64,
    s: u64,
    d: u64,
) -> u64
    ensures { result ≡ first (link_shape (tables system.now entries.now rulesets.now layers.now pool.now threads.now) t s d) }
{
    if !thread_live(threads, t) {
        return Errno::ESRCH.0;
    }
    if !entry_live(entries, s) {
        return Errno::ENOENT.0;
    }
    if !entry_live(entries, d) {
        return Errno::ENOENT.0;
    }
    if s == 0 {
        return Errno::EBUSY.0;
    }
    if !is_dir(entries, d) {
        return Errno::ENOTDIR.0;
    }
    if is_dir(entries, s) {
        return Errno::EPERM.0;
    }
    0
}

// What the thread's domain holds against the move.
fn link_denial(
    entries: &[u64],
    layers: &[u64],
    pool: &[u64],
    threads: &[u64],
    t: u64,
    s: u64,
    d: u64,
) -> Denial
    requires { reads_possible Link (kind_at entries.now s) None ≡ true }
    ensures { result ≡ thread_denial entries.now layers.now pool.now threads.now t (Question.Move (link_move entries.now s d)) }
{
    let needs = needs_table();
    move_denial(
        entries,
        layers,
        pool,
        threads,
        t,
        link_move(&needs, entries, s, d),
    )
}

// `e` is the lowest free entry.
fn link_later(
    system: &[u64],
    entries: &[u64],
    rulesets: &[u64],
    layers: &[u64],
    pool: &[u64],
    threads: &[u64],
    e: usize,
) -> u64
    requires { e ≡ free_entry entries.now }
    ensures { result ≡ first (link_later (tables system.now entries.now rulesets.now layers.now pool.now threads.now)) }
{
    if e >= MAX_ENTRIES {
        return Errno::ENOSPC.0;
    }
    0
}

pub fn link_checks(
    system: &[u64],
    entries: &[u64],
    rulesets: &[u64],
    layers: &[u64],
    pool: &[u64],
    threads: &[u64],
    t: u64,
    s: u64,
    d: u64,
    e: usize,
) -> Reply
    requires { e ≡ free_entry entries.now }
    ensures { result ≡ move_reply (tables system.now entries.now rulesets.now layers.now pool.now threads.now) t (link_move entries.now s d) (link_checks (tables system.now entries.now rulesets.now layers.now pool.now threads.now) t s d) }
{
    let a = link_shape(system, entries, rulesets, layers, pool, threads, t, s, d);
    if a != 0 {
        return Reply::Refused(Errno(a));
    }
    let denial = link_denial(entries, layers, pool, threads, t, s, d);
    if denial.refusal() != 0 {
        return denial.reply();
    }
    Reply::to(link_later(system, entries, rulesets, layers, pool, threads, e))
}

pub fn apply_link(entries: &mut [u64], s: u64, d: u64, e: usize)
    requires { e ≡ free_entry entries.old }
    ensures { entries.new ≡ linked entries.old s d }
{
    let kind = kind_of(entries, s);
    let object = object_of(entries, s);
    put_entry(entries, e, kind, d, object);
}

// Links the entry `s` into the directory `d`. Answers the new entry's number.
pub fn link(
    system: &[u64],
    entries: &mut [u64],
    rulesets: &[u64],
    layers: &[u64],
    pool: &[u64],
    threads: &[u64],
    t: u64,
    s: u64,
    d: u64,
) -> Reply
    ensures { outcome result (tables system.now entries.new rulesets.now layers.now pool.now threads.now) ≡ naming_move (tables system.now entries.old rulesets.now layers.now pool.now threads.now) t (link_move entries.old s d) (answer (tables system.now entries.old rulesets.now layers.now pool.now threads.now) (link_checks (tables system.now entries.old rulesets.now layers.now pool.now threads.now) t s d) (outcome (Reply.Done (free_entry entries.old)) (with_entries (tables system.now entries.old rulesets.now layers.now pool.now threads.now) (linked entries.old s d)))) }
{
    let e = free_entry(entries);
    let reply = link_checks(system, entries, rulesets, layers, pool, threads, t, s, d, e);
    if reply.is_refused() {
        return reply;
    }
    apply_link(entries, s, d, e);
    Reply::Done(e as u64)
}
