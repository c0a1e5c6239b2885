// Exchange two entries: each moves to the other's directory.
#![tactic(auto)]

ghost use Rattle.std.specs.Prelude.{◌≡◌, true};
ghost use Rattle.laws.specs.Refusals.{first};
ghost use Rattle.tables.specs.Tables.{tables};
ghost use Rattle.tables.specs.Outcome.{outcome, answer};
ghost use Rattle.sound.specs.Sound.{sound};
ghost use Rattle.fs.specs.Blame.{move_reply, naming_move};
ghost use Rattle.fs.specs.declared.needs.Step.TheVariants.{Exchange};
ghost use Rattle.verdict.specs.Denial.{thread_denial};
ghost use Rattle.tree.specs.Moves.{kind_at, exchange_move};
ghost use Rattle.tree_moves.specs.Rows.{reads_possible};
ghost use Rattle.tree.specs.Entries.{with_entries};
ghost use Rattle.tree.specs.Exchange.{exchange_names, exchange_shape, exchange_checks, swapped};

use access::errno::{Errno, Reply};
use fs::table::needs_table;
use tables::rows::{entry_live, is_dir, parent_of, thread_live};
use tree::entries::{is_above, put_parent, same_object};
use tree_moves::exchange_move;
use verdict::{Denial, Question, move_denial};

pub fn exchange_names(
    system: &[u64],
    entries: &[u64],
    rulesets: &[u64],
    layers: &[u64],
    pool: &[u64],
    threads: &[u64],
    t: u64,
    s: u64,
    d: u64,
    x: u64,
) -> u64
    ensures { result ≡ first (exchange_names (tables system.now entries.now rulesets.now layers.now pool.now threads.now) t s d x) }
{
    if !thread_live(threads, t) {
        return Errno::ESRCH.0;
    }
    if !entry_live(entries, s) {
        return Errno::ENOENT.0;
    }
    if !entry_live(entries, d) {
        return Errno::ENOENT.0;
    }
    if !entry_live(entries, x) {
        return Errno::ENOENT.0;
    }
    0
}

pub fn exchange_shape(entries: &[u64], s: u64, d: u64, x: u64) -> u64
    ensures { result ≡ first (exchange_shape entries.now s d x) }
{
    if s == 0 {
        return Errno::EBUSY.0;
    }
    if x == 0 {
        return Errno::EBUSY.0;
    }
    if !is_dir(entries, d) {
        return Errno::ENOTDIR.0;
    }
    if parent_of(entries, x) != d {
        return Errno::EINVAL.0;
    }
    if is_above(entries, s, d) {
        return Errno::EINVAL.0;
    }
    if is_above(entries, x, parent_of(entries, s)) {
        return Errno::EINVAL.0;
    }
    0
}

// What the thread's domain holds against the move.
fn exchange_denial(
    entries: &[u64],
    layers: &[u64],
    pool: &[u64],
    threads: &[u64],
    t: u64,
    s: u64,
    d: u64,
    x: u64,
) -> Denial
    requires { reads_possible Exchange (kind_at entries.now s) (kind_at entries.now x) ≡ true }
    ensures { result ≡ thread_denial entries.now layers.now pool.now threads.now t (Question.Move (exchange_move entries.now s d x)) }
{
    let needs = needs_table();
    move_denial(
        entries,
        layers,
        pool,
        threads,
        t,
        exchange_move(&needs, entries, s, d, x),
    )
}

pub fn exchange_checks(
    system: &[u64],
    entries: &[u64],
    rulesets: &[u64],
    layers: &[u64],
    pool: &[u64],
    threads: &[u64],
    t: u64,
    s: u64,
    d: u64,
    x: u64,
) -> Reply
    requires { sound (tables system.now entries.now rulesets.now layers.now pool.now threads.now) ≡ true }
    ensures { result ≡ move_reply (tables system.now entries.now rulesets.now layers.now pool.now threads.now) t (exchange_move entries.now s d x) (exchange_checks (tables system.now entries.now rulesets.now layers.now pool.now threads.now) t s d x) }
{
    let a = exchange_names(system, entries, rulesets, layers, pool, threads, t, s, d, x);
    if a != 0 {
        return Reply::Refused(Errno(a));
    }
    let b = exchange_shape(entries, s, d, x);
    if b != 0 {
        return Reply::Refused(Errno(b));
    }
    exchange_denial(entries, layers, pool, threads, t, s, d, x).reply()
}

// Swaps the parents; two entries of one object stay as they are.
pub fn apply_exchange(entries: &mut [u64], s: u64, d: u64, x: u64)
    ensures { entries.new ≡ swapped entries.old s d x }
{
    if same_object(entries, s, x) {
        return;
    }
    let source = parent_of(entries, s);
    put_parent(entries, s, d);
    put_parent(entries, x, source);
}

// Exchanges the entry `s` with the entry `x` of the directory `d`.
pub fn exchange(
    system: &[u64],
    entries: &mut [u64],
    rulesets: &[u64],
    layers: &[u64],
    pool: &[u64],
    threads: &[u64],
    t: u64,
    s: u64,
    d: u64,
    x: u64,
) -> Reply
    requires { sound (tables system.now entries.old rulesets.now layers.now pool.now threads.now) ≡ true }
    ensures { outcome result (tables system.now entries.new rulesets.now layers.now pool.now threads.now) ≡ naming_move (tables system.now entries.old rulesets.now layers.now pool.now threads.now) t (exchange_move entries.old s d x) (answer (tables system.now entries.old rulesets.now layers.now pool.now threads.now) (exchange_checks (tables system.now entries.old rulesets.now layers.now pool.now threads.now) t s d x) (outcome (Reply.Done 0) (with_entries (tables system.now entries.old rulesets.now layers.now pool.now threads.now) (swapped entries.old s d x)))) }
{
    let reply = exchange_checks(system, entries, rulesets, layers, pool, threads, t, s, d, x);
    if reply.is_refused() {
        return reply;
    }
    apply_exchange(entries, s, d, x);
    Reply::Done(0)
}
