// Rename an entry: move it to a directory, and replace an entry there or none.
#![tactic(auto)]

ghost use Rattle.tables.specs.Tables.{tables};
ghost use Rattle.std.specs.Prelude.{◌≡◌};
ghost use Rattle.laws.specs.Refusals.{first};
ghost use Rattle.tables.specs.Outcome.{outcome, answer};
ghost use Rattle.fs.specs.Blame.{move_reply, naming_move};
ghost use Rattle.verdict.specs.Denial.{thread_denial};
ghost use Rattle.tree.specs.Moves.{rename_move};
ghost use Rattle.tree.specs.Entries.{with_entries};
ghost use Rattle.tree.specs.Rename.{rename_names, rename_shape, rename_later, rename_checks, dropped, moved};

use access::errno::{Errno, Reply};
use fs::table::needs_table;
use tables::rows::{entry_live, is_dir, thread_live};
use tree::Replaced;
use tree::entries::{free_row, is_above, put_parent};
use tree_moves::rename_move;
use tree_replaced::{
    is_dir_over_other, is_elsewhere, is_gone, is_other_over_dir, is_over_full, is_root, is_same,
};
use verdict::{Denial, Question, move_denial};

fn rename_names(
    system: &[u64],
    entries: &[u64],
    rulesets: &[u64],
    layers: &[u64],
    pool: &[u64],
    threads: &[u64],
    t: u64,
    s: u64,
    d: u64,
    x: Replaced,
) -> u64
    ensures { result ≡ first (rename_names (tables system.now entries.now rulesets.now layers.now pool.now threads.now) t s d x) }
{
    if !thread_live(threads, t) {
        return Errno::ESRCH.0;
    }
    if !entry_live(entries, s) {
        return Errno::ENOENT.0;
    }
    if !entry_live(entries, d) {
        return Errno::ENOENT.0;
    }
    if is_gone(entries, x) {
        return Errno::ENOENT.0;
    }
    0
}

fn rename_shape(entries: &[u64], s: u64, d: u64, x: Replaced) -> u64
    ensures { result ≡ first (rename_shape entries.now s d x) }
{
    if s == 0 {
        return Errno::EBUSY.0;
    }
    if is_root(x) {
        return Errno::EBUSY.0;
    }
    if !is_dir(entries, d) {
        return Errno::ENOTDIR.0;
    }
    if is_elsewhere(entries, d, x) {
        return Errno::EINVAL.0;
    }
    if is_above(entries, s, d) {
        return Errno::EINVAL.0;
    }
    0
}

// What the thread's domain holds against the move.
fn rename_denial(
    entries: &[u64],
    layers: &[u64],
    pool: &[u64],
    threads: &[u64],
    t: u64,
    s: u64,
    d: u64,
    x: Replaced,
) -> Denial
    ensures { result ≡ thread_denial entries.now layers.now pool.now threads.now t (Question.Move (rename_move entries.now s d x)) }
{
    let needs = needs_table();
    move_denial(
        entries,
        layers,
        pool,
        threads,
        t,
        rename_move(&needs, entries, s, d, x),
    )
}

pub fn rename_later(entries: &[u64], s: u64, x: Replaced) -> u64
    ensures { result ≡ first (rename_later entries.now s x) }
{
    if is_same(entries, s, x) {
        return 0;
    }
    if is_dir_over_other(entries, s, x) {
        return Errno::ENOTDIR.0;
    }
    if is_other_over_dir(entries, s, x) {
        return Errno::EISDIR.0;
    }
    if is_over_full(entries, x) {
        return Errno::ENOTEMPTY.0;
    }
    0
}

pub fn rename_checks(
    system: &[u64],
    entries: &[u64],
    rulesets: &[u64],
    layers: &[u64],
    pool: &[u64],
    threads: &[u64],
    t: u64,
    s: u64,
    d: u64,
    x: Replaced,
) -> Reply
    ensures { result ≡ move_reply (tables system.now entries.now rulesets.now layers.now pool.now threads.now) t (rename_move entries.now s d x) (rename_checks (tables system.now entries.now rulesets.now layers.now pool.now threads.now) t s d x) }
{
    let a = rename_names(system, entries, rulesets, layers, pool, threads, t, s, d, x);
    if a != 0 {
        return Reply::Refused(Errno(a));
    }
    let b = rename_shape(entries, s, d, x);
    if b != 0 {
        return Reply::Refused(Errno(b));
    }
    let denial = rename_denial(entries, layers, pool, threads, t, s, d, x);
    if denial.refusal() != 0 {
        return denial.reply();
    }
    Reply::to(rename_later(entries, s, x))
}

// Frees the replaced entry's row.
fn drop_replaced(entries: &mut [u64], x: Replaced)
    ensures { entries.new ≡ dropped entries.old x }
{
    match x {
        Replaced::None => {}
        Replaced::Entry(y) => free_row(entries, y),
    }
}

// Moves the entry; two entries of one object stay as they are.
pub fn apply_rename(entries: &mut [u64], s: u64, d: u64, x: Replaced)
    ensures { entries.new ≡ moved entries.old s d x }
{
    if is_same(entries, s, x) {
        return;
    }
    put_parent(entries, s, d);
    drop_replaced(entries, x);
}

// Moves the entry `s` to the directory `d`, in place of the replaced entry if there is one.
pub fn rename(
    system: &[u64],
    entries: &mut [u64],
    rulesets: &[u64],
    layers: &[u64],
    pool: &[u64],
    threads: &[u64],
    t: u64,
    s: u64,
    d: u64,
    x: Replaced,
) -> Reply
    ensures { outcome result (tables system.now entries.new rulesets.now layers.now pool.now threads.now) ≡ naming_move (tables system.now entries.old rulesets.now layers.now pool.now threads.now) t (rename_move entries.old s d x) (answer (tables system.now entries.old rulesets.now layers.now pool.now threads.now) (rename_checks (tables system.now entries.old rulesets.now layers.now pool.now threads.now) t s d x) (outcome (Reply.Done 0) (with_entries (tables system.now entries.old rulesets.now layers.now pool.now threads.now) (moved entries.old s d x)))) }
{
    let reply = rename_checks(system, entries, rulesets, layers, pool, threads, t, s, d, x);
    if reply.is_refused() {
        return reply;
    }
    apply_rename(entries, s, d, x);
    Reply::Done(0)
}
