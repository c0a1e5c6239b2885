// Entries made and removed on tables with names.
#![tactic(auto)]

ghost use Rattle.std.specs.Prelude.{◌≡◌};
ghost use Rattle.access.specs.Kinds.{kind_of};
ghost use Rattle.tables.specs.Tables.{tables, kind, parent};
ghost use Rattle.judge.specs.Blame.{entry_reply, naming_entry};
ghost use Rattle.fs.specs.Needs.{make_of, remove_of};
ghost use Rattle.tree.specs.Entries.{free_entry, free_row, with_entries};
ghost use Rattle.tree.specs.Create.{tree_created, remove_checks};
ghost use Rattle.names.specs.Names.{clear_name};
ghost use Rattle.named.specs.Named.{with_names, named_outcome, named_answer, judged_by};
ghost use Rattle.named.specs.Tree.{create_named_checks, new_names};

use access::errno::{Errno, Reply};
use name_rows::{clear_name, put_name};
use named_checks::{create_target, new_name};
use tree::entries::{free_entry, free_row};
use tree_create::create::apply_create;
use tree_remove::remove_checks;

// `e` is the lowest free entry.
pub fn create_checks(
    system: &[u64],
    entries: &[u64],
    rulesets: &[u64],
    layers: &[u64],
    pool: &[u64],
    threads: &[u64],
    names: &[u8],
    t: u64,
    d: u64,
    k: u64,
    name: &[u8],
    e: usize,
) -> Reply
    requires { e ≡ free_entry entries.now }
    ensures { result ≡ entry_reply (with_names (tables system.now entries.now rulesets.now layers.now pool.now threads.now) names.now).core t d (make_of (kind_of k)) (create_named_checks (with_names (tables system.now entries.now rulesets.now layers.now pool.now threads.now) names.now) t d k name.now) }
{
    let a = create_target(entries, threads, t, d);
    if a != 0 {
        return Reply::Refused(Errno(a));
    }
    let b = new_name(entries, names, d, name);
    if b != 0 {
        return Reply::Refused(Errno(b));
    }
    tree_create::create::create_checks(system, entries, rulesets, layers, pool, threads, t, d, k, e)
}

// Makes an entry of kind `k` with the name in the directory `d`. Answers its number.
pub fn create(
    system: &mut [u64],
    entries: &mut [u64],
    rulesets: &[u64],
    layers: &[u64],
    pool: &[u64],
    threads: &[u64],
    names: &mut [u8],
    t: u64,
    d: u64,
    k: u64,
    name: &[u8],
) -> Reply
    ensures { named_outcome result (with_names (tables system.new entries.new rulesets.now layers.now pool.now threads.now) names.new) ≡ judged_by (naming_entry (with_names (tables system.old entries.old rulesets.now layers.now pool.now threads.now) names.old).core t d (make_of (kind_of k))) (named_answer (with_names (tables system.old entries.old rulesets.now layers.now pool.now threads.now) names.old) (create_named_checks (with_names (tables system.old entries.old rulesets.now layers.now pool.now threads.now) names.old) t d k name.now) (named_outcome (Reply.Done (free_entry entries.old)) (with_names (tree_created (with_names (tables system.old entries.old rulesets.now layers.now pool.now threads.now) names.old).core d k) (new_names entries.old names.old name.now)))) }
{
    let e = free_entry(entries);
    let reply = create_checks(
        system, entries, rulesets, layers, pool, threads, names, t, d, k, name, e,
    );
    if reply.is_refused() {
        return reply;
    }
    apply_create(system, entries, rulesets, layers, pool, threads, d, k, e);
    put_name(names, e as u64, name);
    Reply::Done(e as u64)
}

// Removes an entry, and frees its row and its name's.
pub fn remove(
    system: &[u64],
    entries: &mut [u64],
    rulesets: &[u64],
    layers: &[u64],
    pool: &[u64],
    threads: &[u64],
    names: &mut [u8],
    t: u64,
    e: u64,
) -> Reply
    ensures { named_outcome result (with_names (tables system.now entries.new rulesets.now layers.now pool.now threads.now) names.new) ≡ judged_by (naming_entry (with_names (tables system.now entries.old rulesets.now layers.now pool.now threads.now) names.old).core t (parent entries.old e) (remove_of (kind_of (kind entries.old e)))) (named_answer (with_names (tables system.now entries.old rulesets.now layers.now pool.now threads.now) names.old) (remove_checks (with_names (tables system.now entries.old rulesets.now layers.now pool.now threads.now) names.old).core t e) (named_outcome (Reply.Done 0) (with_names (with_entries (with_names (tables system.now entries.old rulesets.now layers.now pool.now threads.now) names.old).core (free_row entries.old e)) (clear_name names.old e)))) }
{
    let reply = remove_checks(system, entries, rulesets, layers, pool, threads, t, e);
    if reply.is_refused() {
        return reply;
    }
    free_row(entries, e);
    clear_name(names, e);
    Reply::Done(0)
}
