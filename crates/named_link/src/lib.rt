// Entries linked on tables with names.
#![tactic(auto)]

ghost use Rattle.tables.specs.Tables.{tables};
ghost use Rattle.std.specs.Prelude.{◌≡◌};
ghost use Rattle.fs.specs.Blame.{move_reply, naming_move};
ghost use Rattle.tree.specs.Entries.{free_entry, with_entries};
ghost use Rattle.tree.specs.Moves.{link_move};
ghost use Rattle.tree.specs.Link.{linked};
ghost use Rattle.named.specs.Named.{with_names, named_outcome, named_answer, judged_by};
ghost use Rattle.named.specs.Tree.{link_named_checks, new_names};

use access::errno::{Errno, Reply};
use name_rows::put_name;
use named_checks::{link_target, new_name};
use tree::entries::free_entry;
use tree_link::apply_link;

// `e` is the lowest free entry.
pub fn link_checks(
    system: &[u64],
    entries: &[u64],
    rulesets: &[u64],
    layers: &[u64],
    pool: &[u64],
    threads: &[u64],
    names: &[u8],
    t: u64,
    s: u64,
    d: u64,
    name: &[u8],
    e: usize,
) -> Reply
    requires { e ≡ free_entry entries.now }
    ensures { result ≡ move_reply (with_names (tables system.now entries.now rulesets.now layers.now pool.now threads.now) names.now).core t (link_move entries.now s d) (link_named_checks (with_names (tables system.now entries.now rulesets.now layers.now pool.now threads.now) names.now) t s d name.now) }
{
    let a = link_target(entries, threads, t, s, d);
    if a != 0 {
        return Reply::Refused(Errno(a));
    }
    let b = new_name(entries, names, d, name);
    if b != 0 {
        return Reply::Refused(Errno(b));
    }
    tree_link::link_checks(system, entries, rulesets, layers, pool, threads, t, s, d, e)
}

// Links the entry `s` into the directory `d` under the name. Answers the new entry's number.
pub fn link(
    system: &[u64],
    entries: &mut [u64],
    rulesets: &[u64],
    layers: &[u64],
    pool: &[u64],
    threads: &[u64],
    names: &mut [u8],
    t: u64,
    s: u64,
    d: u64,
    name: &[u8],
) -> Reply
    ensures { named_outcome result (with_names (tables system.now entries.new rulesets.now layers.now pool.now threads.now) names.new) ≡ judged_by (naming_move (with_names (tables system.now entries.old rulesets.now layers.now pool.now threads.now) names.old).core t (link_move entries.old s d)) (named_answer (with_names (tables system.now entries.old rulesets.now layers.now pool.now threads.now) names.old) (link_named_checks (with_names (tables system.now entries.old rulesets.now layers.now pool.now threads.now) names.old) t s d name.now) (named_outcome (Reply.Done (free_entry entries.old)) (with_names (with_entries (with_names (tables system.now entries.old rulesets.now layers.now pool.now threads.now) names.old).core (linked entries.old s d)) (new_names entries.old names.old name.now)))) }
{
    let e = free_entry(entries);
    let reply = link_checks(
        system, entries, rulesets, layers, pool, threads, names, t, s, d, name, e,
    );
    if reply.is_refused() {
        return reply;
    }
    apply_link(entries, s, d, e);
    put_name(names, e as u64, name);
    Reply::Done(e as u64)
}
