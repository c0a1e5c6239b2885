// Entries renamed and exchanged on tables with names.
#![tactic(auto)]

ghost use Rattle.std.specs.Prelude.{◌≡◌, true};
ghost use Rattle.tables.specs.Tables.{tables};
ghost use Rattle.sound.specs.Sound.{sound};
ghost use Rattle.fs.specs.Blame.{move_reply, naming_move};
ghost use Rattle.tree.specs.Entries.{with_entries};
ghost use Rattle.tree.specs.Moves.{rename_move, exchange_move};
ghost use Rattle.tree.specs.Rename.{moved};
ghost use Rattle.tree.specs.Exchange.{exchange_checks, swapped};
ghost use Rattle.names.specs.Names.{bearer};
ghost use Rattle.named.specs.Named.{with_names, named_outcome, named_answer, judged_by};
ghost use Rattle.named.specs.Tree.{replaced_by, rename_named_checks, renamed_names, swapped_names};

use access::errno::{Errno, Reply};
use name_bearer::bearer;
use name_checks::name_checks;
use named_checks::link_target;
use named_names::{put_renamed, put_swapped};
use tree::Replaced;
use tree_exchange::{apply_exchange, exchange_checks};
use tree_rename::apply_rename;

// `x` is the entry that bears the name in the directory, or none.
pub fn rename_checks(
    system: &[u64],
    entries: &[u64],
    rulesets: &[u64],
    layers: &[u64],
    pool: &[u64],
    threads: &[u64],
    names: &[u8],
    t: u64,
    s: u64,
    d: u64,
    name: &[u8],
    x: Replaced,
) -> Reply
    requires { x ≡ bearer entries.now names.now d name.now }
    ensures { result ≡ move_reply (with_names (tables system.now entries.now rulesets.now layers.now pool.now threads.now) names.now).core t (rename_move entries.now s d x) (rename_named_checks (with_names (tables system.now entries.now rulesets.now layers.now pool.now threads.now) names.now) t s d name.now) }
{
    let a = link_target(entries, threads, t, s, d);
    if a != 0 {
        return Reply::Refused(Errno(a));
    }
    let b = name_checks(name);
    if b != 0 {
        return Reply::Refused(Errno(b));
    }
    tree_rename::rename_checks(system, entries, rulesets, layers, pool, threads, t, s, d, x)
}

// Moves the entry `s` to the directory `d` under the name, in place of the entry that bears it there.
pub fn rename(
    system: &[u64],
    entries: &mut [u64],
    rulesets: &[u64],
    layers: &[u64],
    pool: &[u64],
    threads: &[u64],
    names: &mut [u8],
    t: u64,
    s: u64,
    d: u64,
    name: &[u8],
) -> Reply
    ensures { named_outcome result (with_names (tables system.now entries.new rulesets.now layers.now pool.now threads.now) names.new) ≡ judged_by (naming_move (with_names (tables system.now entries.old rulesets.now layers.now pool.now threads.now) names.old).core t (rename_move entries.old s d (replaced_by (with_names (tables system.now entries.old rulesets.now layers.now pool.now threads.now) names.old) d name.now))) (named_answer (with_names (tables system.now entries.old rulesets.now layers.now pool.now threads.now) names.old) (rename_named_checks (with_names (tables system.now entries.old rulesets.now layers.now pool.now threads.now) names.old) t s d name.now) (named_outcome (Reply.Done 0) (with_names (with_entries (with_names (tables system.now entries.old rulesets.now layers.now pool.now threads.now) names.old).core (moved entries.old s d (replaced_by (with_names (tables system.now entries.old rulesets.now layers.now pool.now threads.now) names.old) d name.now))) (renamed_names entries.old names.old s name.now (replaced_by (with_names (tables system.now entries.old rulesets.now layers.now pool.now threads.now) names.old) d name.now))))) }
{
    let x = bearer(entries, names, d, name);
    let reply = rename_checks(
        system, entries, rulesets, layers, pool, threads, names, t, s, d, name, x,
    );
    if reply.is_refused() {
        return reply;
    }
    put_renamed(entries, names, s, name, x);
    apply_rename(entries, s, d, x);
    Reply::Done(0)
}

// Exchanges the entry `s` with the entry `x` of the directory `d`, and their names.
pub fn exchange(
    system: &[u64],
    entries: &mut [u64],
    rulesets: &[u64],
    layers: &[u64],
    pool: &[u64],
    threads: &[u64],
    names: &mut [u8],
    t: u64,
    s: u64,
    d: u64,
    x: u64,
) -> Reply
    requires { sound (tables system.now entries.old rulesets.now layers.now pool.now threads.now) ≡ true }
    ensures { named_outcome result (with_names (tables system.now entries.new rulesets.now layers.now pool.now threads.now) names.new) ≡ judged_by (naming_move (with_names (tables system.now entries.old rulesets.now layers.now pool.now threads.now) names.old).core t (exchange_move entries.old s d x)) (named_answer (with_names (tables system.now entries.old rulesets.now layers.now pool.now threads.now) names.old) (exchange_checks (with_names (tables system.now entries.old rulesets.now layers.now pool.now threads.now) names.old).core t s d x) (named_outcome (Reply.Done 0) (with_names (with_entries (with_names (tables system.now entries.old rulesets.now layers.now pool.now threads.now) names.old).core (swapped entries.old s d x)) (swapped_names entries.old names.old s x)))) }
{
    let reply = exchange_checks(system, entries, rulesets, layers, pool, threads, t, s, d, x);
    if reply.is_refused() {
        return reply;
    }
    put_swapped(entries, names, s, x);
    apply_exchange(entries, s, d, x);
    Reply::Done(0)
}
