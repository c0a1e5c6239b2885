// The answer of a batch to a rename on sound tables: the call's checks up to and with the verdict.
#![tactic(auto)]

ghost use Rattle.named.specs.Named.{with_names};
ghost use Rattle.tables.specs.Tables.{tables};
ghost use Rattle.std.specs.Prelude.{◌≡◌};
ghost use Rattle.fs.specs.Blame.{move_reply};
ghost use Rattle.fs.specs.NeedsTable.{NeedsTable};
ghost use Rattle.tree.specs.Moves.{rename_move};
ghost use Rattle.sound_names_chains.specs.Chains.{IndexedIf};
ghost use Rattle.named.specs.Tree.{replaced_by};
ghost use Rattle.named.specs.Batch.{rename_asked};
ghost use Rattle.batch_verdict.specs.Batch.{BatchReady};

use access::errno::{Errno, Reply};
use batch_verdict::move_denial;
use fs::table::NEEDS_ROWS;
use name_checks::name_checks;
use name_index::bearer_by_index;
use named_checks::link_target;
use tree::entries::is_above;
use tree_moves::rename_move;

pub fn rename_reply(
    system: &[u64],
    entries: &[u64],
    rulesets: &[u64],
    layers: &[u64],
    pool: &[u64],
    threads: &[u64],
    names: &[u8],
    needs: &[u32; NEEDS_ROWS],
    heads: &[u16],
    links: &[u16],
    whole: bool,
    orders: &[u16],
    rows: &mut [u16],
    marks: &mut [u8],
    top: usize,
    t: u64,
    s: u64,
    d: u64,
    name: &[u8],
) -> Reply
    requires { NeedsTable needs.now × (IndexedIf whole entries.now names.now heads.now links.now × BatchReady entries.now layers.now pool.now threads.now orders.now top rows.old marks.old) }
    ensures reply { result ≡ move_reply (tables system.now entries.now rulesets.now layers.now pool.now threads.now) t (rename_move entries.now s d (replaced_by (with_names (tables system.now entries.now rulesets.now layers.now pool.now threads.now) names.now) d name.now)) (rename_asked (with_names (tables system.now entries.now rulesets.now layers.now pool.now threads.now) names.now) t s d name.now) }
    ensures ready { BatchReady entries.now layers.now pool.now threads.now orders.now top rows.new marks.new }
{
    let a = link_target(entries, threads, t, s, d);
    if a != 0 {
        return Reply::Refused(Errno(a));
    }
    let b = name_checks(name);
    if b != 0 {
        return Reply::Refused(Errno(b));
    }
    if is_above(entries, s, d) {
        return Reply::Refused(Errno::EINVAL);
    }
    let x = bearer_by_index(entries, names, heads, links, whole, d, name);
    let m = rename_move(needs, entries, s, d, x);
    let denial = move_denial(
        entries, layers, pool, threads, orders, rows, marks, top, t, m,
    );
    denial.reply()
}
