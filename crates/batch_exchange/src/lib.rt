// The answer of a batch to an exchange on sound tables: the call's checks up to and with the verdict.
#![tactic(auto)]

ghost use Rattle.std.specs.Prelude.{◌≡◌, true};
ghost use Rattle.tables.specs.Tables.{tables};
ghost use Rattle.sound.specs.Sound.{sound};
ghost use Rattle.fs.specs.Blame.{move_reply};
ghost use Rattle.fs.specs.NeedsTable.{NeedsTable};
ghost use Rattle.tree.specs.Moves.{exchange_move};
ghost use Rattle.tree.specs.Exchange.{exchange_checks};
ghost use Rattle.batch_verdict.specs.Batch.{BatchReady};

use access::errno::{Errno, Reply};
use batch_verdict::move_denial;
use fs::table::NEEDS_ROWS;
use tree_exchange::{exchange_names, exchange_shape};
use tree_moves::exchange_move;

pub fn exchange_reply(
    system: &[u64],
    entries: &[u64],
    rulesets: &[u64],
    layers: &[u64],
    pool: &[u64],
    threads: &[u64],
    needs: &[u32; NEEDS_ROWS],
    orders: &[u16],
    rows: &mut [u16],
    marks: &mut [u8],
    top: usize,
    t: u64,
    s: u64,
    d: u64,
    x: u64,
) -> Reply
    requires { (sound (tables system.now entries.now rulesets.now layers.now pool.now threads.now) ≡ true) × (NeedsTable needs.now × BatchReady entries.now layers.now pool.now threads.now orders.now top rows.old marks.old) }
    ensures reply { result ≡ move_reply (tables system.now entries.now rulesets.now layers.now pool.now threads.now) t (exchange_move entries.now s d x) (exchange_checks (tables system.now entries.now rulesets.now layers.now pool.now threads.now) t s d x) }
    ensures ready { BatchReady entries.now layers.now pool.now threads.now orders.now top rows.new marks.new }
{
    let a = exchange_names(system, entries, rulesets, layers, pool, threads, t, s, d, x);
    if a != 0 {
        return Reply::Refused(Errno(a));
    }
    let b = exchange_shape(entries, s, d, x);
    if b != 0 {
        return Reply::Refused(Errno(b));
    }
    let m = exchange_move(needs, entries, s, d, x);
    let denial = move_denial(
        entries, layers, pool, threads, orders, rows, marks, top, t, m,
    );
    denial.reply()
}
