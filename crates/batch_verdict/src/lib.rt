// The verdict of a thread's domain by kept orders and rows: what the layers deny an entry is read, not climbed for.
#![tactic(auto)]

ghost use Rattle.std.specs.Prelude.{◌≡◌, true};
ghost use Rattle.tables.specs.Tables.{live};
ghost use Rattle.verdict.specs.declared.Question.{Question};
ghost use Rattle.verdict.specs.Denial.{thread_denial};
ghost use Rattle.batch_verdict.specs.Batch.{BatchReady};

use access::rights::Rights;
use denied_rows::{need_row, row_of};
use domain_order::order_of;
use fs::verdict::Move;
use row_walks::{entry_walk, move_walk};
use tables::rows::youngest_of;
use verdict::Denial;

// What the domain of a thread answers to rights at a live entry. Without a layer nothing is asked.
pub fn entry_denial(
    entries: &[u64],
    layers: &[u64],
    pool: &[u64],
    threads: &[u64],
    orders: &[u16],
    rows: &mut [u16],
    marks: &mut [u8],
    top: usize,
    t: u64,
    e: u64,
    asked: Rights,
) -> Denial
    requires { BatchReady entries.now layers.now pool.now threads.now orders.now top rows.old marks.old × (live entries.now e ≡ true) }
    ensures denial { result ≡ thread_denial entries.now layers.now pool.now threads.now t (Question.Entry e asked) }
    ensures ready { BatchReady entries.now layers.now pool.now threads.now orders.now top rows.new marks.new }
{
    let y = youngest_of(threads, t);
    if y == 0 {
        return Denial::None;
    }
    let i = e as usize;
    need_row(entries, layers, pool, rows, marks, top, i);
    let order = order_of(orders, t as usize);
    entry_walk(order, row_of(rows, i), asked)
}

// What it answers to a move between live directories.
pub fn move_denial(
    entries: &[u64],
    layers: &[u64],
    pool: &[u64],
    threads: &[u64],
    orders: &[u16],
    rows: &mut [u16],
    marks: &mut [u8],
    top: usize,
    t: u64,
    m: Move,
) -> Denial
    requires { BatchReady entries.now layers.now pool.now threads.now orders.now top rows.old marks.old × ((live entries.now m.source ≡ true) × (live entries.now m.target ≡ true)) }
    ensures denial { result ≡ thread_denial entries.now layers.now pool.now threads.now t (Question.Move m) }
    ensures ready { BatchReady entries.now layers.now pool.now threads.now orders.now top rows.new marks.new }
{
    let y = youngest_of(threads, t);
    if y == 0 {
        return Denial::None;
    }
    let p1 = m.source as usize;
    let p2 = m.target as usize;
    need_row(entries, layers, pool, rows, marks, top, p1);
    need_row(entries, layers, pool, rows, marks, top, p2);
    let order = order_of(orders, t as usize);
    move_walk(layers, pool, order, row_of(rows, p1), row_of(rows, p2), m)
}
