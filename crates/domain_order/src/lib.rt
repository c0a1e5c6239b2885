// The layers of each thread's domain in their order, youngest first, kept for a batch: a row of cells for each thread. A cell names a layer by
// its number + 1; after the oldest there are zeros.
#![tactic(auto)]

ghost use Rattle.std.specs.Prelude.{◌≡◌, ℕ, ◌*◌, ◌<◌, length};
ghost use Rattle.access.specs.Limits.{max_domain, max_threads};
ghost use Rattle.tables.specs.Tables.{youngest};
ghost use Rattle.domain_order.specs.Order.{Walkable, up_of, OrderTo, OrdersTo, order_of};

use access::limits::{MAX_DOMAIN, MAX_THREADS};
use tables::rows::{layer_parent, youngest_of};

// The cells of all rows.
pub const ORDERS_CELLS: usize = MAX_DOMAIN * MAX_THREADS;

// The parent of the layer that a cell names, as such a cell.
fn layer_above(layers: &[u64], at: u64) -> u64
    ensures { result ≡ up_of layers.now at }
{
    if at == 0 {
        return 0;
    }
    layer_parent(layers, at - 1)
}

// Fills the row of a thread, from its youngest layer on.
fn fill_order(layers: &[u64], orders: &mut [u16], t: usize, y: u64)
    requires { Walkable layers.now y × ((length orders.old ≡ max_domain * max_threads) × (t < max_threads)) }
    ensures { OrderTo layers.now orders.old orders.new t y max_domain }
{
    let mut at = y;
    let mut i = 0;
    while i < MAX_DOMAIN {
        orders[MAX_DOMAIN * t + i] = at as u16;
        at = layer_above(layers, at);
        i += 1;
    }
}

// Fills the rows of all threads.
pub fn fill_orders(layers: &[u64], threads: &[u64], orders: &mut [u16])
    requires { ((t : ℕ) → Walkable layers.now (youngest threads.now t)) × (length orders.old ≡ max_domain * max_threads) }
    ensures { OrdersTo layers.now threads.now orders.new max_threads }
{
    let mut t = 0;
    while t < MAX_THREADS {
        let y = youngest_of(threads, t as u64);
        fill_order(layers, orders, t, y);
        t += 1;
    }
}

// The row of a thread.
pub fn order_of<'a>(orders: &'a [u16], t: usize) -> &'a [u16]
    requires { (length orders.now ≡ max_domain * max_threads) × (t < max_threads) }
    ensures { result.now ≡ order_of orders.now t }
{
    let from = MAX_DOMAIN * t;
    let to = from + MAX_DOMAIN;
    &orders[from..to]
}
