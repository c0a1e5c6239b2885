// What a domain answers, by the order of its layers and the rows of what they deny: one pass over the order.
#![tactic(auto)]

ghost use Rattle.std.specs.Prelude.{◌≡◌, length};
ghost use Rattle.access.specs.Limits.{max_domain, max_layers};
ghost use Rattle.tables.specs.Tables.{path_rule};
ghost use Rattle.tables.specs.Layers.{layer_at};
ghost use Rattle.judge.specs.Blame.{none};
ghost use Rattle.judge.specs.Rules.{rights_on};
ghost use Rattle.fs.specs.Against.{needs_against, crossed_against};
ghost use Rattle.verdict.specs.Denial.{denial};
ghost use Rattle.domain_order.specs.Order.{OrderRight, listed};
ghost use Rattle.row_walks.specs.Rows.{row_denied, rows_denied, rows_crossed, may_hold};

use access::limits::MAX_DOMAIN;
use access::rights::Rights;
use fs::verdict::Move;
use fs_layer::{Against, held_against};
use verdict::{Denial, crossed_at, kept_at, kept_set};

// What the layers of an order answer to rights at an entry, by the entry's row.
pub fn entry_walk(order: &[u16], row: &[u16], asked: Rights) -> Denial
    requires { OrderRight order.now × (length row.now ≡ max_layers) }
    ensures { result ≡ denial (row_denied row.now asked.0) none 0 0 (listed order.now 0 max_domain) }
{
    let mut i = 0;
    while i < MAX_DOMAIN {
        let at = order[i] as usize;
        if at == 0 {
            return Denial::None;
        }
        let l = at - 1;
        let denied = asked.meet(Rights(row[l] as u64));
        if !denied.is_empty() {
            return Denial::Denied(l as u64, denied);
        }
        i += 1;
    }
    Denial::None
}

// All that a layer could hold against a move if it had no rule on the moved objects.
fn may_hold(m: Move, d1: Rights, d2: Rights) -> Rights
    ensures { result.0 ≡ may_hold m d1.0 d2.0 }
{
    let needs = d1.meet(m.leave).join(d2.meet(m.enter));
    let there = d1.meet(m.rights).without(d2);
    let back = d2.meet(m.back).without(d1);
    needs.join(there.join(back))
}

// What a layer holds against a move. Its rules are read only where it may hold something.
fn held_by(layers: &[u64], pool: &[u64], l: u64, m: Move, d1: Rights, d2: Rights) -> Against
    ensures needs { result.denied.0 ≡ needs_against m d1.0 d2.0 }
    ensures crossed { result.crossed.0 ≡ crossed_against m d1.0 d2.0 (rights_on (layer_at layers.now pool.now l).rules path_rule m.object) (rights_on (layer_at layers.now pool.now l).rules path_rule m.other) }
{
    if may_hold(m, d1, d2).is_empty() {
        return Against {
            denied: Rights::NONE,
            crossed: Rights::NONE,
        };
    }
    held_against(layers, pool, l, m, d1, d2)
}

// What the layers of an order answer to a move, by the rows of its two directories.
pub fn move_walk(
    layers: &[u64],
    pool: &[u64],
    order: &[u16],
    row1: &[u16],
    row2: &[u16],
    m: Move,
) -> Denial
    requires { OrderRight order.now × ((length row1.now ≡ max_layers) × (length row2.now ≡ max_layers)) }
    ensures { result ≡ denial (rows_denied row1.now row2.now m) (rows_crossed layers.now pool.now row1.now row2.now m) 0 0 (listed order.now 0 max_domain) }
{
    let mut k = 0;
    let mut set = 0;
    let mut i = 0;
    while i < MAX_DOMAIN {
        let at = order[i] as u64;
        if at == 0 {
            return crossed_at(k, set);
        }
        let l = at - 1;
        let j = l as usize;
        let d1 = Rights(row1[j] as u64);
        let held = held_by(layers, pool, l, m, d1, Rights(row2[j] as u64));
        let denied = held.denied;
        if !denied.is_empty() {
            return Denial::Denied(l, denied);
        }
        let crossed = held.crossed;
        set = kept_set(k, set, crossed);
        k = kept_at(k, at, crossed);
        i += 1;
    }
    crossed_at(k, set)
}
