// What one layer holds against a move: the needs that it denies, and REFER or the rights that are not contained.
#![tactic(auto)]

ghost use Rattle.std.specs.Prelude.{◌≡◌};
ghost use Rattle.access.specs.Rights.{without};
ghost use Rattle.tables.specs.Tables.{path_rule};
ghost use Rattle.tables.specs.Layers.{layer_at};
ghost use Rattle.judge.specs.Rules.{rights_on};
ghost use Rattle.fs.specs.Move.{denied_needs};
ghost use Rattle.fs.specs.Blame.{crossed};
ghost use Rattle.fs.specs.Against.{compared, needs_against, refer_against, escaping_against, crossed_against};

use access::rights::Rights;
use fs::verdict::Move;
use judge::climb::layer_climb;
use judge::rules::{layer_rules, rights_on};
use tables::rows::PATH_RULE;

// The sets that a layer holds against a question: what it denies, and what it holds against a move between two directories.
#[derive(Clone, Copy)]
pub struct Against {
    pub denied: Rights,
    pub crossed: Rights,
}

// The rights that containment compares.
fn compared_rights(m: Move) -> Rights
    ensures { result.0 ≡ compared m }
{
    if m.source == m.target {
        return Rights::NONE;
    }
    m.rights.join(m.back)
}

// The needs other than REFER that the layer denies, by what it denies at the two directories.
fn needs_against(m: Move, d1: Rights, d2: Rights) -> Rights
    ensures { result.0 ≡ needs_against m d1.0 d2.0 }
{
    let a = d1.meet(m.leave.without(Rights::REFER));
    a.join(d2.meet(m.enter.without(Rights::REFER)))
}

// What is left of a set without the rights of the layer's rule on an object. Of none nothing is left, whatever the rule is.
fn left_by_rule(layers: &[u64], pool: &[u64], l: u64, object: u64, held: Rights) -> Rights
    ensures { result.0 ≡ without held.0 (rights_on (layer_at layers.now pool.now l).rules path_rule object) }
{
    if held.is_empty() {
        return held;
    }
    held.without(rights_on(layer_rules(layers, pool, l), PATH_RULE, object))
}

// REFER, where it is needed and denied.
fn refer_against(m: Move, d1: Rights, d2: Rights) -> Rights
    ensures { result.0 ≡ refer_against m d1.0 d2.0 }
{
    let a = d1.meet(m.leave.meet(Rights::REFER));
    a.join(d2.meet(m.enter.meet(Rights::REFER)))
}

// The rights that fail containment, of both moves.
fn escaping_against(layers: &[u64], pool: &[u64], l: u64, m: Move, d1: Rights, d2: Rights) -> Rights
    ensures { result.0 ≡ escaping_against m d1.0 d2.0 (rights_on (layer_at layers.now pool.now l).rules path_rule m.object) (rights_on (layer_at layers.now pool.now l).rules path_rule m.other) }
{
    let there = left_by_rule(layers, pool, l, m.object, d1.meet(m.rights).without(d2));
    let back = left_by_rule(layers, pool, l, m.other, d2.meet(m.back).without(d1));
    there.join(back)
}

// REFER if the layer denies it, and otherwise the rights that fail containment.
fn crossed_against(layers: &[u64], pool: &[u64], l: u64, m: Move, d1: Rights, d2: Rights) -> Rights
    ensures { result.0 ≡ crossed_against m d1.0 d2.0 (rights_on (layer_at layers.now pool.now l).rules path_rule m.object) (rights_on (layer_at layers.now pool.now l).rules path_rule m.other) }
{
    if m.source == m.target {
        return Rights::NONE;
    }
    if !refer_against(m, d1, d2).is_empty() {
        return Rights::REFER;
    }
    escaping_against(layers, pool, l, m, d1, d2)
}

// What the layer holds against a move, by what it denies at the source's directory and at the target directory, at least of the rights that
// matter there.
pub fn held_against(
    layers: &[u64],
    pool: &[u64],
    l: u64,
    m: Move,
    d1: Rights,
    d2: Rights,
) -> Against
    ensures needs { result.denied.0 ≡ needs_against m d1.0 d2.0 }
    ensures crossed { result.crossed.0 ≡ crossed_against m d1.0 d2.0 (rights_on (layer_at layers.now pool.now l).rules path_rule m.object) (rights_on (layer_at layers.now pool.now l).rules path_rule m.other) }
{
    Against {
        denied: needs_against(m, d1, d2),
        crossed: crossed_against(layers, pool, l, m, d1, d2),
    }
}

// The same by one climb from each directory.
pub fn layer_against(entries: &[u64], layers: &[u64], pool: &[u64], l: u64, m: Move) -> Against
    ensures needs { result.denied.0 ≡ denied_needs entries.now (layer_at layers.now pool.now l) m }
    ensures crossed { result.crossed.0 ≡ crossed entries.now (layer_at layers.now pool.now l) m }
{
    let wide = compared_rights(m);
    let d1 = layer_climb(entries, layers, pool, l, m.source, m.leave.join(wide)).missing;
    let d2 = layer_climb(entries, layers, pool, l, m.target, m.enter.join(wide)).missing;
    held_against(layers, pool, l, m, d1, d2)
}
