// A layer's rules: the part of the pool that holds them, and the rights of a rule.
ghost use Rattle.std.specs.Prelude.{◌≡◌, ◌+◌, ◌*◌, ◌/◌, ◌≤◌, min, length};
ghost use Rattle.tables.specs.Tables.{rule_width};
ghost use Rattle.tables.specs.Layers.{layer_at, ruleset_at};
ghost use Rattle.judge.specs.Rules.{is_rule, rule_place, rights_on};

use access::rights::Rights;
use cells::{read, row_start};
use tables::rows::{
    RULE_KEY, RULE_RIGHTS, RULE_WIDTH, RULESET_HEAD, RULESET_WIDTH, layer_count, layer_first,
    ruleset_count,
};

// The rule whose cells start at `at` is of the type and for the key.
fn is_rule(rules: &[u64], ty: u64, key: u64, at: usize) -> bool
    requires start { at ≡ rule_width * (at / rule_width) }
    requires room { at + rule_width ≤ length rules.now }
    ensures { result ≡ is_rule rules.now ty key (at / rule_width) }
{
    if rules[at + RULE_KEY] != key {
        return false;
    }
    rules[at] == ty
}

// Where the cells of the rule for a key start; past all rules if there is none.
fn rule_start(rules: &[u64], ty: u64, key: u64) -> usize
    ensures { result ≡ rule_width * rule_place rules.now ty key }
{
    let end = RULE_WIDTH * (rules.len() / RULE_WIDTH);
    let mut at = 0;
    while at < end {
        if is_rule(rules, ty, key, at) {
            return at;
        }
        at += RULE_WIDTH;
    }
    end
}

// Where the rule for a key stands; the number of rules if there is none.
pub fn rule_place(rules: &[u64], ty: u64, key: u64) -> usize
    ensures { result ≡ rule_place rules.now ty key }
{
    rule_start(rules, ty, key) / RULE_WIDTH
}

// The rights that its rule gives a key; none if there is no rule.
pub fn rights_on(rules: &[u64], ty: u64, key: u64) -> Rights
    ensures { result.0 ≡ rights_on rules.now ty key }
{
    let at = rule_start(rules, ty, key);
    Rights(read(rules, at + RULE_RIGHTS))
}

// Three times a number of rules, and at most `most`.
pub fn cells_of(count: u64, most: usize) -> usize
    ensures { result ≡ min (rule_width * count) most }
{
    if count > (most / RULE_WIDTH) as u64 {
        return most;
    }
    RULE_WIDTH * (count as usize)
}

// A layer's rules: its part of the pool, as much of it as the pool has.
pub fn layer_rules<'a>(layers: &[u64], pool: &'a [u64], l: u64) -> &'a [u64]
    ensures { result.now ≡ (layer_at layers.now pool.now l).rules }
{
    let from = cells_of(layer_first(layers, l), pool.len());
    let more = cells_of(layer_count(layers, l), pool.len() - from);
    let to = from + more;
    &pool[from..to]
}

fn smaller(a: usize, b: usize) -> usize
    ensures { result ≡ min a b }
{
    if a < b { a } else { b }
}

// A ruleset's rules: their part of the row, as much of it as the table has.
pub fn ruleset_rules<'a>(rulesets: &'a [u64], r: u64) -> &'a [u64]
    ensures { result.now ≡ (ruleset_at rulesets.now r).rules }
{
    let start = row_start(rulesets.len(), RULESET_WIDTH, r as usize);
    let from = start + smaller(RULESET_HEAD, rulesets.len() - start);
    let count = ruleset_count(rulesets, r);
    let more = cells_of(count, rulesets.len() - from);
    let to = from + more;
    &rulesets[from..to]
}
