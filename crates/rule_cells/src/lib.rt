// The cells of a list of rules, by name. A cell that is not there reads as 0.
#![tactic(auto)]

ghost use Rattle.std.specs.Prelude.{◌≡◌, ◌<◌};
ghost use Rattle.laws.specs.Cells.{cell};
ghost use Rattle.tables.specs.Tables.{rule_width, rule_type, rule_key, rule_rights};
ghost use Rattle.sound_rules.specs.Rules.{rule_count};

use access::rights::Rights;
use tables::rows::{RULE_KEY, RULE_RIGHTS, RULE_WIDTH};

// Cell `k` of a rule.
fn rule_cell(rules: &[u64], i: usize, k: usize) -> u64
    requires { k < rule_width }
    ensures { result ≡ cell rules.now rule_width i k }
{
    if i < rules.len() {
        let at = RULE_WIDTH * i + k;
        if at < rules.len() {
            return rules[at];
        }
    }
    0
}

pub fn rule_type(rules: &[u64], i: usize) -> u64
    ensures { result ≡ rule_type rules.now i }
{
    rule_cell(rules, i, 0)
}

pub fn rule_key(rules: &[u64], i: usize) -> u64
    ensures { result ≡ rule_key rules.now i }
{
    rule_cell(rules, i, RULE_KEY)
}

pub fn rule_rights(rules: &[u64], i: usize) -> Rights
    ensures { result.0 ≡ rule_rights rules.now i }
{
    Rights(rule_cell(rules, i, RULE_RIGHTS))
}

// How many rules the cells hold.
pub fn rule_count(rules: &[u64]) -> usize
    ensures { result ≡ rule_count rules.now }
{
    rules.len() / RULE_WIDTH
}
