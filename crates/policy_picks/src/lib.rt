// The entries picked for path rules, and what refuses a ruleset that is to be written.
#![tactic(auto)]

ghost use Rattle.std.specs.Prelude.{◌≡◌, ◌≤◌, ◌<◌, leb, ltb, length};
ghost use Rattle.laws.specs.Refusals.{first};
ghost use Rattle.laws.specs.Tests.{any_below};
ghost use Rattle.access.specs.Limits.{max_entries};
ghost use Rattle.sound_rules.specs.Rules.{rule_count};
ghost use Rattle.names.specs.Paths.{max_path, path_of};
ghost use Rattle.policy_write.specs.File.{write_rules};
ghost use Rattle.policy_paths.specs.Rooted.{Rooted};
ghost use Rattle.policy_picks.specs.Picks.{pick_of, Picks, pick_at, any_pick, sweeps_at};

use access::errno::Errno;
use access::limits::MAX_ENTRIES;
use access::rights::Rights;
use names::MAX_PATH;
use policy_paths::{choose, path_length};
use rule_cells::{rule_count, rule_key, rule_rights, rule_type};
use tables::rows::{PATH_RULE, object_of};

// The entry that is picked for a rule.
fn pick(entries: &[u64], names: &[u8], rules: &[u64], i: usize) -> u64
    requires { Rooted entries.now names.now }
    ensures { result ≡ pick_of entries.now names.now rules.now i }
{
    if rule_type(rules, i) != PATH_RULE {
        return 0;
    }
    choose(entries, names, rule_key(rules, i))
}

// The entries that are picked, each in the cell of its rule.
pub fn pick_all(entries: &[u64], names: &[u8], rules: &[u64], picks: &mut [u64])
    requires { Rooted entries.now names.now × (rule_count rules.now ≤ length picks.old) }
    ensures { Picks entries.now names.now rules.now picks.new }
{
    let n = rule_count(rules);
    let mut i = 0;
    while i < n {
        picks[i] = pick(entries, names, rules, i);
        i += 1;
    }
}

// A rule on the root's object that asks for a right of the write set.
fn sweeps(entries: &[u64], rules: &[u64], i: usize) -> bool
    ensures { result ≡ sweeps_at entries.now rules.now i }
{
    if rule_type(rules, i) != PATH_RULE {
        return false;
    }
    if rule_key(rules, i) != object_of(entries, 0) {
        return false;
    }
    let rights = rule_rights(rules, i);
    !rights.meet(Rights::WRITE).is_empty()
}

fn any_sweeps(entries: &[u64], rules: &[u64]) -> bool
    ensures { result ≡ any_below (sweeps_at entries.now rules.now) (rule_count rules.now) }
{
    let n = rule_count(rules);
    let mut i = 0;
    while i < n {
        if sweeps(entries, rules, i) {
            return true;
        }
        i += 1;
    }
    false
}

// A rule whose object has no entry left.
fn lacks_entry(rules: &[u64], picks: &[u64], i: usize) -> bool
    requires { i < length picks.now }
    ensures { result ≡ pick_at (leb max_entries) rules.now picks.now i }
{
    if rule_type(rules, i) != PATH_RULE {
        return false;
    }
    picks[i] >= MAX_ENTRIES as u64
}

fn any_lacking(rules: &[u64], picks: &[u64]) -> bool
    requires { rule_count rules.now ≤ length picks.now }
    ensures { result ≡ any_pick (leb max_entries) rules.now picks.now }
{
    let n = rule_count(rules);
    let mut i = 0;
    while i < n {
        if lacks_entry(rules, picks, i) {
            return true;
        }
        i += 1;
    }
    false
}

// A rule whose path is over-long.
fn is_overlong(entries: &[u64], names: &[u8], rules: &[u64], picks: &[u64], i: usize) -> bool
    requires { i < length picks.now }
    ensures { result ≡ pick_at (λ e. ltb max_path (length (path_of entries.now names.now e))) rules.now picks.now i }
{
    if rule_type(rules, i) != PATH_RULE {
        return false;
    }
    path_length(entries, names, picks[i]) > MAX_PATH
}

fn any_overlong(entries: &[u64], names: &[u8], rules: &[u64], picks: &[u64]) -> bool
    requires { rule_count rules.now ≤ length picks.now }
    ensures { result ≡ any_pick (λ e. ltb max_path (length (path_of entries.now names.now e))) rules.now picks.now }
{
    let n = rule_count(rules);
    let mut i = 0;
    while i < n {
        if is_overlong(entries, names, rules, picks, i) {
            return true;
        }
        i += 1;
    }
    false
}

// What refuses the rules: EPERM, ENOENT, ENAMETOOLONG; 0 if nothing does.
pub fn write_rules(entries: &[u64], names: &[u8], rules: &[u64], picks: &[u64]) -> u64
    requires { Picks entries.now names.now rules.now picks.now }
    ensures { result ≡ first (write_rules entries.now names.now rules.now) }
{
    if any_sweeps(entries, rules) {
        return Errno::EPERM.0;
    }
    if any_lacking(rules, picks) {
        return Errno::ENOENT.0;
    }
    if any_overlong(entries, names, rules, picks) {
        return Errno::ENAMETOOLONG.0;
    }
    0
}
