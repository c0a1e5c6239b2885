// Rules are sound, and no two have the same type and key.
#![tactic(auto)]

ghost use Rattle.std.specs.Prelude.{◌≡◌, true, ◌+◌, ◌*◌, ◌<◌, length};
ghost use Rattle.access.specs.Limits.{max_entries};
ghost use Rattle.tables.specs.Tables.{entry_width, rule_type, rule_key};
ghost use Rattle.sound_objects.specs.Objects.{Indexed};
ghost use Rattle.sound_rules.specs.Flags.{flag_of, key_is, Marked};
ghost use Rattle.sound_rules.specs.Rules.{new_key, rule_count, rules_sound};

use access::rights::Rights;
use bitmap::{WORD_BITS, is_set, set_flag};
use sound_rules::cells_sound;
use tables::rows::{RULE_KEY, RULE_RIGHTS, RULE_WIDTH};

// The flags of keys.
const FLAGS: u64 = 1024;

// Rule `j` has the type and the key.
fn same_key(rules: &[u64], j: usize, ty: u64, key: u64) -> bool
    requires { j < rule_count rules.now }
    ensures { result ≡ key_is rules.now j ty key }
{
    if key != rules[RULE_WIDTH * j + RULE_KEY] {
        return false;
    }
    ty == rules[RULE_WIDTH * j]
}

// No rule before rule `i` has its type and its key.
fn new_key(rules: &[u64], i: usize, ty: u64, key: u64) -> bool
    requires { (i < rule_count rules.now) × ((ty ≡ rule_type rules.now i) × (key ≡ rule_key rules.now i)) }
    ensures { result ≡ new_key rules.now i }
{
    (0..i).all(|j| !same_key(rules, j, ty, key))
}

fn flag_of(key: u64) -> usize
    ensures { result ≡ flag_of key }
{
    (key % FLAGS) as usize
}

// The key of rule `i` is new: a clear flag tells so, and gets set; where it is set already, the rules before decide.
fn take_key(rules: &[u64], seen: &mut [u64], i: usize, ty: u64, key: u64) -> bool
    requires { (i < rule_count rules.now) × ((ty ≡ rule_type rules.now i) × (key ≡ rule_key rules.now i)) × ((length seen.old ≡ 16) × Marked rules.now seen.old i) }
    ensures { (result ≡ new_key rules.now i) × (result ≡ true → Marked rules.now seen.new (i + 1)) }
{
    let b = flag_of(key);
    if is_set(seen, b) {
        return new_key(rules, i, ty, key);
    }
    set_flag(seen, b);
    true
}

// Every rule of the cells is sound, and no two are for the same object or port.
pub fn rules_sound(
    entries: &[u64],
    heads: &[u16],
    links: &[u16],
    next: u64,
    fs: Rights,
    net: Rights,
    rules: &[u64],
) -> bool
    requires { (length entries.now ≡ entry_width * max_entries) × Indexed entries.now heads.now links.now }
    ensures { result ≡ rules_sound entries.now next fs.0 net.0 rules.now }
{
    let n = rules.len() / RULE_WIDTH;
    let mut seen = [0u64; FLAGS as usize / WORD_BITS];
    for i in 0..n {
        let ty = rules[RULE_WIDTH * i];
        let key = rules[RULE_WIDTH * i + RULE_KEY];
        let rights = Rights(rules[RULE_WIDTH * i + RULE_RIGHTS]);
        if !cells_sound(entries, heads, links, next, fs, net, ty, key, rights) {
            return false;
        }
        if !take_key(rules, &mut seen, i, ty, key) {
            return false;
        }
    }
    true
}
