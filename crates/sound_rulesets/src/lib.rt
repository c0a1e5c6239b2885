// The soundness test of the rulesets.
#![tactic(auto)]

ghost use Rattle.std.specs.Prelude.{◌≡◌, ◌*◌, ◌<◌, length};
ghost use Rattle.access.specs.Limits.{max_entries, max_rulesets};
ghost use Rattle.tables.specs.Tables.{entry_width, ruleset_width};
ghost use Rattle.sound_objects.specs.Objects.{Indexed};
ghost use Rattle.sound_rulesets.specs.Rulesets.{ruleset_sound, rulesets_sound};

use access::limits::{MAX_RULES, MAX_RULESETS};
use access::rights::Rights;
use sound_keys::rules_sound;
use sound_rules::masks_known;
use sound_zero::all_zero;
use tables::rows::{
    RULE_WIDTH, RULESET_COUNT, RULESET_HEAD, RULESET_NET, RULESET_SCOPE, RULESET_WIDTH, handles_any,
};

fn ruleset_sound(
    entries: &[u64],
    heads: &[u16],
    links: &[u16],
    next: u64,
    level: u64,
    rulesets: &[u64],
    r: usize,
) -> bool
    requires { (length rulesets.now ≡ ruleset_width * max_rulesets) × ((r < max_rulesets) × ((length entries.now ≡ entry_width * max_entries) × Indexed entries.now heads.now links.now)) }
    ensures { result ≡ ruleset_sound entries.now next level rulesets.now r }
{
    let at = RULESET_WIDTH * r;
    let end = at + RULESET_WIDTH;
    let fs = Rights(rulesets[at]);
    let net = Rights(rulesets[at + RULESET_NET]);
    let scope = Rights(rulesets[at + RULESET_SCOPE]);
    if !handles_any(fs, net, scope) {
        return all_zero(&rulesets[at..end]);
    }
    let count = rulesets[at + RULESET_COUNT] as usize;
    if count > MAX_RULES {
        return false;
    }
    if !masks_known(level, fs, net, scope) {
        return false;
    }
    let from = at + RULESET_HEAD;
    let to = from + RULE_WIDTH * count;
    if !all_zero(&rulesets[to..end]) {
        return false;
    }
    rules_sound(entries, heads, links, next, fs, net, &rulesets[from..to])
}

// The rulesets are sound; `next` is the counter of object numbers, `heads` and `links` are the index of objects.
pub fn rulesets_sound(
    entries: &[u64],
    heads: &[u16],
    links: &[u16],
    next: u64,
    level: u64,
    rulesets: &[u64],
) -> bool
    requires { (length rulesets.now ≡ ruleset_width * max_rulesets) × ((length entries.now ≡ entry_width * max_entries) × Indexed entries.now heads.now links.now) }
    ensures { result ≡ rulesets_sound entries.now next level rulesets.now }
{
    (0..MAX_RULESETS).all(|r| ruleset_sound(entries, heads, links, next, level, rulesets, r))
}
