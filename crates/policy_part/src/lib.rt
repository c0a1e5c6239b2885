// A ruleset's part of a policy file, applied to sound tables.
#![tactic(auto)]

ghost use Rattle.std.specs.Prelude.{◌≡◌, true};
ghost use Rattle.tables.specs.Tables.{tables, level};
ghost use Rattle.theorems.specs.Calls.{create_ruleset};
ghost use Rattle.policy.specs.Meaning.{rules_of, attribute};
ghost use Rattle.policy_walk.specs.Flat.{flatten};
ghost use Rattle.named.specs.Named.{with_names, named_sound, named_outcome};
ghost use Rattle.named.specs.Policy.{on_named, applied};
ghost use Rattle.policy_rule_add.specs.Added.{Soundly};

use access::errno::Reply;
use policy::MASKS_SIZE;
use policy_attribute::{any_group, cut_masks, masks_of};
use policy_rules_add::add_rules;
use ruleset_apply::create;
use tables::rows::level_of;

// Opens a ruleset with the part's masks; in one with groups they lose the bits that only higher levels know.
fn open_ruleset(
    system: &[u64],
    entries: &[u64],
    rulesets: &mut [u64],
    layers: &[u64],
    pool: &[u64],
    threads: &[u64],
    names: &[u8],
    part: &[u8],
) -> Reply
    requires { named_sound (with_names (tables system.now entries.now rulesets.old layers.now pool.now threads.now) names.now) ≡ true }
    ensures { Soundly (on_named (with_names (tables system.now entries.now rulesets.old layers.now pool.now threads.now) names.now) (create_ruleset (attribute (level system.now) part.now) 0)) result (with_names (tables system.now entries.now rulesets.new layers.now pool.now threads.now) names.now) }
{
    let masks = masks_of(part);
    if any_group(part) {
        let mut cut = [0u8; MASKS_SIZE];
        cut_masks(masks, level_of(system), &mut cut);
        return create(system, entries, rulesets, layers, pool, threads, &cut, 0);
    }
    create(system, entries, rulesets, layers, pool, threads, masks, 0)
}

// Opens a ruleset and adds the part's rules. A refusal leaves no ruleset open.
pub fn apply_part(
    system: &[u64],
    entries: &[u64],
    rulesets: &mut [u64],
    layers: &[u64],
    pool: &[u64],
    threads: &[u64],
    names: &[u8],
    part: &[u8],
) -> Reply
    requires { (named_sound (with_names (tables system.now entries.now rulesets.old layers.now pool.now threads.now) names.now) ≡ true) × (flatten (level system.now) part.now ≡ rules_of (level system.now) part.now) }
    ensures { named_outcome result (with_names (tables system.now entries.now rulesets.new layers.now pool.now threads.now) names.now) ≡ applied (with_names (tables system.now entries.now rulesets.old layers.now pool.now threads.now) names.now) part.now }
{
    match open_ruleset(
        system, entries, rulesets, layers, pool, threads, names, part,
    ) {
        Reply::Done(r) => {
            add_rules(
                system, entries, rulesets, layers, pool, threads, names, part, r,
            )
        }
        Reply::Refused(e) => Reply::Refused(e),
        Reply::Denied(e, l, s) => Reply::Denied(e, l, s),
    }
}
