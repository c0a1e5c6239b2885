// The rules of a ruleset's part of a policy file, added one after another to a ruleset of sound tables. The first refusal closes the ruleset.
#![tactic(auto)]

ghost use Rattle.std.specs.Prelude.{◌≡◌, true};
ghost use Rattle.tables.specs.Tables.{tables, level};
ghost use Rattle.policy_walk.specs.Flat.{flatten};
ghost use Rattle.named.specs.Named.{with_names, named_sound, named_outcome};
ghost use Rattle.named.specs.Policy.{add_rules};

use access::errno::Reply;
use policy::Span;
use policy_rule_add::add_rule;
use policy_walk::{Step, next_rule};
use ruleset_apply::close;
use tables::rows::level_of;

// Adds the counted rules of the part in file order, and answers the ruleset's number.
pub fn add_rules(
    system: &[u64],
    entries: &[u64],
    rulesets: &mut [u64],
    layers: &[u64],
    pool: &[u64],
    threads: &[u64],
    names: &[u8],
    part: &[u8],
    r: u64,
) -> Reply
    requires { named_sound (with_names (tables system.now entries.now rulesets.old layers.now pool.now threads.now) names.now) ≡ true }
    ensures { named_outcome result (with_names (tables system.now entries.now rulesets.new layers.now pool.now threads.now) names.now) ≡ add_rules r (flatten (level system.now) part.now) (with_names (tables system.now entries.now rulesets.old layers.now pool.now threads.now) names.now) }
{
    let level = level_of(system);
    let end = part.len();
    let mut at = 0;
    loop {
        let step = next_rule(part, Span { at, end }, level);
        let Step::Rule { tag, from, next } = step else {
            return Reply::Done(r);
        };
        let reply = add_rule(
            system,
            entries,
            rulesets,
            layers,
            pool,
            threads,
            names,
            r,
            tag,
            &part[from..next],
        );
        if reply.is_refused() {
            close(system, entries, rulesets, layers, pool, threads, r);
            return reply;
        }
        at = next;
    }
}
