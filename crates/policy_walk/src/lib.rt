// The counted rules of a ruleset's part, one after another: the walk enters a group that counts, and goes round another.
#![tactic(auto)]

ghost use Rattle.std.specs.Prelude.{◌≡◌, ◌+◌, ◌≤◌, ◌<◌, length};
ghost use Rattle.policy.specs.Fields.{header};
ghost use Rattle.policy_walk.specs.Steps.{is_rule_tag, past_group, StepIs};

use policy::{GROUP_HEADER, GROUP_TAG, HEADER, PATH_TAG, PORT_TAG, Span};
use policy_fields::{Field, field_at};

// The next counted rule: its tag, and where its value starts and ends; or there is none.
#[derive(Clone, Copy)]
pub enum Step {
    Rule { tag: u8, from: usize, next: usize },
    End,
}

fn is_rule_tag(tag: u8) -> bool
    ensures { result ≡ is_rule_tag tag }
{
    if tag == PATH_TAG {
        return true;
    }
    tag == PORT_TAG
}

// Where the walk goes on from the group from `at` to `next`: in it if it counts, else behind it.
fn past_group(f: &[u8], at: usize, next: usize, level: u64) -> usize
    requires { (at + header ≤ next) × (next ≤ length f.now) }
    ensures { result ≡ past_group f.now at next level }
{
    let from = at + GROUP_HEADER;
    if next < from {
        return next;
    }
    if level < f[at + HEADER] as u64 {
        return next;
    }
    from
}

// The next counted rule of a part at a level.
pub fn next_rule(f: &[u8], s: Span, level: u64) -> Step
    requires { (s.at ≤ s.end) × (s.end ≤ length f.now) }
    ensures { StepIs level f.now s.at s.end result }
{
    let end = s.end;
    let mut at = s.at;
    while at < end {
        let Field::Whole { tag, next } = field_at(f, Span { at, end }) else {
            return Step::End;
        };
        if is_rule_tag(tag) {
            let from = at + HEADER;
            return Step::Rule { tag, from, next };
        }
        if tag == GROUP_TAG {
            at = past_group(f, at, next, level);
        } else {
            at = next;
        }
    }
    Step::End
}
