// The fields of a log, tried one after another on a tree.
#![tactic(auto)]

ghost use Rattle.std.specs.Prelude.{◌≡◌};
ghost use Rattle.policy.specs.Fields.{pieces};
ghost use Rattle.tree_log.specs.Replay.{replayed};
ghost use Rattle.log_checks.specs.Checks.{tree_with};
ghost use Rattle.log_replay.specs.Replays.{SoundTree, replayed_as};

use log_changes::try_field;
use policy::{HEADER, Span};
use policy_fields::{Field, field_at};

// What a log comes to: the bytes dropped at its tail, or a field that is EBADMSG.
#[derive(Clone, Copy)]
pub enum Replay {
    Applied(usize),
    Faulty,
}

// Makes the changes of whole fields in order, up to a faulty one. On `Faulty` the tree is no longer of use.
pub fn replay_fields(entries: &mut [u64], names: &mut [u8], next: &mut u64, log: &[u8]) -> Replay
    requires { SoundTree (tree_with entries.old names.old next.old) }
    ensures { replayed_as result (tree_with entries.new names.new next.new) ≡ replayed (pieces log.now) (tree_with entries.old names.old next.old) }
{
    let end = log.len();
    let mut at = 0;
    while at < end {
        let left = end - at;
        let Field::Whole { tag, next: after } = field_at(log, Span { at, end }) else {
            return Replay::Applied(left);
        };
        let from = at + HEADER;
        if !try_field(entries, names, next, tag, &log[from..after]) {
            return Replay::Faulty;
        }
        at = after;
    }
    Replay::Applied(0)
}
