// A log replayed on a tree, whole or not at all.
#![tactic(auto)]

ghost use Rattle.std.specs.Prelude.{◌≡◌};
ghost use Rattle.policy.specs.Fields.{pieces};
ghost use Rattle.tree_log.specs.Replay.{replayed};
ghost use Rattle.log_checks.specs.Checks.{tree_with};
ghost use Rattle.log_replay.specs.Replays.{SoundTree, replayed_as};
ghost use Rattle.log_copies.specs.Whole.{leaves};

use access::limits::MAX_ENTRIES;
use cells::copy;
use log_replay::{Replay, replay_fields};
use names::NAME_WIDTH;
use policy_bytes::put_bytes;
use tables::rows::ENTRIES_CELLS;

// The bytes of the table of names.
const NAMES_BYTES: usize = NAME_WIDTH * MAX_ENTRIES;

// The changes are made on copies, so a faulty field leaves every cell.
pub fn replay_tree(entries: &mut [u64], names: &mut [u8], next: &mut u64, log: &[u8]) -> Replay
    requires { SoundTree (tree_with entries.old names.old next.old) }
    ensures answer { replayed_as result (tree_with entries.new names.new next.new) ≡ replayed (pieces log.now) (tree_with entries.old names.old next.old) }
    ensures left { tree_with entries.new names.new next.new ≡ leaves (tree_with entries.old names.old next.old) (replayed (pieces log.now) (tree_with entries.old names.old next.old)) }
{
    let mut copied_entries = [0u64; ENTRIES_CELLS];
    copy(&mut copied_entries, 0, entries);
    let mut copied_names = [0u8; NAMES_BYTES];
    put_bytes(&mut copied_names, 0, names);
    let mut after = *next;
    let replay = replay_fields(&mut copied_entries, &mut copied_names, &mut after, log);
    let Replay::Applied(dropped) = replay else {
        return Replay::Faulty;
    };
    copy(entries, 0, &copied_entries);
    put_bytes(names, 0, &copied_names);
    *next = after;
    Replay::Applied(dropped)
}
