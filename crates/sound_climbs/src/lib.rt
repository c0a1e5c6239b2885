// From every live entry a climb comes to entry 0.
#![tactic(auto)]

ghost use Rattle.std.specs.Prelude.{◌≡◌, true, ◌+◌, ◌*◌, ◌<◌, length};
ghost use Rattle.laws.specs.Tests.{all_below};
ghost use Rattle.access.specs.Limits.{max_entries};
ghost use Rattle.tables.specs.Tables.{entry_width, live};
ghost use Rattle.sound_objects.specs.Rows.{Ends};
ghost use Rattle.sound_tree.specs.Tree.{reaches};
ghost use Rattle.sound_tree.specs.Fast.{live_climb_ends, ParentsLive, Known};

use access::limits::MAX_ENTRIES;
use tables::rows::{ENTRY_PARENT, ENTRY_WIDTH};

// Climbing from `e` comes to entry 0. The entries on the way get the climb's mark: an older one's is known to come there, its own is a cycle.
fn climb_ends(entries: &[u64], marks: &mut [u64], e: usize) -> bool
    requires { (length entries.now ≡ entry_width * max_entries) × (((e < max_entries) × (live entries.now e ≡ true)) × (ParentsLive entries.now × Known entries.now marks.old e)) }
    ensures { (result ≡ reaches entries.now max_entries e) × (result ≡ true → Known entries.now marks.new (e + 1)) }
{
    // A number, with 0 for no mark: the table starts as zeros, and one comparison tells the climb's own mark from an older one.
    let own = e as u64 + 1;
    let mut at = e;
    for _ in 0..MAX_ENTRIES {
        if at == 0 {
            return true;
        }
        let mark = marks[at];
        if mark != 0 {
            return mark != own;
        }
        marks[at] = own;
        at = entries[ENTRY_WIDTH * at + ENTRY_PARENT] as usize;
    }
    at == 0
}

// Every climb from a live entry comes to entry 0.
pub fn climbs_end(entries: &[u64], end: usize) -> bool
    requires { Ends entries.now end × ParentsLive entries.now }
    ensures { result ≡ all_below (live_climb_ends entries.now) max_entries }
{
    let mut marks = [0u64; MAX_ENTRIES];
    for e in 0..end {
        if entries[ENTRY_WIDTH * e] != 0 {
            if !climb_ends(entries, &mut marks, e) {
                return false;
            }
        }
    }
    true
}
