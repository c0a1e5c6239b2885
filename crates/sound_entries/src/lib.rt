// The soundness test of the entries, whose rows from `end` on are free.
#![tactic(auto)]

ghost use Rattle.std.specs.Prelude.{◌≡◌, true, ◌*◌, replicate};
ghost use Rattle.access.specs.Limits.{max_entries};
ghost use Rattle.sound_objects.specs.Rows.{Ends};
ghost use Rattle.sound_objects.specs.Objects.{buckets, branches, Indexed};
ghost use Rattle.sound_tree.specs.Tree.{entries_sound};

use sound_climbs::climbs_end;
use sound_links::objects_sound;
use sound_rows::{root_sound, rows_sound};

// The entries are sound; `next` is the counter of object numbers. Fills the index of objects, which starts as zeros.
pub fn entries_sound(
    entries: &[u64],
    end: usize,
    next: u64,
    heads: &mut [u16],
    links: &mut [u16],
) -> bool
    requires { Ends entries.now end × ((heads.old ≡ replicate buckets 0) × (links.old ≡ replicate (branches * max_entries) 0)) }
    ensures { (result ≡ entries_sound entries.now next) × (result ≡ true → Indexed entries.now heads.new links.new) }
{
    if !root_sound(entries) {
        return false;
    }
    if !rows_sound(entries, end, next) {
        return false;
    }
    if !climbs_end(entries, end) {
        return false;
    }
    objects_sound(entries, end, heads, links)
}
