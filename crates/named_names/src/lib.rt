// The names after a rename and after an exchange: two entries of one object keep theirs.
#![tactic(auto)]

ghost use Rattle.std.specs.Prelude.{◌≡◌, ◌≤◌, length};
ghost use Rattle.names.specs.Names.{max_name};
ghost use Rattle.named.specs.Tree.{renamed_names, swapped_names};

use name_rows::{drop_name, put_name, swap_names};
use tree::Replaced;
use tree::entries::same_object;
use tree_replaced::is_same;

// The entry `s` bears the name, in place of the entry `x`.
pub fn put_renamed(entries: &[u64], names: &mut [u8], s: u64, name: &[u8], x: Replaced)
    requires { length name.now ≤ max_name }
    ensures { names.new ≡ renamed_names entries.now names.old s name.now x }
{
    if is_same(entries, s, x) {
        return;
    }
    drop_name(names, x);
    put_name(names, s, name);
}

// The entries `s` and `x` bear each other's name.
pub fn put_swapped(entries: &[u64], names: &mut [u8], s: u64, x: u64)
    ensures { names.new ≡ swapped_names entries.now names.old s x }
{
    if same_object(entries, s, x) {
        return;
    }
    swap_names(names, s, x);
}
