// Who bears a name in a directory, by the index that the soundness test of the names fills.
#![tactic(auto)]

ghost use Rattle.std.specs.Prelude.{◌≡◌, ◌≤◌, length};
ghost use Rattle.names.specs.Names.{max_name, taken, bearer};
ghost use Rattle.sound_names_chains.specs.Chains.{Indexed, IndexedIf};
ghost use Rattle.name_index.specs.Row.{own_row};

use access::limits::MAX_ENTRIES;
use name_bearer::bearer;
use names::{MAX_NAME, NAME_WIDTH};
use sound_names_walk::{Walked, bucket_of, fold, walk};
use tree::Replaced;

// The row of a name: its length, the name, then zeros.
fn row_of(name: &[u8]) -> [u8; NAME_WIDTH]
    requires { length name.now ≤ max_name }
    ensures { result ≡ own_row name.now }
{
    let mut row = [0u8; NAME_WIDTH];
    row[0] = name.len() as u8;
    let mut i = 0;
    while i < name.len() {
        row[i + 1] = name[i];
        i += 1;
    }
    row
}

// The bearer of a name, by the chain of its bucket. No chain is longer than there are entries; if steps ran out, a scan would decide.
fn bearer_on_chain(
    entries: &[u64],
    names: &[u8],
    heads: &[u16],
    links: &[u16],
    d: u64,
    name: &[u8],
) -> Replaced
    requires { Indexed entries.now names.now heads.now links.now }
    ensures { result ≡ bearer entries.now names.now d name.now }
{
    if name.len() > MAX_NAME {
        return Replaced::None;
    }
    let row = row_of(name);
    let b = bucket_of(fold(d, &row));
    let head = heads[b] as usize;
    let walked = walk(entries, names, links, d, &row, head, MAX_ENTRIES);
    match walked {
        Walked::Missing(left) => {
            if left == 0 {
                return bearer(entries, names, d, name);
            }
            Replaced::None
        }
        Walked::Found(x) => Replaced::Entry(x as u64),
    }
}

// The entry that bears the name in the directory, if one does: by the index if that is whole, and else by a scan.
pub fn bearer_by_index(
    entries: &[u64],
    names: &[u8],
    heads: &[u16],
    links: &[u16],
    whole: bool,
    d: u64,
    name: &[u8],
) -> Replaced
    requires { IndexedIf whole entries.now names.now heads.now links.now }
    ensures { result ≡ bearer entries.now names.now d name.now }
{
    if whole {
        return bearer_on_chain(entries, names, heads, links, d, name);
    }
    bearer(entries, names, d, name)
}

// Some entry bears the name in the directory.
pub fn is_taken_by_index(
    entries: &[u64],
    names: &[u8],
    heads: &[u16],
    links: &[u16],
    whole: bool,
    d: u64,
    name: &[u8],
) -> bool
    requires { IndexedIf whole entries.now names.now heads.now links.now }
    ensures { result ≡ taken entries.now names.now d name.now }
{
    let x = bearer_by_index(entries, names, heads, links, whole, d, name);
    match x {
        Replaced::None => false,
        Replaced::Entry(_) => true,
    }
}
