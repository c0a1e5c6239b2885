// A move as the verdict judges it, and the rights that an entry can hold.
ghost use Rattle.std.specs.Prelude.{◌≡◌};
ghost use Rattle.fs.specs.Move.{entry_rights};

use access::rights::Rights;
use tables::rows::is_dir;

// What moves from where to where.
#[derive(Clone, Copy)]
pub struct Move {
    // The source's parent and the target directory.
    pub source: u64,
    pub target: u64,
    // The needs at each of them.
    pub leave: Rights,
    pub enter: Rights,
    // The moved object, and the rights that its kind can hold.
    pub object: u64,
    pub rights: Rights,
    // The object that an exchange moves the other way, and the rights that its kind can hold; none for link and rename.
    pub other: u64,
    pub back: Rights,
}

// The rights that an entry can hold.
pub fn entry_rights(entries: &[u64], e: u64) -> Rights
    ensures { result.0 ≡ entry_rights entries.now e }
{
    if is_dir(entries, e) {
        Rights::ALL_FS
    } else {
        Rights::FILE
    }
}
