// The needs of link, rename and exchange at the source's directory and at the target directory: a table, and how it is read.
ghost use Rattle.std.specs.Prelude.{◌≡◌, true, ◌≤◌, ◌<◌};
ghost use Rattle.access.specs.Kinds.{kind_number, last_kind};
ghost use Rattle.fs.specs.Needs.{make_of, remove_of, source_needs, target_needs};
ghost use Rattle.fs.specs.NeedsTable.{step_number, other_number, same_number, needs_row, needs_rows, possible, NeedsTable};

use crate::table::NEEDS_ROWS;
use access::kinds::{Kind, MaybeKind};
use access::rights::Rights;
use tables::rows::LAST_KIND;

#[derive(Clone, Copy)]
pub enum Step {
    Link,
    Rename,
    Exchange,
}

#[derive(Clone, Copy)]
pub struct Asked {
    pub source: Rights,
    pub target: Rights,
}

// The right to make an entry of a kind, if there is one.
pub fn make_of(k: MaybeKind) -> Rights
    ensures { result.0 ≡ make_of k }
{
    match k {
        MaybeKind::Known(kind) => kind.make_right(),
        MaybeKind::None => Rights::NONE,
    }
}

// The right to remove an entry of a kind, if there is one.
pub fn remove_of(k: MaybeKind) -> Rights
    ensures { result.0 ≡ remove_of k }
{
    match k {
        MaybeKind::Known(kind) => kind.remove_right(),
        MaybeKind::None => Rights::NONE,
    }
}

const SET: u64 = 65536;

fn step_number(step: Step) -> usize
    ensures { (result ≡ step_number step) × (result < 3) }
{
    match step {
        Step::Link => 0,
        Step::Rename => 1,
        Step::Exchange => 2,
    }
}

fn kind_number(kind: Kind) -> usize
    ensures { (result ≡ kind_number kind) × ((0 < result) × (result ≤ last_kind)) }
{
    kind.number() as usize
}

fn other_number(other: MaybeKind) -> usize
    ensures { (result ≡ other_number other) × (result ≤ last_kind) }
{
    match other {
        MaybeKind::Known(kind) => kind_number(kind),
        MaybeKind::None => 0,
    }
}

fn same_number(same: bool) -> usize
    ensures { (result ≡ same_number same) × (result < 2) }
{
    if same { 1 } else { 0 }
}

fn needs_row(step: Step, moved: Kind, other: MaybeKind, same: bool) -> usize
    ensures { (result ≡ needs_row step moved other same) × (result < needs_rows) }
{
    let kinds = LAST_KIND as usize;
    let source = kinds * step_number(step) + (kind_number(moved) - 1);
    2 * ((kinds + 1) * source + other_number(other)) + same_number(same)
}

fn wide(x: u32) -> u64
    ensures { result ≡ x }
{
    x as u64
}

// What the moved entry's kind, that of the replaced or exchanged one, and whether both directories are the same, ask for. A row of 0 would ask for
// nothing, so none is read.
pub fn needs(
    table: &[u32; NEEDS_ROWS],
    step: Step,
    moved: Kind,
    other: MaybeKind,
    same: bool,
) -> Asked
    requires { NeedsTable table.now × (possible step moved other ≡ true) }
    ensures { (result.source.0 ≡ source_needs step moved other same) × (result.target.0 ≡ target_needs step moved other same) }
{
    let row = needs_row(step, moved, other, same);
    let packed = wide(table[row]);
    Asked {
        source: Rights(packed % SET),
        target: Rights(packed / SET),
    }
}
