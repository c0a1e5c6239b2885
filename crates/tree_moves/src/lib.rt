// What a link, rename or exchange asks for.
#![tactic(auto)]

ghost use Rattle.std.specs.Prelude.{◌≡◌, true};
ghost use Rattle.access.specs.declared.kinds.MaybeKind.TheVariants.{None};
ghost use Rattle.fs.specs.NeedsTable.{NeedsTable};
ghost use Rattle.fs.specs.declared.needs.Step.TheVariants.{Link, Exchange};
ghost use Rattle.tree.specs.Moves.{needs_from, needs_to, kind_at, replaced_kind, move_of, link_move, rename_move, exchange_move};
ghost use Rattle.tree_moves.specs.Rows.{reads_possible};

use access::kinds::{Kind, MaybeKind};
use access::rights::Rights;
use fs::needs::{Asked, Step, needs};
use fs::table::NEEDS_ROWS;
use fs::verdict::{Move, entry_rights};
use tables::rows::{kind_of, object_of, parent_of};
use tree::Replaced;

fn asked_of(
    table: &[u32; NEEDS_ROWS],
    step: Step,
    moved: MaybeKind,
    other: MaybeKind,
    same: bool,
) -> Asked
    requires { NeedsTable table.now × (reads_possible step moved other ≡ true) }
    ensures { (result.source.0 ≡ needs_from step moved other same) × (result.target.0 ≡ needs_to step moved other same) }
{
    match moved {
        MaybeKind::Known(kind) => needs(table, step, kind, other, same),
        MaybeKind::None => Asked {
            source: Rights::NONE,
            target: Rights::NONE,
        },
    }
}

fn kind_at(entries: &[u64], e: u64) -> MaybeKind
    ensures { result ≡ kind_at entries.now e }
{
    Kind::of_number(kind_of(entries, e))
}

fn replaced_kind(entries: &[u64], x: Replaced) -> MaybeKind
    ensures { result ≡ replaced_kind entries.now x }
{
    match x {
        Replaced::None => MaybeKind::None,
        Replaced::Entry(y) => kind_at(entries, y),
    }
}

fn move_of(
    table: &[u32; NEEDS_ROWS],
    step: Step,
    entries: &[u64],
    s: u64,
    d: u64,
    replaced: MaybeKind,
    other: u64,
    back: Rights,
) -> Move
    requires { NeedsTable table.now × (reads_possible step (kind_at entries.now s) replaced ≡ true) }
    ensures { result ≡ move_of step entries.now s d replaced other back.0 }
{
    let source = parent_of(entries, s);
    let asked = asked_of(table, step, kind_at(entries, s), replaced, source == d);
    let leave = asked.source;
    let enter = asked.target;
    Move {
        source,
        target: d,
        leave,
        enter,
        object: object_of(entries, s),
        rights: entry_rights(entries, s),
        other,
        back,
    }
}

pub fn link_move(table: &[u32; NEEDS_ROWS], entries: &[u64], s: u64, d: u64) -> Move
    requires { NeedsTable table.now × (reads_possible Link (kind_at entries.now s) None ≡ true) }
    ensures { result ≡ link_move entries.now s d }
{
    move_of(
        table,
        Step::Link,
        entries,
        s,
        d,
        MaybeKind::None,
        0,
        Rights::NONE,
    )
}

pub fn rename_move(table: &[u32; NEEDS_ROWS], entries: &[u64], s: u64, d: u64, x: Replaced) -> Move
    requires { NeedsTable table.now }
    ensures { result ≡ rename_move entries.now s d x }
{
    let replaced = replaced_kind(entries, x);
    move_of(
        table,
        Step::Rename,
        entries,
        s,
        d,
        replaced,
        0,
        Rights::NONE,
    )
}

pub fn exchange_move(table: &[u32; NEEDS_ROWS], entries: &[u64], s: u64, d: u64, x: u64) -> Move
    requires { NeedsTable table.now × (reads_possible Exchange (kind_at entries.now s) (kind_at entries.now x) ≡ true) }
    ensures { result ≡ exchange_move entries.now s d x }
{
    let other = object_of(entries, x);
    let back = entry_rights(entries, x);
    move_of(
        table,
        Step::Exchange,
        entries,
        s,
        d,
        kind_at(entries, x),
        other,
        back,
    )
}
