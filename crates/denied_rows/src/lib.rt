// What each layer denies each entry, kept for a batch: a row of cells for each entry, one for each layer. A row is filled when it is first
// asked for, from that of the parent.
#![tactic(auto)]

ghost use Rattle.std.specs.Prelude.{◌≡◌, true, ◌*◌, ◌<◌, ◌≤◌, length};
ghost use Rattle.access.specs.Limits.{max_entries, max_layers};
ghost use Rattle.access.specs.Rights.{all_fs};
ghost use Rattle.tables.specs.Tables.{entry_width, parent, live};
ghost use Rattle.tables.specs.Layers.{layer_fs};
ghost use Rattle.judge.specs.Judge.{handled_by};
ghost use Rattle.sound_tree.specs.Tree.{reaches};
ghost use Rattle.denied_rows.specs.Rows.{top_of, RowsReady, Filled, RowsKept, RowAdded, above, RowTo, row_of};

use access::limits::{MAX_ENTRIES, MAX_LAYERS};
use access::rights::Rights;
use judge::climb::handled_by;
use judge::rules::{layer_rules, rights_on};
use tables::rows::{ENTRY_OBJECT, ENTRY_PARENT, ENTRY_WIDTH, PATH_RULE, layer_fs, layer_in_use};

// The cells of all rows.
pub const ROWS_CELLS: usize = MAX_LAYERS * MAX_ENTRIES;

// One more than the highest layer in use.
pub fn layers_top(layers: &[u64]) -> usize
    ensures { result ≡ top_of layers.now }
{
    let mut n = MAX_LAYERS;
    while n > 0 {
        if layer_in_use(layers, (n - 1) as u64) {
            return n;
        }
        n -= 1;
    }
    0
}

// What the layer denies above the entry.
fn denied_above(entries: &[u64], layers: &[u64], rows: &[u16], e: usize, l: usize) -> Rights
    requires { ((length entries.now ≡ entry_width * max_entries) × (length rows.now ≡ max_layers * max_entries)) × (((e < max_entries) × (parent entries.now e < max_entries)) × ((l < max_layers) × (handled_by (layer_fs layers.now l) ≤ all_fs))) }
    ensures { (result.0 ≡ above entries.now layers.now rows.now e l) × (result.0 ≤ all_fs) }
{
    if e == 0 {
        return handled_by(layer_fs(layers, l as u64));
    }
    let parent = entries[ENTRY_WIDTH * e + ENTRY_PARENT] as usize;
    Rights(rows[MAX_LAYERS * parent + l] as u64)
}

// Fills the cells of a row up to the highest layer in use.
fn fill_cells(entries: &[u64], layers: &[u64], pool: &[u64], rows: &mut [u16], top: usize, e: usize)
    requires { RowsReady entries.now layers.now pool.now × (((e < max_entries) × (live entries.now e ≡ true)) × ((length rows.old ≡ max_layers * max_entries) × (top ≤ max_layers))) }
    ensures { RowTo entries.now layers.now pool.now rows.old rows.new e top }
{
    let object = entries[ENTRY_WIDTH * e + ENTRY_OBJECT];
    let mut l = 0;
    while l < top {
        let held = denied_above(entries, layers, rows, e, l);
        let own = rights_on(layer_rules(layers, pool, l as u64), PATH_RULE, object);
        rows[MAX_LAYERS * e + l] = held.without(own).0 as u16;
        l += 1;
    }
}

// Fills and marks the row of an entry whose parent's row is filled, or of the root.
fn fill_marked(
    entries: &[u64],
    layers: &[u64],
    pool: &[u64],
    rows: &mut [u16],
    marks: &mut [u8],
    top: usize,
    e: usize,
)
    requires { RowsReady entries.now layers.now pool.now × (((live entries.now e ≡ true) × ((e ≡ 0 → ⊥) → Filled marks.old (parent entries.now e))) × ((top ≡ top_of layers.now) × RowsKept entries.now layers.now pool.now rows.old marks.old)) }
    ensures { RowAdded entries.now layers.now pool.now marks.old rows.new marks.new e }
{
    fill_cells(entries, layers, pool, rows, top, e);
    marks[e] = 1;
}

// Fills the row of an entry, after those above it; `left` steps up are left.
fn fill_row(
    entries: &[u64],
    layers: &[u64],
    pool: &[u64],
    rows: &mut [u16],
    marks: &mut [u8],
    top: usize,
    e: usize,
    left: usize,
)
    requires { RowsReady entries.now layers.now pool.now × (((live entries.now e ≡ true) × (reaches entries.now left e ≡ true)) × ((top ≡ top_of layers.now) × RowsKept entries.now layers.now pool.now rows.old marks.old)) }
    ensures { RowAdded entries.now layers.now pool.now marks.old rows.new marks.new e }
{
    if marks[e] != 0 {
        return;
    }
    if e == 0 {
        fill_marked(entries, layers, pool, rows, marks, top, e);
        return;
    }
    let parent = entries[ENTRY_WIDTH * e + ENTRY_PARENT] as usize;
    fill_row(entries, layers, pool, rows, marks, top, parent, left - 1);
    fill_marked(entries, layers, pool, rows, marks, top, e);
}

// Fills the row of an entry where it is not filled yet.
pub fn need_row(
    entries: &[u64],
    layers: &[u64],
    pool: &[u64],
    rows: &mut [u16],
    marks: &mut [u8],
    top: usize,
    e: usize,
)
    requires { RowsReady entries.now layers.now pool.now × ((live entries.now e ≡ true) × ((top ≡ top_of layers.now) × RowsKept entries.now layers.now pool.now rows.old marks.old)) }
    ensures { RowAdded entries.now layers.now pool.now marks.old rows.new marks.new e }
{
    if marks[e] != 0 {
        return;
    }
    fill_row(entries, layers, pool, rows, marks, top, e, MAX_ENTRIES);
}

// The row of an entry.
pub fn row_of<'a>(rows: &'a [u16], e: usize) -> &'a [u16]
    requires { (length rows.now ≡ max_layers * max_entries) × (e < max_entries) }
    ensures { result.now ≡ row_of rows.now e }
{
    let from = MAX_LAYERS * e;
    let to = from + MAX_LAYERS;
    &rows[from..to]
}
