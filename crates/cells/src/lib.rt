// Slices read and written by cell or by row: a cell that is not there reads as 0, and a write there changes nothing.
#![tactic(auto)]

ghost use Rattle.std.specs.Prelude.{◌≡◌, ◌*◌, min, get_or, set, length, replicate};
ghost use Rattle.laws.specs.Cells.{cell, put_cell, zeros, copied};

pub fn read(t: &[u64], i: usize) -> u64
    ensures { result ≡ get_or t.now i 0 }
{
    t.get(i).copied().unwrap_or(0)
}

pub fn write(t: &mut [u64], i: usize, v: u64)
    ensures { t.new ≡ set t.old i v }
{
    if i < t.len() {
        t[i] = v;
    }
}

// Where row `i` starts in a table of `n` cells with rows of `width`; the table's end if it starts past it.
pub fn row_start(n: usize, width: usize, i: usize) -> usize
    ensures { result ≡ min (width * i) n }
{
    width.saturating_mul(i).min(n)
}

// Cell `k` of row `i` of a table with rows of `width` cells.
pub fn row_read(t: &[u64], width: usize, i: usize, k: usize) -> u64
    ensures { result ≡ cell t.now width i k }
{
    let from = row_start(t.len(), width, i);
    if k < t.len() - from { t[from + k] } else { 0 }
}

pub fn row_write(t: &mut [u64], width: usize, i: usize, k: usize, v: u64)
    ensures { t.new ≡ put_cell t.old width i k v }
{
    let from = row_start(t.len(), width, i);
    if k < t.len() - from {
        t[from + k] = v;
    }
}

// Every cell is 0.
pub fn all_zero(t: &[u64]) -> bool
    ensures { result ≡ zeros t.now }
{
    t.iter().all(|v| *v == 0)
}

// Makes every cell 0.
pub fn clear(t: &mut [u64])
    ensures { t.new ≡ replicate (length t.old) 0 }
{
    t.fill(0);
}

// Writes the cells of `src` over those from `from` on. What would stand past the end is left out.
pub fn copy(t: &mut [u64], from: usize, src: &[u64])
    ensures { t.new ≡ copied t.old from src.now (length src.now) }
{
    if from >= t.len() {
        return;
    }
    for (i, v) in src.iter().enumerate() {
        write(t, from + i, *v);
    }
}
