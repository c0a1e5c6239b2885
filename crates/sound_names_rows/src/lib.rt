// The rows of the table of names, each by itself: a name in its form, or zeros.
#![tactic(auto)]

ghost use Rattle.std.specs.Prelude.{◌≡◌, cond, ◌≤◌, length};
ghost use Rattle.laws.specs.Cells.{zeros};
ghost use Rattle.names.specs.Names.{max_name, name_width, is_named, name_sound};
ghost use Rattle.sound_names_rows.specs.Form.{fitting, fitting_pairs, ends_at, is_dots};

use names::{MAX_NAME, NAME_WIDTH};
use sound_names_words::wide;
use tables::rows::entry_live;

const SLASH: u8 = b'/';

const DOT: u8 = b'.';

// Every byte of a row is 0.
fn row_zero(row: &[u8]) -> bool
    requires { length row.now ≡ name_width }
    ensures { result ≡ zeros row.now }
{
    let mut zero = true;
    let mut k = 0;
    while k < NAME_WIDTH {
        zero = zero & (row[k] == 0);
        k += 1;
    }
    zero
}

// Byte `b` may follow byte `a`: it is no slash, and after a zero comes a zero.
fn is_fitting(a: u8, b: u8) -> bool
    ensures { result ≡ fitting a b }
{
    (b != SLASH) & ((a != 0) | (b == 0))
}

// Every byte fits the one before it. No branch and no early exit, so that many bytes are tested at once.
fn pairs_fitting(row: &[u8]) -> bool
    requires { length row.now ≡ name_width }
    ensures { result ≡ fitting_pairs row.now }
{
    let mut fine = true;
    let mut k = 0;
    while k < MAX_NAME {
        fine = fine & is_fitting(row[k], row[k + 1]);
        k += 1;
    }
    fine
}

// Byte `n` is the last that is not 0.
fn ends_at(row: &[u8], n: usize) -> bool
    requires { (length row.now ≡ name_width) × (n ≤ max_name) }
    ensures { result ≡ ends_at row.now n }
{
    if row[n] == 0 {
        return false;
    }
    if n == MAX_NAME {
        return true;
    }
    row[n + 1] == 0
}

// The name, of `n` bytes, is "." or "..".
fn is_dots(row: &[u8], n: usize) -> bool
    requires { length row.now ≡ name_width }
    ensures { result ≡ is_dots row.now n }
{
    if row[1] != DOT {
        return false;
    }
    if n == 1 {
        return true;
    }
    if n != 2 {
        return false;
    }
    row[2] == DOT
}

// The row of an entry that has a name is sound.
fn name_sound(row: &[u8]) -> bool
    requires { length row.now ≡ name_width }
    ensures { result ≡ name_sound row.now }
{
    let n = wide(row[0]) as usize;
    if n == 0 {
        return false;
    }
    if n > MAX_NAME {
        return false;
    }
    if !pairs_fitting(row) {
        return false;
    }
    if !ends_at(row, n) {
        return false;
    }
    !is_dots(row, n)
}

// The entry has a name: every live one but the root.
pub fn is_named(entries: &[u64], e: usize) -> bool
    ensures { result ≡ is_named entries.now e }
{
    if e == 0 {
        return false;
    }
    entry_live(entries, e as u64)
}

// The row of an entry, which is to have a name or not, is sound.
pub fn row_sound(row: &[u8], named: bool) -> bool
    requires { length row.now ≡ name_width }
    ensures { result ≡ cond named (name_sound row.now) (zeros row.now) }
{
    if named {
        return name_sound(row);
    }
    row_zero(row)
}
