// The table of names: a row of bytes for each entry, the length of its name, the name, then zeros.
#![tactic(auto)]

ghost use Rattle.std.specs.Prelude.{◌≡◌, ◌∷◌, ◌≤◌, min, length, get_or, set};
ghost use Rattle.names.specs.Names.{max_name, same_bytes, row_at, name_of, name_at, put_name, clear_name, drop_name, swap_names};

use cells::row_start;
use names::NAME_WIDTH;
use tree::Replaced;

// Two names are the same, byte by byte.
pub fn same_bytes(a: &[u8], b: &[u8]) -> bool
    ensures { result ≡ same_bytes a.now b.now }
{
    if a.len() != b.len() {
        return false;
    }
    let mut i = 0;
    while i < a.len() {
        if a[i] != b[i] {
            return false;
        }
        i += 1;
    }
    true
}

fn smaller(a: usize, b: usize) -> usize
    ensures { result ≡ min a b }
{
    if a < b { a } else { b }
}

fn wide(b: u8) -> usize
    ensures { result ≡ b }
{
    b as usize
}

// The row of an entry, as much of it as the table has.
fn row_of<'a>(names: &'a [u8], e: u64) -> &'a [u8]
    ensures { result.now ≡ row_at names.now e }
{
    let from = row_start(names.len(), NAME_WIDTH, e as usize);
    let more = smaller(NAME_WIDTH, names.len() - from);
    let to = from + more;
    &names[from..to]
}

// The name in a row: as many bytes as its first one says, and no more than the row has.
fn name_in<'a>(row: &'a [u8]) -> &'a [u8]
    ensures { result.now ≡ name_of row.now }
{
    if row.len() == 0 {
        return &row[0..0];
    }
    let more = smaller(wide(row[0]), row.len() - 1);
    let to = 1 + more;
    &row[1..to]
}

// The name of an entry, as its part of the table.
pub fn name_of<'a>(names: &'a [u8], e: u64) -> &'a [u8]
    ensures { result.now ≡ name_at names.now e }
{
    name_in(row_of(names, e))
}

// Byte `k` of the row of a name.
fn row_byte(name: &[u8], k: usize) -> u8
    requires { length name.now ≤ max_name }
    ensures { result ≡ get_or (length name.now ∷ name.now) k 0 }
{
    if k == 0 {
        return name.len() as u8;
    }
    let i = k - 1;
    if i < name.len() { name[i] } else { 0 }
}

fn write_byte(t: &mut [u8], i: usize, v: u8)
    ensures { t.new ≡ set t.old i v }
{
    if i < t.len() {
        t[i] = v;
    }
}

// Writes the name of an entry: its length, the name, then zeros. Past the table's end nothing is written.
pub fn put_name(names: &mut [u8], e: u64, name: &[u8])
    requires { length name.now ≤ max_name }
    ensures { names.new ≡ put_name names.old e name.now }
{
    let from = row_start(names.len(), NAME_WIDTH, e as usize);
    let mut k = 0;
    while k < NAME_WIDTH {
        let b = row_byte(name, k);
        write_byte(names, from + k, b);
        k += 1;
    }
}

// Makes the row of an entry zero.
pub fn clear_name(names: &mut [u8], e: u64)
    ensures { names.new ≡ clear_name names.old e }
{
    let none = [0u8; 1];
    put_name(names, e, &none[0..0]);
}

// Clears the name of the replaced entry, if one is replaced.
pub fn drop_name(names: &mut [u8], x: Replaced)
    ensures { names.new ≡ drop_name names.old x }
{
    match x {
        Replaced::None => {}
        Replaced::Entry(y) => clear_name(names, y),
    }
}

// The name of an entry, as the one row of a table of its own.
fn kept_name(names: &[u8], e: u64) -> [u8; NAME_WIDTH]
    ensures { name_at result 0 ≡ name_at names.now e }
{
    let mut kept = [0u8; NAME_WIDTH];
    put_name(&mut kept, 0, name_of(names, e));
    kept
}

// Two entries change their names.
pub fn swap_names(names: &mut [u8], s: u64, x: u64)
    ensures { names.new ≡ swap_names names.old s x }
{
    let of_s = kept_name(names, s);
    let of_x = kept_name(names, x);
    put_name(names, s, name_of(&of_x, 0));
    put_name(names, x, name_of(&of_s, 0));
}
