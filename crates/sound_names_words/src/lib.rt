// The rows of the table of names, read by words, and compared.
#![tactic(auto)]

ghost use Rattle.std.specs.Prelude.{◌≡◌, ◌+◌, ◌≤◌, ◌<◌, length};
ghost use Rattle.names.specs.Names.{name_width, same_bytes};
ghost use Rattle.sound_names_words.specs.Words.{byte_end, word_bytes, word_at};

use names::MAX_NAME;

pub const WORD_BYTES: usize = 8;

pub const WORDS: usize = MAX_NAME / WORD_BYTES;

pub fn wide(b: u8) -> u64
    ensures { (result ≡ b) × (result < byte_end) }
{
    b as u64
}

// The eight bytes from `i` on as one number, the first the lowest.
pub fn word(row: &[u8], i: usize) -> u64
    requires { i + word_bytes ≤ length row.now }
    ensures { result ≡ word_at row.now i }
{
    wide(row[i])
        + wide(row[i + 1]) * 0x100
        + wide(row[i + 2]) * 0x1_0000
        + wide(row[i + 3]) * 0x100_0000
        + wide(row[i + 4]) * 0x1_0000_0000
        + wide(row[i + 5]) * 0x100_0000_0000
        + wide(row[i + 6]) * 0x1_0000_0000_0000
        + wide(row[i + 7]) * 0x100_0000_0000_0000
}

// Two rows are the same.
pub fn same_row(a: &[u8], b: &[u8]) -> bool
    requires { (length a.now ≡ name_width) × (length b.now ≡ name_width) }
    ensures { result ≡ same_bytes a.now b.now }
{
    let mut n = 0;
    while n < WORDS {
        if word(a, WORD_BYTES * n) != word(b, WORD_BYTES * n) {
            return false;
        }
        n += 1;
    }
    a[MAX_NAME] == b[MAX_NAME]
}
