// Flags in words of 64: flag i is bit i % 64 of word i / 64.
#![tactic(auto)]

ghost use Rattle.std.specs.Prelude.{◌≡◌, cond, ◌+◌, ◌*◌, ◌<◌, ◌≤◌, eqb, length, get_or};
ghost use Rattle.access.specs.Rights.{meet};
ghost use Rattle.bitmap.specs.Bitmap.{flag, with_bits, with_flag, ones, RunTaken};

pub const WORD_BITS: usize = 64;

// Flag `i` is set.
pub fn is_set(words: &[u64], i: usize) -> bool
    requires { i < 64 * length words.now }
    ensures { result ≡ flag words.now i }
{
    (words[i / WORD_BITS] >> (i % WORD_BITS)) % 2 == 1
}

// Sets flag `i`.
pub fn set_flag(words: &mut [u64], i: usize)
    requires { i < 64 * length words.old }
    ensures { words.new ≡ with_flag words.old i }
{
    let w = i / WORD_BITS;
    words[w] |= 1 << (i % WORD_BITS);
}

// The mask of `count` bits from bit `from` on.
fn mask(from: usize, count: usize) -> u64
    requires { (0 < count) × (from + count ≤ 64) }
    ensures { result ≡ ones from count }
{
    (u64::MAX >> (WORD_BITS - count)) << from
}

// Sets the bits of a mask in word `w`, if each is clear.
fn take_bits(words: &mut [u64], w: usize, m: u64) -> bool
    requires { w < length words.old }
    ensures { (result ≡ eqb (meet (get_or words.old w 0) m) 0) × (words.new ≡ cond result (with_bits words.old w m) words.old) }
{
    let word = words[w];
    if word & m != 0 {
        return false;
    }
    words[w] = word | m;
    true
}

// Sets the flags of a run, if each is clear. At most 64 places lie in at most two words.
pub fn take_run(words: &mut [u64], first: usize, count: usize) -> bool
    requires { (count ≤ 64) × (first + count ≤ 64 * length words.old) }
    ensures { RunTaken words.old words.new first count result }
{
    if count == 0 {
        return true;
    }
    let w = first / WORD_BITS;
    let from = first % WORD_BITS;
    let room = WORD_BITS - from;
    if count <= room {
        return take_bits(words, w, mask(from, count));
    }
    let high = mask(0, count - room);
    let next = words[w + 1];
    if next & high != 0 {
        return false;
    }
    if !take_bits(words, w, mask(from, room)) {
        return false;
    }
    words[w + 1] = next | high;
    true
}
