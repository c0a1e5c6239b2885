// Numbers, bytes and the headers of fields, written over a part of an output.
#![tactic(auto)]

ghost use Rattle.std.specs.Prelude.{◌≡◌, [], ◌∷◌, ◌+◌, ◌/◌, ◌%◌, ◌≤◌, ◌<◌, length};
ghost use Rattle.std.proofs.lemmas.List.Edits.{sets};
ghost use Rattle.policy.specs.Fields.{bytes_of};

// The lowest `n` bytes of a number, the lowest first.
pub fn put_number(out: &mut [u8], at: usize, x: u64, n: usize)
    requires { at + n ≤ length out.old }
    ensures { out.new ≡ sets out.old at (bytes_of n x) }
{
    let mut rest = x;
    let mut i = 0;
    while i < n {
        out[at + i] = (rest % 256) as u8;
        rest /= 256;
        i += 1;
    }
}

pub fn put_bytes(out: &mut [u8], at: usize, src: &[u8])
    requires { at + length src.now ≤ length out.old }
    ensures { out.new ≡ sets out.old at src.now }
{
    let mut i = 0;
    while i < src.len() {
        out[at + i] = src[i];
        i += 1;
    }
}

// A field's tag and length.
pub fn put_header(out: &mut [u8], at: usize, tag: u8, len: usize)
    requires { (at + 3 ≤ length out.old) × (len < 65536) }
    ensures { out.new ≡ sets out.old at (tag ∷ len % 256 ∷ len / 256 ∷ []) }
{
    out[at] = tag;
    out[at + 1] = (len % 256) as u8;
    out[at + 2] = (len / 256) as u8;
}
