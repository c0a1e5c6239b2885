// The attribute's bytes: three little-endian masks. Missing bytes count as zero.
ghost use Rattle.std.specs.Prelude.{◌≡◌, ◌<◌, get_or};
ghost use Rattle.ruleset.specs.Attribute.{number, known_size, stray};

fn byte(bytes: &[u8], i: usize) -> u64
    ensures { (result ≡ get_or bytes.now i 0) × (result < 256) }
{
    if i < bytes.len() { bytes[i] as u64 } else { 0 }
}

// Where each mask starts.
pub const FS_AT: usize = 0;

pub const NET_AT: usize = 8;

pub const SCOPE_AT: usize = 16;

// The mask that eight bytes from `at` on make.
pub fn mask(bytes: &[u8], at: usize) -> u64
    ensures { result ≡ number bytes.now at 8 }
{
    if at >= bytes.len() {
        return 0;
    }
    let mut v: u64 = 0;
    let mut n: usize = 0;
    while n < 8 {
        v = byte(bytes, at + (7 - n)) + 256 * v;
        n += 1;
    }
    v
}

// How many bytes a level knows.
pub fn known_size(level: u64) -> usize
    ensures { result ≡ known_size level }
{
    if level <= 3 {
        return 8;
    }
    if level <= 5 {
        return 16;
    }
    24
}

// Some byte past the known size is not zero.
pub fn is_stray(bytes: &[u8], known: usize) -> bool
    ensures { result ≡ stray bytes.now known }
{
    let mut i = 0;
    while i < bytes.len() {
        if i >= known {
            if bytes[i] != 0 {
                return true;
            }
        }
        i += 1;
    }
    false
}
