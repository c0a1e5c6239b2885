// Which names are refused.
#![tactic(auto)]

ghost use Rattle.std.specs.Prelude.{◌≡◌, ◌∷◌, []};
ghost use Rattle.laws.specs.Tests.{elem};
ghost use Rattle.laws.specs.Refusals.{first};
ghost use Rattle.names.specs.Names.{dot, same_bytes, bad_bytes, name_checks};

use access::errno::Errno;
use name_rows::same_bytes;
use names::{MAX_NAME, SLASH};

// The byte is one of the text's.
pub fn has_byte(text: &[u8], b: u8) -> bool
    ensures { result ≡ elem b text.now }
{
    let mut i = 0;
    while i < text.len() {
        if text[i] == b {
            return true;
        }
        i += 1;
    }
    false
}

// The name ".", which stays.
pub fn is_dot(name: &[u8]) -> bool
    ensures { result ≡ same_bytes name.now (dot ∷ []) }
{
    same_bytes(name, b".")
}

// The name "..", which goes to the parent.
pub fn is_dot_dot(name: &[u8]) -> bool
    ensures { result ≡ same_bytes name.now (dot ∷ dot ∷ []) }
{
    same_bytes(name, b"..")
}

// The name is empty, has a slash or a zero byte, or is "." or "..".
fn is_bad(name: &[u8]) -> bool
    ensures { result ≡ bad_bytes name.now }
{
    if name.len() == 0 {
        return true;
    }
    if has_byte(name, SLASH) {
        return true;
    }
    if has_byte(name, 0) {
        return true;
    }
    if is_dot(name) {
        return true;
    }
    is_dot_dot(name)
}

// The number with which a name is refused, or 0.
pub fn name_checks(name: &[u8]) -> u64
    ensures { result ≡ first (name_checks name.now) }
{
    if name.len() > MAX_NAME {
        return Errno::ENAMETOOLONG.0;
    }
    if is_bad(name) {
        return Errno::EINVAL.0;
    }
    0
}
