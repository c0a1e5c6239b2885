// Whole files, field by field.
#![tactic(auto)]

ghost use Rattle.std.specs.Prelude.{◌≡◌, ◌+◌, ◌<◌, length};
ghost use Rattle.laws.specs.Cells.{part};
ghost use Rattle.policy.specs.Fields.{ruleset_tag, header, field};
ghost use Rattle.policy.specs.Front.{WholeAt};
ghost use Rattle.policy.specs.Files.{is_name, read_file};
ghost use Rattle.policy_names.specs.Buckets.{buckets, Indexed};
ghost use Rattle.policy_files.specs.Next.{allowed_at, is_masks_of, IndexedAfter};

use policy::{HEADER, MASKS_SIZE, MASKS_TAG, MAX_DEPTH, MAX_RULESET_NAME, RULESET_TAG, Read, Span};
use policy_fields::{Field, field_at};
use policy_names::{BUCKETS, is_first, mark};
use policy_rules::read_field;

// The value of the field from `at` to `next` can be a ruleset's name: not empty, not too long, and no ruleset before has it.
fn is_name(f: &[u8], at: usize, next: usize, seen: &[u8]) -> bool
    requires { WholeAt f.now at (length f.now) ruleset_tag next × Indexed f.now seen.now at }
    ensures { result ≡ is_name f.now at (field ruleset_tag (part f.now (at + header) next)) }
{
    let len = next - at - HEADER;
    if len < 1 {
        return false;
    }
    if len > MAX_RULESET_NAME {
        return false;
    }
    is_first(f, at, next, seen)
}

// A field with this tag, and a value of so many bytes, gives a ruleset's masks.
fn is_masks(tag: u8, len: usize) -> bool
    ensures { result ≡ is_masks_of tag len }
{
    if tag == MASKS_TAG {
        return len == MASKS_SIZE;
    }
    false
}

// Reads the field at a place, after one with the tag `before`; a ruleset's name goes into its bucket.
fn read_next(f: &[u8], at: usize, before: u8, seen: &mut [u8]) -> Read
    requires { (at < length f.now) × Indexed f.now seen.old at }
    ensures { (result ≡ allowed_at f.now before at) × IndexedAfter f.now seen.new result }
{
    let end = f.len();
    match field_at(f, Span { at, end }) {
        Field::Cut => Read::Fault(at),
        Field::Whole { tag, next } => {
            if before == RULESET_TAG {
                if is_masks(tag, next - at - HEADER) {
                    return Read::Next(next);
                }
                return Read::Fault(at);
            }
            if tag == RULESET_TAG {
                if !is_name(f, at, next, seen) {
                    return Read::Fault(at);
                }
                mark(f, at, next, seen);
                return Read::Next(next);
            }
            if before == 0 {
                return Read::Fault(at);
            }
            read_field(f, Span { at, end }, MAX_DEPTH)
        }
    }
}

// Reads a whole file. The buckets may have anything in them.
fn read_with(f: &[u8], seen: &mut [u8]) -> Read
    requires { length seen.old ≡ buckets }
    ensures { result ≡ read_file f.now }
{
    let mut at = 0;
    let mut before: u8 = 0;
    while at < f.len() {
        match read_next(f, at, before, seen) {
            Read::Next(n) => {
                before = f[at];
                at = n;
            }
            Read::Fault(p) => {
                return Read::Fault(p);
            }
        }
    }
    if before == RULESET_TAG {
        return Read::Fault(at);
    }
    Read::Next(at)
}

// Reads a whole file.
pub fn read_file(f: &[u8]) -> Read
    ensures { result ≡ read_file f.now }
{
    let mut seen = [0u8; BUCKETS];
    read_with(f, &mut seen)
}
