// Names of rulesets: where a file has one, and whether an earlier ruleset has it. Names fall into buckets: one whose bucket is empty is new.
#![tactic(auto)]

ghost use Rattle.std.specs.Prelude.{◌≡◌, ◌+◌, ◌<◌, eqb, length};
ghost use Rattle.laws.specs.Cells.{part};
ghost use Rattle.policy.specs.Fields.{ruleset_tag, header};
ghost use Rattle.policy.specs.Front.{WholeAt};
ghost use Rattle.policy.specs.Files.{place_of};
ghost use Rattle.policy_names.specs.Buckets.{buckets, bucket_of, Indexed};

use name_rows::same_bytes;
use policy::{HEADER, RULESET_TAG, Span};
use policy_fields::{Field, field_at};

// A prime, so that names which differ in few bytes fall into different ones.
pub const BUCKETS: usize = 16381;

// Where the first ruleset of a name starts; the file's length if there is none.
pub fn place_of(f: &[u8], name: &[u8]) -> usize
    ensures { result ≡ place_of f.now name.now }
{
    let end = f.len();
    let mut at = 0;
    while at < end {
        match field_at(f, Span { at, end }) {
            Field::Cut => {
                return end;
            }
            Field::Whole { tag, next } => {
                if tag == RULESET_TAG {
                    let from = at + HEADER;
                    if same_bytes(name, &f[from..next]) {
                        return at;
                    }
                }
                at = next;
            }
        }
    }
    end
}

fn wide(b: u8) -> usize
    ensures { (result ≡ b) × (result < 256) }
{
    b as usize
}

// The bucket of a name.
fn bucket_of(name: &[u8]) -> usize
    ensures { (result ≡ bucket_of name.now) × (result < buckets) }
{
    let mut h = 0;
    let mut i = 0;
    while i < name.len() {
        h = (h * 256 + wide(name[i])) % BUCKETS;
        i += 1;
    }
    h
}

// No ruleset before the one from `at`, whose tag 1 ends at `next`, has its name. The file is searched only if another name fell into the bucket.
pub fn is_first(f: &[u8], at: usize, next: usize, seen: &[u8]) -> bool
    requires { WholeAt f.now at (length f.now) ruleset_tag next × Indexed f.now seen.now at }
    ensures { result ≡ eqb (place_of f.now (part f.now (at + header) next)) at }
{
    let from = at + HEADER;
    let name = &f[from..next];
    let b = bucket_of(name);
    if seen[b] == 0 {
        return true;
    }
    place_of(f, name) == at
}

// Puts the name of the ruleset from `at`, whose tag 1 ends at `next`, into its bucket.
pub fn mark(f: &[u8], at: usize, next: usize, seen: &mut [u8])
    requires { WholeAt f.now at (length f.now) ruleset_tag next × Indexed f.now seen.old at }
    ensures { Indexed f.now seen.new next }
{
    let from = at + HEADER;
    let b = bucket_of(&f[from..next]);
    seen[b] = 1;
}
