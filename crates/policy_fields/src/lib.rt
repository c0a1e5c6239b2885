// One field: a tag, two bytes of length, and the value.
#![tactic(auto)]

ghost use Rattle.std.specs.Prelude.{◌≡◌, ◌<◌, ◌≤◌, length};
ghost use Rattle.policy_fields.specs.Fields.{FieldIs};

use policy::{HEADER, Span};

// What a part of a file begins with: a whole field, which ends at `next`, or none.
#[derive(Clone, Copy)]
pub enum Field {
    Whole { tag: u8, next: usize },
    Cut,
}

fn wide(b: u8) -> usize
    ensures { (result ≡ b) × (result < 256) }
{
    b as usize
}

// The field at the start of a part.
pub fn field_at(f: &[u8], s: Span) -> Field
    requires { (s.at < s.end) × (s.end ≤ length f.now) }
    ensures { FieldIs f.now s.at s.end result }
{
    let at = s.at;
    let room = s.end - at;
    if room < HEADER {
        return Field::Cut;
    }
    let len = wide(f[at + 1]) + 256 * wide(f[at + 2]);
    if room - HEADER < len {
        return Field::Cut;
    }
    Field::Whole {
        tag: f[at],
        next: at + HEADER + len,
    }
}
