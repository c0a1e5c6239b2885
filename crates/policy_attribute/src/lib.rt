// The attribute with which a ruleset of a policy file is created.
#![tactic(auto)]

ghost use Rattle.std.specs.Prelude.{◌≡◌, length};
ghost use Rattle.access.specs.Rights.{without};
ghost use Rattle.policy.specs.Fields.{pieces};
ghost use Rattle.policy.specs.Files.{masks_size};
ghost use Rattle.policy.specs.Meaning.{any_group, masks_of, cut_masks};
ghost use Rattle.policy_attribute.specs.Masks.{MasksAt};

use access::limits::MAX_LEVEL;
use access::rights::Rights;
use policy::{GROUP_TAG, HEADER, Span};
use policy_bytes::put_number;
use policy_fields::{Field, field_at};
use ruleset::attribute::{FS_AT, NET_AT, SCOPE_AT, mask};

// The bytes of a mask.
const MASK_SIZE: usize = 8;

// Where the value of the second field is; an empty span if there is none.
fn masks_span(part: &[u8]) -> Span
    ensures { MasksAt part.now result }
{
    let none = Span { at: 0, end: 0 };
    let end = part.len();
    if end == 0 {
        return none;
    }
    let Field::Whole { tag: _, next } = field_at(part, Span { at: 0, end }) else {
        return none;
    };
    if next == end {
        return none;
    }
    let Field::Whole { tag: _, next: last } = field_at(part, Span { at: next, end }) else {
        return none;
    };
    Span {
        at: next + HEADER,
        end: last,
    }
}

// The bytes of a ruleset's masks.
pub fn masks_of(part: &[u8]) -> &[u8]
    ensures { result.now ≡ masks_of part.now }
{
    let s = masks_span(part);
    let from = s.at;
    let to = s.end;
    &part[from..to]
}

// A ruleset has groups, counted or not.
pub fn any_group(part: &[u8]) -> bool
    ensures { result ≡ any_group (pieces part.now) }
{
    let end = part.len();
    let mut at = 0;
    while at < end {
        if part[at] == GROUP_TAG {
            return true;
        }
        match field_at(part, Span { at, end }) {
            Field::Cut => {
                return false;
            }
            Field::Whole { tag: _, next } => {
                at = next;
            }
        }
    }
    false
}

// A mask without the bits that some level knows and this one does not.
fn cut_mask(m: u64, some: Rights, known: Rights) -> u64
    ensures { result ≡ without m (without some.0 known.0) }
{
    let cut = Rights(m).without(some.without(known));
    cut.0
}

// The three masks, each without the bits that only higher levels know.
pub fn cut_masks(masks: &[u8], level: u64, out: &mut [u8])
    requires { length out.old ≡ masks_size }
    ensures { out.new ≡ cut_masks level masks.now }
{
    let fs = cut_mask(
        mask(masks, FS_AT),
        Rights::known_fs(MAX_LEVEL),
        Rights::known_fs(level),
    );
    let net = cut_mask(
        mask(masks, NET_AT),
        Rights::known_net(MAX_LEVEL),
        Rights::known_net(level),
    );
    let scope = cut_mask(
        mask(masks, SCOPE_AT),
        Rights::known_scope(MAX_LEVEL),
        Rights::known_scope(level),
    );
    put_number(out, FS_AT, fs, MASK_SIZE);
    put_number(out, NET_AT, net, MASK_SIZE);
    put_number(out, SCOPE_AT, scope, MASK_SIZE);
}
