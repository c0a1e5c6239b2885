// Rules and groups: the field reader calls the group reader, and the group reader calls it back.
#![tactic(auto)]

ghost use Rattle.std.specs.Prelude.{◌≡◌, ◌+◌, ◌≤◌, ◌<◌, length};
ghost use Rattle.laws.specs.Cells.{part};
ghost use Rattle.policy.specs.Fields.{header, pieces};
ghost use Rattle.policy.specs.Grammar.{each, rule, is_rule};
ghost use Rattle.policy_rules.specs.Items.{rule_at, group_at, ItemIs};

use access::limits::MAX_LEVEL;
use policy::{
    GROUP_HEADER, GROUP_TAG, HEADER, PATH_TAG, PORT_SIZE, PORT_TAG, RIGHTS_SIZE, Read, Span,
};
use policy_fields::{Field, field_at};

// The highest level of a group.
const LEVELS: u8 = MAX_LEVEL as u8;

// What a field is, before a group's own fields are read: a rule that ends at a place; a group, by the part that its fields are in; or faulty.
#[derive(Clone, Copy)]
pub enum Item {
    Rule(usize),
    Group(Span),
    Bad,
}

fn is_rule(tag: u8, len: usize) -> bool
    ensures { result ≡ is_rule tag len }
{
    if tag == PATH_TAG {
        return len >= RIGHTS_SIZE;
    }
    if tag == PORT_TAG {
        return len == PORT_SIZE;
    }
    false
}

// The group from `at` to `next`: the part of its fields, if its level is one.
fn group_at(f: &[u8], at: usize, next: usize) -> Item
    requires { (at + header ≤ next) × (next ≤ length f.now) }
    ensures { result ≡ group_at f.now at next }
{
    let from = at + GROUP_HEADER;
    if next < from {
        return Item::Bad;
    }
    let level = f[at + HEADER];
    if level < 1 {
        return Item::Bad;
    }
    if level > LEVELS {
        return Item::Bad;
    }
    Item::Group(Span {
        at: from,
        end: next,
    })
}

// What the field at the start of a part is, where `depth` more groups may nest.
fn item_at(f: &[u8], s: Span, depth: usize) -> Item
    requires { (s.at < s.end) × (s.end ≤ length f.now) }
    ensures { ItemIs f.now depth s.at s.end result }
{
    let at = s.at;
    match field_at(f, s) {
        Field::Cut => Item::Bad,
        Field::Whole { tag, next } => {
            if tag == GROUP_TAG {
                if depth == 0 {
                    return Item::Bad;
                }
                return group_at(f, at, next);
            }
            if is_rule(tag, next - at - HEADER) {
                return Item::Rule(next);
            }
            Item::Bad
        }
    }
}

// Reads the field at the start of a part: a rule, or a group where `depth` more may nest.
#[cycle(read_field_read_group)]
pub fn read_field(f: &[u8], s: Span, depth: usize) -> Read
    requires { (s.at < s.end) × (s.end ≤ length f.now) }
    ensures { result ≡ rule_at f.now depth s.at s.end }
{
    let at = s.at;
    match item_at(f, s, depth) {
        Item::Bad => Read::Fault(at),
        Item::Rule(next) => Read::Next(next),
        Item::Group(inner) => read_group(f, inner, depth - 1),
    }
}

// Reads the fields of a group, which are all of a part.
#[cycle(read_field_read_group)]
pub fn read_group(f: &[u8], s: Span, depth: usize) -> Read
    requires { (s.at ≤ s.end) × (s.end ≤ length f.now) }
    ensures { result ≡ each (rule depth) s.at (pieces (part f.now s.at s.end)) }
{
    let end = s.end;
    let mut at = s.at;
    while at < end {
        match read_field(f, Span { at, end }, depth) {
            Read::Next(n) => {
                at = n;
            }
            Read::Fault(p) => {
                return Read::Fault(p);
            }
        }
    }
    Read::Next(end)
}
