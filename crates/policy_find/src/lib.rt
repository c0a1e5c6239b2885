// What a name means in two files, stock and site: a ruleset's part of one of them.
#![tactic(auto)]

ghost use Rattle.std.specs.Prelude.{◌≡◌, ◌+◌, ◌≤◌, length};
ghost use Rattle.policy.specs.Fields.{header};
ghost use Rattle.policy.specs.Find.{next_ruleset, span_of, has_or, found, part_of};
ghost use Rattle.policy_find.specs.Within.{Within};

use policy::{File, Found, HEADER, MAX_FILE, RULESET_TAG, Read, Span};
use policy_fields::{Field, field_at};
use policy_files::read_file;
use policy_names::place_of;

// Where the next ruleset at or after a place starts; the file's length if there is none.
fn next_ruleset(f: &[u8], from: usize) -> usize
    requires { from ≤ length f.now }
    ensures { result ≡ next_ruleset f.now from }
{
    let end = f.len();
    let mut at = from;
    while at < end {
        if f[at] == RULESET_TAG {
            return at;
        }
        match field_at(f, Span { at, end }) {
            Field::Cut => {
                return end;
            }
            Field::Whole { tag: _, next } => {
                at = next;
            }
        }
    }
    end
}

// The part of the ruleset that starts at a place.
fn span_of(f: &[u8], name: &[u8], at: usize) -> Span
    requires { at + header + length name.now ≤ length f.now }
    ensures { result ≡ span_of f.now name.now at }
{
    Span {
        at,
        end: next_ruleset(f, at + HEADER + name.len()),
    }
}

// The file's ruleset of the name; if it has none, what follows.
fn has_or(file: File, f: &[u8], name: &[u8], rest: Found) -> Found
    ensures { result ≡ has_or file f.now name.now rest }
{
    let at = place_of(f, name);
    if at < f.len() {
        return Found::At(file, span_of(f, name, at));
    }
    rest
}

// What a name means. Both files are read whole first, stock before site.
pub fn find(stock: &[u8], site: &[u8], name: &[u8]) -> Found
    ensures { result ≡ found stock.now site.now name.now }
{
    if stock.len() > MAX_FILE {
        return Found::TooBig(File::Stock);
    }
    if let Read::Fault(p) = read_file(stock) {
        return Found::Damaged(File::Stock, p);
    }
    if site.len() > MAX_FILE {
        return Found::TooBig(File::Site);
    }
    if let Read::Fault(p) = read_file(site) {
        return Found::Damaged(File::Site, p);
    }
    let in_stock = has_or(File::Stock, stock, name, Found::Missing);
    has_or(File::Site, site, name, in_stock)
}

// The part of the one file or the other that was found; empty when refused.
pub fn part_in<'a>(stock: &'a [u8], site: &'a [u8], found: Found) -> &'a [u8]
    requires { Within stock.now site.now found }
    ensures { result.now ≡ part_of stock.now site.now found }
{
    match found {
        Found::At(file, s) => {
            let from = s.at;
            let to = s.end;
            match file {
                File::Stock => &stock[from..to],
                File::Site => &site[from..to],
            }
        }
        Found::TooBig(_) => &stock[0..0],
        Found::Damaged(_, _) => &stock[0..0],
        Found::Missing => &stock[0..0],
    }
}

// The ruleset's part of the one file or the other; empty when refused.
pub fn ruleset_part<'a>(stock: &'a [u8], site: &'a [u8], name: &[u8]) -> &'a [u8]
    ensures { result.now ≡ part_of stock.now site.now (found stock.now site.now name.now) }
{
    part_in(stock, site, find(stock, site, name))
}
