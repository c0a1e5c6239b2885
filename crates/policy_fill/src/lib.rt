// The fields of a policy file, written one after another.
#![tactic(auto)]

ghost use Rattle.std.specs.Prelude.{◌≡◌, ◌∷◌, ◌++◌, ◌+◌, ◌/◌, ◌%◌, ◌≤◌, ◌<◌, length, get_or};
ghost use Rattle.std.proofs.lemmas.List.Edits.{sets};
ghost use Rattle.names.specs.Paths.{max_path, path_of};
ghost use Rattle.policy.specs.Fields.{bytes_of, header, ruleset_tag, masks_tag};
ghost use Rattle.policy.specs.Files.{max_ruleset_name, masks_size};
ghost use Rattle.policy.specs.Grammar.{rights_size, port_size};
ghost use Rattle.policy_write.specs.Written.{field_bytes};
ghost use Rattle.policy_size.specs.Fields.{path_field, port_field, fields_in, Short};

use access::rights::Rights;
use policy::{
    HEADER, MASKS_SIZE, MASKS_TAG, PATH_TAG, PORT_SIZE, PORT_TAG, RIGHTS_SIZE, RULESET_TAG,
};
use policy_bytes::{put_bytes, put_header, put_number};
use policy_paths::{path_length, put_path};
use rule_cells::{rule_key, rule_rights};

// A rule's tag, length and rights.
fn put_rights(out: &mut [u8], at: usize, tag: u8, len: usize, rights: Rights)
    requires { (at + (header + rights_size) ≤ length out.old) × (len < 65536) }
    ensures { out.new ≡ sets out.old at (tag ∷ len % 256 ∷ len / 256 ∷ bytes_of rights_size rights.0) }
{
    put_header(out, at, tag, len);
    put_number(out, at + HEADER, rights.0, RIGHTS_SIZE);
}

// The field of path rule `i`. Answers where it ends.
fn put_path_rule(
    out: &mut [u8],
    at: usize,
    entries: &[u64],
    names: &[u8],
    rules: &[u64],
    picks: &[u64],
    i: usize,
) -> usize
    requires { (i < length picks.now) × (length (path_of entries.now names.now (get_or picks.now i 0)) ≤ max_path) × (at + length (path_field entries.now names.now rules.now picks.now i) ≤ length out.old) }
    ensures { (out.new ≡ sets out.old at (path_field entries.now names.now rules.now picks.now i)) × (result ≡ at + length (path_field entries.now names.now rules.now picks.now i)) }
{
    let e = picks[i];
    let len = RIGHTS_SIZE + path_length(entries, names, e);
    put_rights(out, at, PATH_TAG, len, rule_rights(rules, i));
    let end = at + HEADER + len;
    put_path(out, end, entries, names, e);
    end
}

// The field of port rule `i`. Answers where it ends.
fn put_port_rule(out: &mut [u8], at: usize, rules: &[u64], i: usize) -> usize
    requires { at + (header + port_size) ≤ length out.old }
    ensures { (out.new ≡ sets out.old at (port_field rules.now i)) × (result ≡ at + length (port_field rules.now i)) }
{
    put_rights(out, at, PORT_TAG, PORT_SIZE, rule_rights(rules, i));
    put_number(
        out,
        at + HEADER + RIGHTS_SIZE,
        rule_key(rules, i),
        PORT_SIZE - RIGHTS_SIZE,
    );
    at + HEADER + PORT_SIZE
}

// The fields of `k` path rules. Answers where they end.
pub fn put_paths(
    out: &mut [u8],
    from: usize,
    entries: &[u64],
    names: &[u8],
    rules: &[u64],
    picks: &[u64],
    order: &[u8],
    k: usize,
) -> usize
    requires { Short entries.now names.now picks.now order.now k × (from + length (fields_in (path_field entries.now names.now rules.now picks.now) order.now k) ≤ length out.old) }
    ensures { (out.new ≡ sets out.old from (fields_in (path_field entries.now names.now rules.now picks.now) order.now k)) × (result ≡ from + length (fields_in (path_field entries.now names.now rules.now picks.now) order.now k)) }
{
    let mut at = from;
    let mut j = 0;
    while j < k {
        let i = order[j] as usize;
        at = put_path_rule(out, at, entries, names, rules, picks, i);
        j += 1;
    }
    at
}

// The fields of `k` port rules.
pub fn put_ports(out: &mut [u8], from: usize, rules: &[u64], order: &[u8], k: usize)
    requires { (k ≤ length order.now) × (from + length (fields_in (port_field rules.now) order.now k) ≤ length out.old) }
    ensures { out.new ≡ sets out.old from (fields_in (port_field rules.now) order.now k) }
{
    let mut at = from;
    let mut j = 0;
    while j < k {
        let i = order[j] as usize;
        at = put_port_rule(out, at, rules, i);
        j += 1;
    }
}

// The field that opens a ruleset, at the start. Answers where it ends.
pub fn put_name(out: &mut [u8], name: &[u8]) -> usize
    requires { (length name.now ≤ max_ruleset_name) × (header + length name.now ≤ length out.old) }
    ensures { (out.new ≡ sets out.old 0 (field_bytes ruleset_tag name.now)) × (result ≡ header + length name.now) }
{
    put_header(out, 0, RULESET_TAG, name.len());
    put_bytes(out, HEADER, name);
    HEADER + name.len()
}

// The field of the masks. Answers where it ends.
pub fn put_masks(out: &mut [u8], at: usize, fs: Rights, net: Rights, scope: Rights) -> usize
    requires { at + (header + masks_size) ≤ length out.old }
    ensures { (out.new ≡ sets out.old at (field_bytes masks_tag (bytes_of 8 fs.0 ++ (bytes_of 8 net.0 ++ bytes_of 8 scope.0)))) × (result ≡ at + (header + masks_size)) }
{
    put_rights(out, at, MASKS_TAG, MASKS_SIZE, fs);
    put_number(out, at + HEADER + RIGHTS_SIZE, net.0, RIGHTS_SIZE);
    put_number(out, at + HEADER + 2 * RIGHTS_SIZE, scope.0, RIGHTS_SIZE);
    at + HEADER + MASKS_SIZE
}
