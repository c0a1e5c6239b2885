// The file of a ruleset, written over the start of an output.
#![tactic(auto)]

ghost use Rattle.std.specs.Prelude.{◌≡◌, ◌≤◌, length};
ghost use Rattle.policy_write.specs.File.{policy_file, written_over, write_room};
ghost use Rattle.policy_file.specs.Writing.{write_reply, write_left, Chosen, Laid};

use access::errno::{Errno, Reply};
use access::limits::MAX_RULES;
use policy::MAX_FILE;
use policy_fill::{put_masks, put_name, put_paths, put_ports};
use policy_order::{order_paths, order_ports};
use policy_size::file_size;
use tables::rows::{ruleset_fs, ruleset_net, ruleset_scope};

// Writes the fields of a file for which there is room.
fn fill(
    out: &mut [u8],
    entries: &[u64],
    rulesets: &[u64],
    names: &[u8],
    r: u64,
    name: &[u8],
    rules: &[u64],
    picks: &[u64],
    paths: &[u8],
    m: usize,
    ports: &[u8],
    k: usize,
)
    requires { Chosen entries.now rulesets.now names.now r name.now rules.now picks.now × Laid entries.now names.now rules.now paths.now m ports.now k × (length (policy_file entries.now rulesets.now names.now r name.now) ≤ length out.old) }
    ensures { out.new ≡ written_over (policy_file entries.now rulesets.now names.now r name.now) out.old }
{
    let masks = put_name(out, name);
    let fs = ruleset_fs(rulesets, r);
    let net = ruleset_net(rulesets, r);
    let scope = ruleset_scope(rulesets, r);
    let first = put_masks(out, masks, fs, net, scope);
    let last = put_paths(out, first, entries, names, rules, picks, paths, m);
    put_ports(out, last, rules, ports, k);
}

// Puts the rules in order and writes the file: E2BIG, ENOSPC. Answers its length.
pub fn write_picked(
    entries: &[u64],
    rulesets: &[u64],
    names: &[u8],
    r: u64,
    name: &[u8],
    rules: &[u64],
    picks: &[u64],
    out: &mut [u8],
) -> Reply
    requires { Chosen entries.now rulesets.now names.now r name.now rules.now picks.now }
    ensures reply { result ≡ write_reply (write_room (length (policy_file entries.now rulesets.now names.now r name.now)) (length out.old)) (policy_file entries.now rulesets.now names.now r name.now) }
    ensures output { out.new ≡ write_left (write_room (length (policy_file entries.now rulesets.now names.now r name.now)) (length out.old)) (policy_file entries.now rulesets.now names.now r name.now) out.old }
{
    let mut paths = [0u8; MAX_RULES];
    let m = order_paths(entries, names, rules, picks, &mut paths);
    let mut ports = [0u8; MAX_RULES];
    let k = order_ports(rules, &mut ports);
    let size = file_size(entries, names, picks, &paths, m, k, name);
    if size > MAX_FILE {
        return Reply::Refused(Errno::E2BIG);
    }
    if size > out.len() {
        return Reply::Refused(Errno::ENOSPC);
    }
    fill(
        out, entries, rulesets, names, r, name, rules, picks, &paths, m, &ports, k,
    );
    Reply::Done(size as u64)
}
