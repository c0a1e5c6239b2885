// How long the file of a ruleset is.
#![tactic(auto)]

ghost use Rattle.std.specs.Prelude.{◌≡◌, ◌+◌, ◌*◌, ◌≤◌, length};
ghost use Rattle.access.specs.Limits.{max_rules};
ghost use Rattle.policy.specs.Fields.{header};
ghost use Rattle.policy.specs.Grammar.{port_size};
ghost use Rattle.policy.specs.Files.{max_ruleset_name, masks_size};
ghost use Rattle.policy_size.specs.Fields.{path_size, max_path_size, sum_in, Short};

use policy::{HEADER, MASKS_SIZE, PORT_SIZE, RIGHTS_SIZE};
use policy_paths::path_length;

// How long the fields of the first `k` path rules are.
fn paths_size(entries: &[u64], names: &[u8], picks: &[u64], order: &[u8], k: usize) -> usize
    requires { Short entries.now names.now picks.now order.now k }
    ensures { (result ≡ sum_in (path_size entries.now names.now picks.now) order.now k) × (result ≤ max_path_size * k) }
{
    let mut n = 0;
    let mut j = 0;
    while j < k {
        let i = order[j] as usize;
        n = n + (HEADER + (RIGHTS_SIZE + path_length(entries, names, picks[i])));
        j += 1;
    }
    n
}

// How long the file is: its name, its masks, `k` path rules, `ports` port rules.
pub fn file_size(
    entries: &[u64],
    names: &[u8],
    picks: &[u64],
    order: &[u8],
    k: usize,
    ports: usize,
    name: &[u8],
) -> usize
    requires { Short entries.now names.now picks.now order.now k × (ports ≤ max_rules) × (length name.now ≤ max_ruleset_name) }
    ensures { result ≡ header + length name.now + (header + masks_size + (sum_in (path_size entries.now names.now picks.now) order.now k + (header + port_size) * ports)) }
{
    let n = paths_size(entries, names, picks, order, k);
    HEADER + name.len() + (HEADER + MASKS_SIZE + (n + (HEADER + PORT_SIZE) * ports))
}
