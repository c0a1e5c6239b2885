// What the benchmark in rust/bench measures, exported for it: the rule scan, the climb and the verdicts.
#![tactic(auto)]

ghost use Rattle.std.specs.Prelude.{◌≡◌, [], ◌∷◌};
ghost use Rattle.access.specs.Rights.{without};
ghost use Rattle.laws.specs.Refusals.{◌⇒◌, first};
ghost use Rattle.access.specs.Errno.{EACCES};
ghost use Rattle.access.specs.Limits.{max_entries};
ghost use Rattle.tables.specs.Tables.{path_rule};
ghost use Rattle.judge.specs.Rules.{rights_on};
ghost use Rattle.judge.specs.Judge.{grants};
ghost use Rattle.judge.specs.Domain.{domain, lacks};
ghost use Rattle.fs.specs.Move.{verdict};
ghost use Rattle.tree.specs.declared.Replaced.TheVariants.{None};
ghost use Rattle.tree.specs.Moves.{rename_move};

use access::limits::MAX_ENTRIES;
use access::rights::Rights;
use fs::table::needs_table;
use tables::rows::PATH_RULE;
use tree::Replaced;
use verdict::{move_denial, thread_judged};

#[unsafe(no_mangle)]
pub extern "C" fn skein_measure_rights_on(rules: &[u64], object: u64) -> u64
    ensures { result ≡ rights_on rules.now path_rule object }
{
    judge::rules::rights_on(rules, PATH_RULE, object).0
}

#[unsafe(no_mangle)]
pub extern "C" fn skein_measure_missing(entries: &[u64], rules: &[u64], e: u64, asked: u64) -> u64
    ensures { result ≡ without asked (grants entries.now rules.now max_entries e) }
{
    let mut read = 0;
    judge::climb::climb(&entries, &rules, e, Rights(asked), MAX_ENTRIES, &mut read)
}

#[unsafe(no_mangle)]
pub extern "C" fn skein_measure_access(
    entries: &[u64],
    layers: &[u64],
    pool: &[u64],
    threads: &[u64],
    t: u64,
    e: u64,
    asked: u64,
) -> u64
    ensures { result ≡ first (lacks entries.now layers.now pool.now (domain layers.now threads.now t) e asked ⇒ EACCES ∷ []) }
{
    let denial = thread_judged(entries, layers, pool, threads, t, e, Rights(asked)).denial;
    denial.refusal()
}

#[unsafe(no_mangle)]
pub extern "C" fn skein_measure_rename(
    entries: &[u64],
    layers: &[u64],
    pool: &[u64],
    threads: &[u64],
    t: u64,
    s: u64,
    d: u64,
) -> u64
    ensures { result ≡ first (verdict entries.now layers.now pool.now (domain layers.now threads.now t) (rename_move entries.now s d None)) }
{
    let needs = needs_table();
    let m = tree_moves::rename_move(&needs, entries, s, d, Replaced::None);
    move_denial(entries, layers, pool, threads, t, m).refusal()
}
