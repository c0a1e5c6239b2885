// Tables of other lengths. A refusal writes nothing: every cell stays 1.
use crate::write::answer;
use std::io;

// The first `n` cells, or all if there are fewer.
fn front(t: &mut [u64], n: usize) -> &mut [u64] {
    if n < t.len() { &mut t[..n] } else { t }
}

fn all_one(t: &[u64]) -> bool {
    let mut i = 0;
    while i < t.len() {
        if t[i] != 1 {
            return false;
        }
        i += 1;
    }
    true
}

fn unchanged(rt: &impl Print, otherwise: &str, t: &[u64]) -> io::Result<()> {
    if !all_one(t) {
        print!(rt; "{otherwise}")?;
    }
    Ok(())
}

// Fresh tables asked for at the level, and at one that is too high: a wrong length goes before it.
fn answers(
    rt: &impl Print,
    system: &mut [u64],
    entries: &mut [u64],
    rulesets: &mut [u64],
    layers: &mut [u64],
    pool: &mut [u64],
    threads: &mut [u64],
    level: u64,
) -> io::Result<()> {
    answer(
        rt,
        broker::fresh(system, entries, rulesets, layers, pool, threads, level),
    )?;
    answer(
        rt,
        broker::fresh(system, entries, rulesets, layers, pool, threads, 7),
    )
}

pub fn wrong(
    rt: &impl Print,
    system_cells: usize,
    entries_cells: usize,
    rulesets_cells: usize,
    layers_cells: usize,
    pool_cells: usize,
    threads_cells: usize,
    level: u64,
) -> io::Result<()> {
    let mut system = [1u64; 5];
    let mut entries = [1u64; 3073];
    let mut rulesets = [1u64; 3137];
    let mut layers = [1u64; 1793];
    let mut pool = [1u64; 3073];
    let mut threads = [1u64; 33];
    answers(
        rt,
        front(&mut system, system_cells),
        front(&mut entries, entries_cells),
        front(&mut rulesets, rulesets_cells),
        front(&mut layers, layers_cells),
        front(&mut pool, pool_cells),
        front(&mut threads, threads_cells),
        level,
    )?;
    unchanged(rt, " system changed", &system)?;
    unchanged(rt, " entries changed", &entries)?;
    unchanged(rt, " rulesets changed", &rulesets)?;
    unchanged(rt, " layers changed", &layers)?;
    unchanged(rt, " pool changed", &pool)?;
    unchanged(rt, " threads changed", &threads)
}
