// Fresh tables, and every wrong length. The file `stdout` has the answers, written down from the specification.
#![tactic(auto)]

mod lengths;
mod write;

use lengths::wrong;
use std::io;
use write::{answer, cells};

// The cells of fresh tables that are not zero, where every cell was 1 before.
fn fresh(rt: &impl Print, level: u64) -> io::Result<()> {
    let mut system = [1u64; 4];
    let mut entries = [1u64; 3072];
    let mut rulesets = [1u64; 3136];
    let mut layers = [1u64; 1792];
    let mut pool = [1u64; 3072];
    let mut threads = [1u64; 32];
    let reply = broker::fresh(
        &mut system,
        &mut entries,
        &mut rulesets,
        &mut layers,
        &mut pool,
        &mut threads,
        level,
    );
    answer(rt, reply)?;
    cells(rt, " system", &system)?;
    cells(rt, " entries", &entries)?;
    cells(rt, " rulesets", &rulesets)?;
    cells(rt, " layers", &layers)?;
    cells(rt, " pool", &pool)?;
    cells(rt, " threads", &threads)
}

fn levels(rt: &impl Print) -> io::Result<()> {
    print!(rt; "level 6:")?;
    fresh(rt, 6)?;
    print!(rt; "\nlevel 0:")?;
    fresh(rt, 0)?;
    print!(rt; "\nlevel 7, right lengths:")?;
    wrong(rt, 4, 3072, 3136, 1792, 3072, 32, 7)
}

fn first_tables(rt: &impl Print) -> io::Result<()> {
    print!(rt; "\nsystem too short:")?;
    wrong(rt, 3, 3072, 3136, 1792, 3072, 32, 6)?;
    print!(rt; "\nsystem too long:")?;
    wrong(rt, 5, 3072, 3136, 1792, 3072, 32, 6)?;
    print!(rt; "\nentries too short:")?;
    wrong(rt, 4, 3071, 3136, 1792, 3072, 32, 6)?;
    print!(rt; "\nentries too long:")?;
    wrong(rt, 4, 3073, 3136, 1792, 3072, 32, 6)?;
    print!(rt; "\nrulesets too short:")?;
    wrong(rt, 4, 3072, 3135, 1792, 3072, 32, 6)?;
    print!(rt; "\nrulesets too long:")?;
    wrong(rt, 4, 3072, 3137, 1792, 3072, 32, 6)
}

fn other_tables(rt: &impl Print) -> io::Result<()> {
    print!(rt; "\nlayers too short:")?;
    wrong(rt, 4, 3072, 3136, 1791, 3072, 32, 6)?;
    print!(rt; "\nlayers too long:")?;
    wrong(rt, 4, 3072, 3136, 1793, 3072, 32, 6)?;
    print!(rt; "\npool too short:")?;
    wrong(rt, 4, 3072, 3136, 1792, 3071, 32, 6)?;
    print!(rt; "\npool too long:")?;
    wrong(rt, 4, 3072, 3136, 1792, 3073, 32, 6)?;
    print!(rt; "\nthreads too short:")?;
    wrong(rt, 4, 3072, 3136, 1792, 3072, 31, 6)?;
    print!(rt; "\nthreads too long:")?;
    wrong(rt, 4, 3072, 3136, 1792, 3072, 33, 6)?;
    print!(rt; "\n")
}

fn main(rt: HostRuntime) -> io::Result<()> {
    levels(&rt)?;
    first_tables(&rt)?;
    other_tables(&rt)
}
