// Plays a case from fresh tables, stage by stage.
use crate::stages::{Asked, enter, open, requests, tree};
use std::io;
use tables::rows::{
    ENTRIES_CELLS, LAYERS_CELLS, POOL_CELLS, RULESETS_CELLS, SYSTEM_CELLS, THREADS_CELLS,
};

// The stages whose answers can be written beside those of the requests.
pub const TREE: u64 = 1;

pub const RULESET: u64 = 2;

pub const LAYERS: u64 = 3;

// A case's level, the rights of its rules for the entries 1, 2 and 3 (0 for no rule), the number of its layers, and the stage that
// is shown.
#[derive(Clone, Copy)]
pub struct Setup {
    pub level: u64,
    pub first: u64,
    pub second: u64,
    pub third: u64,
    pub layers: u64,
    pub shown: u64,
}

fn play(rt: &impl Print, attribute: &[u8], other: &[u8], s: Setup, asked: Asked) -> io::Result<()> {
    let mut system = [0u64; SYSTEM_CELLS];
    let mut entries = [0u64; ENTRIES_CELLS];
    let mut rulesets = [0u64; RULESETS_CELLS];
    let mut layers = [0u64; LAYERS_CELLS];
    let mut pool = [0u64; POOL_CELLS];
    let mut threads = [0u64; THREADS_CELLS];
    broker::fresh(
        &mut system,
        &mut entries,
        &mut rulesets,
        &mut layers,
        &mut pool,
        &mut threads,
        s.level,
    );
    tree(
        rt,
        &mut system,
        &mut entries,
        &rulesets,
        &layers,
        &pool,
        &threads,
        s.shown == TREE,
    )?;
    open(
        rt,
        &system,
        &entries,
        &mut rulesets,
        &layers,
        &pool,
        &threads,
        attribute,
        s.first,
        s.second,
        s.third,
        other,
        s.shown == RULESET,
    )?;
    enter(
        rt,
        &mut system,
        &entries,
        &rulesets,
        &mut layers,
        &mut pool,
        &mut threads,
        s.layers,
        s.shown == LAYERS,
    )?;
    requests(
        rt,
        &system,
        &mut entries,
        &rulesets,
        &layers,
        &pool,
        &threads,
        asked,
    )
}

// Writes a line with the case's name and its answers.
pub fn case(
    rt: &impl Print,
    name: &str,
    attribute: &[u8],
    other: &[u8],
    s: Setup,
    asked: Asked,
) -> io::Result<()> {
    print!(rt; "{name}:")?;
    play(rt, attribute, other, s, asked)?;
    println!(rt)
}
