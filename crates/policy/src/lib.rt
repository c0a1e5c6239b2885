// Policy files: tags, sizes and answers. The rest is definitions and laws: which files are fine, what a name means in two of them, and which rules a
// ruleset's part has.
#![tactic(auto)]

// The tags of fields.
pub const RULESET_TAG: u8 = 1;

pub const MASKS_TAG: u8 = 2;

pub const PATH_TAG: u8 = 3;

pub const PORT_TAG: u8 = 4;

pub const GROUP_TAG: u8 = 5;
// A tag and two bytes of length.
pub const HEADER: usize = 3;
// And the level of a group.
pub const GROUP_HEADER: usize = 4;
// The largest file.
pub const MAX_FILE: usize = 32768;
// The longest name of a ruleset.
pub const MAX_RULESET_NAME: usize = 32;
// The bytes of a ruleset's three masks.
pub const MASKS_SIZE: usize = 24;
// The bytes of a rule's rights.
pub const RIGHTS_SIZE: usize = 8;
// The bytes of a port rule.
pub const PORT_SIZE: usize = 10;
// How many groups may stand inside one another.
pub const MAX_DEPTH: usize = 8;

// A part of a file, from a place up to another.
#[derive(Clone, Copy)]
pub struct Span {
    pub at: usize,
    pub end: usize,
}

// All read, up to a place; or the place of the first faulty field's tag.
#[derive(Clone, Copy)]
pub enum Read {
    Next(usize),
    Fault(usize),
}

// The two files.
#[derive(Clone, Copy)]
pub enum File {
    Stock,
    Site,
}

// What a name means: a ruleset's part of a file; or a file is over-long, or damaged at a place; or neither file has the name.
#[derive(Clone, Copy)]
pub enum Found {
    At(File, Span),
    TooBig(File),
    Damaged(File, usize),
    Missing,
}
