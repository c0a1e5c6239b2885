// The sizes of names and of paths. The rest is definitions and laws: the names of entries, when they are sound, and how a path is looked up.
#![tactic(auto)]

// The longest name.
pub const MAX_NAME: usize = 48;
// The bytes of a row of the table of names: the length, then the name.
pub const NAME_WIDTH: usize = MAX_NAME + 1;
// The longest path.
pub const MAX_PATH: usize = 4095;
// What parts the components of a path.
pub const SLASH: u8 = b'/';
