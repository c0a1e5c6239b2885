// The limits, one constant each.
pub const MAX_LEVEL: u64 = 6;

pub const MAX_ENTRIES: usize = 1024;

pub const MAX_RULESETS: usize = 16;
// Rules to a ruleset or a layer.
pub const MAX_RULES: usize = 64;

pub const MAX_LAYERS: usize = 256;
// Rules in the pool that all layers share.
pub const MAX_POOL: usize = 1024;

pub const MAX_THREADS: usize = 8;
// Layers to a domain.
pub const MAX_DOMAIN: usize = 64;
// The next object number once the last one, 4,294,967,295, is taken.
pub const MAX_COUNTER: u64 = 4294967296;

pub const MAX_PORT: u64 = 65535;
// The bytes of an attribute.
pub const MIN_ATTRIBUTE: usize = 8;

pub const MAX_ATTRIBUTE: usize = 4096;
