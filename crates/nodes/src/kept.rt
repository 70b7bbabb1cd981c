// A kept node's row in the table of nodes: how many numbers it has, and where each stands.

pub const NODE: usize = 7;

pub const KIND: usize = 0;

pub const FIRST: usize = 1;

pub const SECOND: usize = 2;

pub const SOURCE: usize = 3;

pub const TARGET: usize = 4;

// The entries and the links that there were before the node.
pub const ENTRIES_BEFORE: usize = 5;

pub const LINKS_BEFORE: usize = 6;
