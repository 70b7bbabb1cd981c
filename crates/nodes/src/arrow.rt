// Arrows and rules, on numbers alone. What each node adds to the class table is in the crate `combinators`.

use super::Coded;

// A node's source and target, as entries.
#[derive(Clone, Copy, Debug, PartialEq, Eq)]
pub struct Arrow {
    pub source: u16,
    pub target: u16,
}

// A rule: its number in document 01 (0 for D = target, which joins a fresh entry and cannot clash) and the two entries that it
// says are equal.
#[derive(Clone, Copy, Debug, PartialEq, Eq)]
pub struct Rule {
    pub number: u16,
    pub one: u16,
    pub other: u16,
}

// A node with its children's arrows and the number of the next entry: all that what it adds depends on.
#[derive(Clone, Copy, Debug, PartialEq, Eq)]
pub struct Adds {
    pub node: Coded,
    pub s: Arrow,
    pub t: Arrow,
    pub e: u16,
}
