// What is printed. Nothing is promised of it: the gate compares it. What standard output does not take is let go.

use std::fmt;
use types::Answer;

// An answer in words.
#[derive(Clone, Copy, Debug, PartialEq, Eq)]
pub(super) struct Said(pub(super) Answer);

impl fmt::Display for Said {
    fn fmt<W: fmt::Write>(&self, f: &mut fmt::Formatter<W>) -> fmt::Result {
        match self.0 {
            Answer::Kept(node, joins) => write!(f, "node {node}, {joins} joins"),
            Answer::TakenBack(nodes) => write!(f, "{nodes} kept"),
            Answer::Closed(nodes, types) => write!(f, "{nodes} nodes, {types} types"),
            Answer::Malformed => write!(f, "malformed"),
            Answer::NoChild => write!(f, "no such child"),
            Answer::Full => write!(f, "full"),
            Answer::Clashes(rule) => write!(f, "clash, rule {rule}"),
            Answer::Endless(node) => write!(f, "endless, node {node}"),
            Answer::TooFar(nodes) => write!(f, "only {nodes} kept"),
        }
    }
}

// Numbers in a line, a space before each.
#[derive(Clone, Copy, Debug, PartialEq, Eq)]
struct Spaced<'a>(&'a [u16]);

impl fmt::Display for Spaced<'_> {
    fn fmt<W: fmt::Write>(&self, f: &mut fmt::Formatter<W>) -> fmt::Result {
        for n in self.0 {
            write!(f, " {n}")?;
        }
        Ok(())
    }
}

// The listing's numbers up to its end: its arrows' offset, and two numbers for each node.
pub(super) fn listing(rt: &impl Print, listing: &[u16]) {
    let &[nodes, _, _, arrows, ..] = listing else {
        return;
    };
    let end = usize::from(arrows) + 2 * usize::from(nodes);
    if let Some(listed) = listing.get(..end) {
        let _ = rt.println(Spaced(listed));
    }
}
