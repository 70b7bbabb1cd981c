// The record calls on a state by value: the tables as arrays of numbers with their live counts, for at most 1,024 nodes.
// Each call lends the arrays to the core once. A job uses the core itself, on tables of its own.

#![tactic(auto)]

ghost use Rattle.std.specs.Prelude.{◌≡◌, [], ◌≤◌, length, set};
ghost use Rattle.nodes.specs.Layout.{word_of};
ghost use Rattle.types.specs.Limits.{longest_listing, most_nodes};
ghost use Rattle.types.specs.States.{Opened};
ghost use Rattle.calls.specs.Values.{state_of};
ghost use Rattle.types.specs.Calls.{Called};
ghost use Rattle.calls.specs.Handed.{Handed};
ghost use Rattle.nodes.specs.declared.Record.TheVariants.{Offer, TakeBack, Close};

use nodes::records::LARGEST_WORD;
use nodes::{Coded, Node};
use types::limits::{ENTRIES, LISTING, NODE_ROWS, PENDING, ROWS, TRAIL, WORK};
use types::state::{Live, State};
use types::{Answer, state};

// The state: the tables as arrays, and how much of them is in use.
#[derive(Clone, Copy, Debug, PartialEq, Eq)]
pub struct Owned {
    pub parent: [u16; ENTRIES],
    pub rank: [u16; ENTRIES],
    pub rows: [u16; ROWS],
    pub trail: [u16; TRAIL],
    pub nodes: [u16; NODE_ROWS],
    pub live: Live,
}

// An answer and the state after it.
#[derive(Clone, Copy, Debug, PartialEq, Eq)]
pub struct After {
    pub answer: Answer,
    pub state: Owned,
}

// A closing's answer, its listing with 0 past the end, and the state, which is the one that was given.
#[derive(Clone, Copy, Debug, PartialEq, Eq)]
pub struct Listed {
    pub answer: Answer,
    pub listing: [u16; LISTING],
    pub state: Owned,
}

// The fresh state: the standing entries, and no node.
pub fn open() -> Owned
    ensures { (o : Opened most_nodes (state_of result)) × (o.nodes ≡ []) }
{
    let mut parent = [0u16; ENTRIES];
    let rank = [0u16; ENTRIES];
    let mut rows = [0u16; ROWS];
    let trail = [0u16; TRAIL];
    let nodes = [0u16; NODE_ROWS];
    let live = state::open(&mut parent, &mut rows);
    Owned {
        parent,
        rank,
        rows,
        trail,
        nodes,
        live,
    }
}

// A word's n; 0 for any other node.
fn word_of(n: Node) -> u16
    ensures { result ≡ word_of n }
{
    if let Node::Word(n) = n { n } else { 0 }
}

// Offers a node: the checks in the order 1, 3, 2, 4.
pub fn offer(mut s: Owned, n: Node) -> After
    requires { Opened most_nodes (state_of s) }
    ensures { (o : Opened most_nodes (state_of s)) → Called most_nodes (state_of s) o (Offer n) result.answer (state_of result.state) }
{
    if LARGEST_WORD < word_of(n) {
        return After {
            answer: Answer::Malformed,
            state: s,
        };
    }
    let mut pending = [0u16; PENDING];
    let mut lent = State {
        parent: &mut s.parent,
        rank: &mut s.rank,
        rows: &mut s.rows,
        trail: &mut s.trail,
        nodes: &mut s.nodes,
        live: s.live,
    };
    let answer = offers::offer(&mut lent, &mut pending, Coded::from(n));
    s.live = lent.live;
    After { answer, state: s }
}

// Takes back to the first `to` nodes.
pub fn take_back(mut s: Owned, to: u16) -> After
    requires { Opened most_nodes (state_of s) }
    ensures { (o : Opened most_nodes (state_of s)) → Called most_nodes (state_of s) o (TakeBack to) result.answer (state_of result.state) }
{
    let mut lent = State {
        parent: &mut s.parent,
        rank: &mut s.rank,
        rows: &mut s.rows,
        trail: &mut s.trail,
        nodes: &mut s.nodes,
        live: s.live,
    };
    let answer = lent.take_back(to);
    s.live = lent.live;
    After { answer, state: s }
}

// The listing where there are no types, over zeros: 0, 0, 4, 4.
fn no_listing(listing: &mut [u16])
    requires { 4 ≤ length listing.old }
    ensures { listing.new ≡ set (set listing.old 2 4) 3 4 }
{
    listing[2] = 4;
    listing[3] = 4;
}

// Closes, and hands the listing out.
pub fn close(mut s: Owned) -> Listed
    requires { Opened most_nodes (state_of s) }
    ensures { (o : Opened most_nodes (state_of s)) →
        Called most_nodes (state_of s) o Close result.answer (state_of result.state) × Handed longest_listing o.nodes result.listing }
{
    let mut work = [0u16; WORK];
    let mut listing = [0u16; LISTING];
    let lent = State {
        parent: &mut s.parent,
        rank: &mut s.rank,
        rows: &mut s.rows,
        trail: &mut s.trail,
        nodes: &mut s.nodes,
        live: s.live,
    };
    let answer = lent.close(&mut work, &mut listing);
    if let Answer::Endless(_) = answer {
        let mut none = [0u16; LISTING];
        no_listing(&mut none);
        return Listed {
            answer,
            listing: none,
            state: s,
        };
    }
    Listed {
        answer,
        listing,
        state: s,
    }
}
