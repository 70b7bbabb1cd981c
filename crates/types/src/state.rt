// The state, and what opening, take-backs and closings do with it. Offers are the crate `offers`.
//
// The tables are lent, always in this order: the class table's parent, rank, rows and trail, then nodes: a row for each node kept.
// They and the live counts are a `State`. Working memory is lent beside it. How many nodes there is room for is the number of rows of
// `nodes`.

ghost use Rattle.std.specs.Prelude.{◌≡◌, List, ℕ, ◌+◌, ◌*◌, ◌^◌, ◌≤◌, ◌<◌, length, get_or, replicate};
ghost use Rattle.classes.specs.Table.{fresh};
ghost use Rattle.classes.specs.Columns.{laid, width};
ghost use Rattle.classes.specs.declared.Bound.TheVariants.{Free};
ghost use Rattle.nodes.specs.Layout.{standing};
ghost use Rattle.combinators.specs.Entered.{entered};
ghost use Rattle.nodes.specs.Kept.{node_width};
ghost use Rattle.types.specs.States.{held, Opened};
ghost use Rattle.types.specs.Lent.{held_by, held_with, SameTables};
ghost use Rattle.types.specs.Applying.{rows_cleared};
ghost use Rattle.types.specs.Calls.{Called, Closing};
ghost use Rattle.nodes.specs.declared.Record.TheVariants.{TakeBack};

use super::Answer;
use classes::{Bound, Mark, context, undo};
use closing::{Endless, listing};
use nodes::kept::{ENTRIES_BEFORE, LINKS_BEFORE, NODE};

// The entries that stand from the start: 1, and 2^(2^n) for n from 0 to 31.
const STANDING: u16 = 33;

// How much of the tables is in use.
#[derive(Clone, Copy, Debug, PartialEq, Eq)]
pub struct Live {
    pub entries: u16,
    pub links: u16,
    pub kept: u16,
}

// The lent tables, and how much of them is in use.
#[derive(Drop)]
pub struct State<'a> {
    pub parent: &'a mut [u16],
    pub rank: &'a mut [u16],
    pub rows: &'a mut [u16],
    pub trail: &'a mut [u16],
    pub nodes: &'a mut [u16],
    pub live: Live,
}

// Clears the rows from number `from` up to `to`.
fn clear_rows(nodes: &mut [u16], from: u16, to: u16)
    requires { (from ≤ to) × (node_width * to ≤ length nodes.old) }
    ensures { nodes.new ≡ rows_cleared nodes.old from to }
{
    nodes[NODE * (from as usize)..NODE * (to as usize)].fill(0);
}

// The bound of a standing entry: 1, 1 + 1, and from then on the square of the one before.
fn standing_bound(i: u16) -> Bound
    requires { i < 33 }
    ensures { result ≡ get_or standing i Free }
{
    if i == 0 {
        return Bound::Unit;
    }
    if i == 1 {
        return Bound::Sum(0, 0);
    }
    Bound::Product(i - 1, i - 1)
}

impl State<'_> {
    // Takes back to the first `to` nodes.
    pub fn take_back(&mut self, to: u16) -> Answer
        requires { (most : ℕ) × Opened most (held_by self.old) }
        ensures same_tables { SameTables self.old self.new }
        ensures called { let was = held_by self.old in
            let is = held_by self.new in
            (most : ℕ) (o : Opened most was) → Called most was o (TakeBack to) result is }
    {
        let kept = self.live.kept;
        if kept < to {
            return Answer::TooFar(kept);
        }
        if kept == to {
            return Answer::TakenBack(to);
        }
        let row = NODE * (to as usize);
        let entries = self.nodes[row + ENTRIES_BEFORE];
        let links = self.nodes[row + LINKS_BEFORE];
        let now = Mark {
            entries: self.live.entries,
            links: self.live.links,
        };
        undo::undo(
            self.parent,
            self.rank,
            self.rows,
            self.trail,
            now,
            Mark { entries, links },
        );
        clear_rows(self.nodes, to, kept);
        self.live = Live {
            entries,
            links,
            kept: to,
        };
        Answer::TakenBack(to)
    }

    // Closes: the listing is written into `listed`, and no table changes. Working memory: four numbers for each entry.
    pub fn close(&self, work: &mut [u16], listed: &mut [u16]) -> Answer
        requires by_index { (most : ℕ) × (rank trail : List ℕ) × Opened most (held_with self.now rank trail) }
        requires entries_bound { (4 + 3 * self.now.live.entries < 2 ^ 16)
            × (4 * self.now.live.entries ≤ length work.old)
            × (4 + 3 * self.now.live.entries + 2 * self.now.live.kept ≤ length listed.old) }
        ensures { (most : ℕ) (rank trail : List ℕ) (o : Opened most (held_with self.now rank trail)) →
            Closing most o.nodes listed.old result listed.new }
    {
        close(self.parent, self.rows, self.nodes, work, listed, self.live)
    }
}

// The same of the tables that it reads alone.
pub fn close(
    parent: &[u16],
    rows: &[u16],
    nodes: &[u16],
    work: &mut [u16],
    listed: &mut [u16],
    live: Live,
) -> Answer
    requires by_index { (most : ℕ) × (rank trail : List ℕ)
        × Opened most (held parent.now rank rows.now trail nodes.now live) }
    requires entries_bound { (4 + 3 * live.entries < 2 ^ 16)
        × (4 * live.entries ≤ length work.old)
        × (4 + 3 * live.entries + 2 * live.kept ≤ length listed.old) }
    ensures { (most : ℕ) (rank trail : List ℕ) (o : Opened most (held parent.now rank rows.now trail nodes.now live)) →
        Closing most o.nodes listed.old result listed.new }
{
    let kept = live.kept;
    match listing::close(parent, rows, nodes, work, listed, live.entries, kept) {
        Ok(types) => Answer::Closed(kept, types),
        Err(Endless { node }) => Answer::Endless(node),
    }
}

// Opens fresh tables, all of them 0: the standing entries, and no node.
pub fn open(parent: &mut [u16], rows: &mut [u16]) -> Live
    requires { (n : ℕ) × (33 ≤ n) × (n < 2 ^ 16) × (parent.old ≡ replicate n 0) × (rows.old ≡ replicate (width * n) 0) }
    ensures { let n = length parent.old in
        let is = laid parent.new (replicate n 0) rows.new (replicate (3 * n) 0) result.entries result.links in
        (result.kept ≡ 0) × (is ≡ entered (fresh n) standing) }
{
    for i in 0..STANDING {
        let now = Mark {
            entries: i,
            links: 0,
        };
        context::add(parent, rows, now, standing_bound(i)).unwrap();
    }
    Live {
        entries: STANDING,
        links: 0,
        kept: 0,
    }
}
