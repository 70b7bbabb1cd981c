// All the nodes in order, and the listing: nodes, types, offset of the types, offset of the arrows, the types, the arrows.

ghost use Rattle.std.specs.Prelude.{◌≡◌, List, [], ℕ, ◌+◌, ◌*◌, ◌^◌, ◌≤◌, ◌<◌, length};
ghost use Rattle.classes.specs.Forced.{Rule};
ghost use Rattle.classes.specs.Table.{bounds};
ghost use Rattle.classes.specs.Columns.{laid};
ghost use Rattle.classes.specs.Made.{Stands};
ghost use Rattle.typing.specs.Types.{Ty};
ghost use Rattle.nodes.specs.Kept.{source_at, target_at};
ghost use Rattle.closing.specs.Closings.{ClosedBy};
ghost use Rattle.closing.specs.Visiting.{Settled, VisitedBy};
ghost use Rattle.closing.specs.Writing.{ArrowBy, Closable, AllBy, type_number, Numberable, ArrowsWritten, ListingWritten};

use super::walk::{Cycle, NUMBERED};
use super::{Endless, TRIPLE, TYPES, WORK, walk};
use classes::union_bound::root;
use nodes::kept::{NODE, SOURCE, TARGET};

// Visits an entry whose class may have its number already.
fn visit_unless_numbered(
    parent: &[u16],
    rows: &[u16],
    work: &mut [u16],
    listing: &mut [u16],
    entries: u16,
    count: u16,
    a: u16,
) -> Result<u16, Cycle>
    requires by_index { (rank trail : List ℕ) × (links : ℕ) × (rules : List Rule) × (ts : List Ty)
        × Stands (laid parent.now rank rows.now trail entries links) rules
        × Settled (laid parent.now rank rows.now trail entries links) rules work.old listing.old count ts }
    requires a_lt_entries { a < entries }
    ensures { (rank trail : List ℕ) (links : ℕ) (rules : List Rule) (ts : List Ty) →
        let t = laid parent.now rank rows.now trail entries links in
        Stands t rules
        → Settled t rules work.old listing.old count ts
        → VisitedBy t rules work.old listing.old count ts a result work.new listing.new }
{
    if walk::is_numbered(parent, work, a) {
        return Ok(count);
    }
    walk::visit(parent, rows, work, listing, entries, count, a)
}

// Visits a node's source, then its target. The source is looked at here: as `walk::visit` then has two callers, the compiler leaves
// it a call of its own, and a node whose types have their numbers pays for the looks alone.
fn visit_arrow(
    parent: &[u16],
    rows: &[u16],
    work: &mut [u16],
    listing: &mut [u16],
    entries: u16,
    count: u16,
    source: u16,
    target: u16,
) -> Result<u16, Cycle>
    requires by_index { (rank trail : List ℕ) × (links : ℕ) × (rules : List Rule) × (ts : List Ty)
        × Stands (laid parent.now rank rows.now trail entries links) rules
        × Settled (laid parent.now rank rows.now trail entries links) rules work.old listing.old count ts }
    requires source_lt_entries { (source < entries) × (target < entries) }
    ensures { (rank trail : List ℕ) (links : ℕ) (rules : List Rule) (ts : List Ty) →
        let t = laid parent.now rank rows.now trail entries links in
        Stands t rules
        → Settled t rules work.old listing.old count ts
        → ArrowBy t rules work.old listing.old count ts source target result work.new listing.new }
{
    if walk::is_numbered(parent, work, source) {
        return visit_unless_numbered(parent, rows, work, listing, entries, count, target);
    }
    let types = walk::visit(parent, rows, work, listing, entries, count, source)?;
    visit_unless_numbered(parent, rows, work, listing, entries, types, target)
}

// Visits the nodes in order, and leaves at once with the first that has no types.
fn visit_all(
    parent: &[u16],
    rows: &[u16],
    nodes: &[u16],
    work: &mut [u16],
    listing: &mut [u16],
    entries: u16,
    kept: u16,
) -> Result<u16, Endless>
    requires by_index { (rank trail : List ℕ) × (links : ℕ) × (rules : List Rule)
        × Stands (laid parent.now rank rows.now trail entries links) rules
        × Settled (laid parent.now rank rows.now trail entries links) rules work.old listing.old 0 [] }
    requires closable { Closable entries nodes.now work.old listing.old kept }
    ensures { (rank trail : List ℕ) (links : ℕ) (rules : List Rule) →
        let t = laid parent.now rank rows.now trail entries links in
        Stands t rules
        → Settled t rules work.old listing.old 0 []
        → AllBy t rules nodes.now listing.old kept result work.new listing.new }
{
    let mut count: u16 = 0;
    for i in 0..kept {
        let row = NODE * (i as usize);
        let source = nodes[row + SOURCE];
        let target = nodes[row + TARGET];
        let Ok(types) = visit_arrow(parent, rows, work, listing, entries, count, source, target)
        else {
            return Err(Endless { node: i });
        };
        count = types;
    }
    Ok(count)
}

// The number of the type of a.
fn type_number(parent: &[u16], work: &[u16], a: u16) -> u16
    requires { Numberable parent.now work.now a }
    ensures { result ≡ type_number parent.now work.now a }
{
    let class = root(parent, a);
    work[WORK * (class as usize)] - NUMBERED
}

// Writes the arrows, as the numbers of their types.
fn write_arrows(
    parent: &[u16],
    nodes: &[u16],
    work: &[u16],
    listing: &mut [u16],
    at: u16,
    kept: u16,
)
    requires by_index { (i : ℕ) → i < kept → Numberable parent.now work.now (source_at nodes.now i) × Numberable parent.now work.now (target_at nodes.now i) }
    requires kept_in_bounds { (7 * kept ≤ length nodes.now) × (at + 2 * kept ≤ length listing.old) }
    ensures { ArrowsWritten parent.now nodes.now work.now listing.old at kept listing.new }
{
    for i in 0..kept {
        let row = NODE * (i as usize);
        let to = (at as usize) + 2 * (i as usize);
        listing[to] = type_number(parent, work, nodes[row + SOURCE]);
        listing[to + 1] = type_number(parent, work, nodes[row + TARGET]);
    }
}

// Writes what stands before and after the types.
fn write(parent: &[u16], nodes: &[u16], work: &[u16], listing: &mut [u16], count: u16, kept: u16)
    requires by_index { (i : ℕ) → i < kept → Numberable parent.now work.now (source_at nodes.now i) × Numberable parent.now work.now (target_at nodes.now i) }
    requires kept_in_bounds { (7 * kept ≤ length nodes.now) × (4 + 3 * count + 2 * kept ≤ length listing.old) × (4 + 3 * count < 2 ^ 16) }
    ensures { ListingWritten parent.now nodes.now work.now listing.old count kept listing.new }
{
    let at = (TYPES as u16) + (TRIPLE as u16) * count;
    listing[0] = kept;
    listing[1] = count;
    listing[2] = TYPES as u16;
    listing[3] = at;
    write_arrows(parent, nodes, work, listing, at, kept);
}

// Closes: the tables are read only, so what is free stays free.
pub fn close(
    parent: &[u16],
    rows: &[u16],
    nodes: &[u16],
    work: &mut [u16],
    listing: &mut [u16],
    entries: u16,
    kept: u16,
) -> Result<u16, Endless>
    requires by_index { (rank trail : List ℕ) × (links : ℕ) × (rules : List Rule)
        × Stands (laid parent.now rank rows.now trail entries links) rules }
    requires closable { Closable entries nodes.now work.old listing.old kept }
    ensures { (rank trail : List ℕ) (links : ℕ) (rules : List Rule) →
        let t = laid parent.now rank rows.now trail entries links in
        Stands t rules
        → ClosedBy (bounds t) rules nodes.now kept listing.old result listing.new }
{
    work[..WORK * (entries as usize)].fill(0);
    let count = visit_all(parent, rows, nodes, work, listing, entries, kept)?;
    write(parent, nodes, work, listing, count, kept);
    Ok(count)
}
