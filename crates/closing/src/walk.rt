// The walk down the classes. A path of open classes takes the place of calls, so no depth of types needs stack.

ghost use Rattle.std.specs.Prelude.{◌≡◌, true, false, List, ℕ, ◌+◌, ◌-◌, ◌*◌, ◌^◌, ◌<◌, Ok, length, get_or};
ghost use Rattle.classes.specs.Forced.{Rule};
ghost use Rattle.classes.specs.Table.{root_in};
ghost use Rattle.classes.specs.Columns.{laid};
ghost use Rattle.classes.specs.Turning.{Rooted};
ghost use Rattle.classes.specs.Made.{Stands};
ghost use Rattle.typing.specs.Types.{Ty};
ghost use Rattle.closing.specs.Visiting.{Settled, VisitedBy};
ghost use Rattle.closing.specs.Walking.{mark_at, top_of, opened, reached, seen_in, PartsBelow, Seeable, Steppable, Completed, Parted, Stepped};

use super::numbering::{PRODUCT, Row, SUM, UNIT};
use super::{WORK, numbering};
use classes::union_bound::root;
use classes::{Bound, context};

// Where the path stands among an entry's numbers of working memory; the mark comes first.
const PATH: usize = 1;

// Marks: not seen, open (on the path), and from there on two more than the type's number.
const UNSEEN: u16 = 0;

const OPEN: u16 = 1;

pub(super) const NUMBERED: u16 = 2;

// A class that lies inside itself.
#[derive(Clone, Copy, Debug, PartialEq, Eq)]
pub(super) struct Cycle;

// How far a walk has come: how long the path is, and how many types there are.
#[derive(Clone, Copy, Debug, PartialEq, Eq)]
struct Reached {
    depth: u16,
    types: u16,
}

// The bound that the class of r shows, its parts' representatives in place of its parts.
fn look(parent: &[u16], rows: &[u16], r: u16) -> Bound
    requires { Seeable parent.now rows.now r }
    ensures { result ≡ seen_in parent.now rows.now r }
{
    match context::shown(rows, r) {
        Bound::Free => Bound::Free,
        Bound::Unit => Bound::Unit,
        Bound::Sum(a, b) => Bound::Sum(root(parent, a), root(parent, b)),
        Bound::Product(a, b) => Bound::Product(root(parent, a), root(parent, b)),
    }
}

// Opens a class: it is on the path now.
fn open(work: &mut [u16], at: Reached, a: u16) -> Reached
    requires { (4 * at.depth + 1 < length work.old) × (4 * a < length work.old) × (at.depth + 1 < 2 ^ 16) }
    ensures { (work.new ≡ opened work.old at.depth a) × (result ≡ reached (at.depth + 1) at.types) }
{
    work[WORK * (a as usize)] = OPEN;
    work[WORK * (at.depth as usize) + PATH] = a;
    Reached {
        depth: at.depth + 1,
        types: at.types,
    }
}

// Numbers the class at the top, whose type is these three numbers, and takes it off the path.
fn complete(
    work: &mut [u16],
    listing: &mut [u16],
    entries: u16,
    at: Reached,
    top: u16,
    ty: Row,
) -> Reached
    requires steppable { Steppable entries work.old listing.old at.depth at.types }
    requires top_lt_entries { top < entries }
    ensures { Completed entries work.old listing.old at.depth at.types top ty.kind ty.left ty.right (Ok result) work.new listing.new }
{
    let t = numbering::number(work, listing, entries, at.types, ty);
    work[WORK * (top as usize)] = t + NUMBERED;
    Reached {
        depth: at.depth - 1,
        types: if t == at.types {
            at.types + 1
        } else {
            at.types
        },
    }
}

// Looks at the parts of the class at the top, left before right. It stands in the walk itself: as a call it would hand its result over in
// memory, written as two numbers of two bytes and read as one of four, and for each sum or product the processor would wait for that.
#[inline(always)]
fn part(
    work: &mut [u16],
    listing: &mut [u16],
    entries: u16,
    at: Reached,
    top: u16,
    ty: Row,
) -> Result<Reached, Cycle>
    requires steppable { Steppable entries work.old listing.old at.depth at.types }
    requires top_lt_entries { (top < entries) × (ty.left < entries) × (ty.right < entries) }
    ensures { Parted entries work.old listing.old at.depth at.types top ty.kind ty.left ty.right result work.new listing.new }
{
    let one = work[WORK * (ty.left as usize)];
    if one == UNSEEN {
        return Ok(open(work, at, ty.left));
    }
    if one == OPEN {
        return Err(Cycle);
    }
    let other = work[WORK * (ty.right as usize)];
    if other == UNSEEN {
        return Ok(open(work, at, ty.right));
    }
    if other == OPEN {
        return Err(Cycle);
    }
    let numbers = Row {
        kind: ty.kind,
        left: one - NUMBERED,
        right: other - NUMBERED,
    };
    Ok(complete(work, listing, entries, at, top, numbers))
}

// One step: looks at the class at the top of the path.
fn step(
    parent: &[u16],
    rows: &[u16],
    work: &mut [u16],
    listing: &mut [u16],
    entries: u16,
    at: Reached,
) -> Result<Reached, Cycle>
    requires steppable { Steppable entries work.old listing.old at.depth at.types }
    requires fact { let top = top_of work.old at.depth in
        Seeable parent.now rows.now top × PartsBelow entries (seen_in parent.now rows.now top) }
    ensures { let top = top_of work.old at.depth in
        let bound = seen_in parent.now rows.now top in
        Stepped entries work.old listing.old at.depth at.types top bound result work.new listing.new }
{
    let top = work[WORK * ((at.depth - 1) as usize) + PATH];
    match look(parent, rows, top) {
        // an arm of its own: a must-fail edit numbers free classes alone as sums
        Bound::Free => Ok(complete(work, listing, entries, at, top, UNIT)),
        Bound::Unit => Ok(complete(work, listing, entries, at, top, UNIT)),
        Bound::Sum(left, right) => {
            let shown = Row {
                kind: SUM,
                left,
                right,
            };
            part(work, listing, entries, at, top, shown)
        }
        Bound::Product(left, right) => {
            let shown = Row {
                kind: PRODUCT,
                left,
                right,
            };
            part(work, listing, entries, at, top, shown)
        }
    }
}

// Numbers the class of a, which is not seen yet, and all that it is made of, and answers how many types there are then. The caller
// has looked whether it is seen: a node's types mostly have their numbers already, and looking is cheaper than the call.
pub(super) fn visit(
    parent: &[u16],
    rows: &[u16],
    work: &mut [u16],
    listing: &mut [u16],
    entries: u16,
    count: u16,
    a: u16,
) -> Result<u16, Cycle>
    requires by_index { (rank trail : List ℕ) × (links : ℕ) × (rules : List Rule) × (ts : List Ty)
        × Stands (laid parent.now rank rows.now trail entries links) rules
        × Settled (laid parent.now rank rows.now trail entries links) rules work.old listing.old count ts }
    requires a_lt_entries { a < entries }
    requires a_value { mark_at work.old (root_in parent.now a) ≡ 0 }
    ensures { (rank trail : List ℕ) (links : ℕ) (rules : List Rule) (ts : List Ty) →
        let t = laid parent.now rank rows.now trail entries links in
        Stands t rules
        → Settled t rules work.old listing.old count ts
        → VisitedBy t rules work.old listing.old count ts a result work.new listing.new }
{
    let start = Reached {
        depth: 0,
        types: count,
    };
    let mut at = open(work, start, root(parent, a));
    while 0 < at.depth {
        at = step(parent, rows, work, listing, entries, at)?;
    }
    Ok(at.types)
}

// Whether the class of a has its number: between two visits none is open, so one that is seen has it.
pub(super) fn is_numbered(parent: &[u16], work: &[u16], a: u16) -> bool
    requires { Rooted parent.now a × (4 * root_in parent.now a < length work.now) }
    ensures { (result ≡ true → mark_at work.now (root_in parent.now a) ≡ 0 → ⊥) × (result ≡ false → mark_at work.now (root_in parent.now a) ≡ 0) }
{
    work[WORK * (root(parent, a) as usize)] != UNSEEN
}
