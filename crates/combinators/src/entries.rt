// Entries added to the class table. The tables lent are its parent and rows; `e` and `links` are its counts, and what is given
// back is the number of entries then.

ghost use Rattle.std.specs.Prelude.{[], ◌+◌, ◌^◌, ◌<◌};
ghost use Rattle.nodes.specs.Layout.{case_entries};
ghost use Rattle.combinators.specs.Entering.{part, Room, Grown};

use classes::{Bound, Mark, context};

// Adds an entry for each of the bounds, in order.
pub(super) fn add<const N: usize>(
    parent: &mut [u16],
    rows: &mut [u16],
    links: u16,
    e: u16,
    bounds: [Bound; N],
) -> u16
    requires { Room (part parent.old rows.old e links) bounds }
    ensures { let was = part parent.old rows.old e links in
        let is = part parent.new rows.new result links in
        Grown was bounds.entry is }
{
    let mut entries = e;
    for b in bounds {
        context::add(parent, rows, Mark { entries, links }, b).unwrap();
        entries += 1;
    }
    entries
}

// What a case and both its halves begin with: A, B, C, D at e to e + 3, A + B at e + 4, (A + B) × C at e + 5.
pub(super) fn add_case(parent: &mut [u16], rows: &mut [u16], links: u16, e: u16) -> u16
    requires entries_bound { e + 8 < 2 ^ 16 }
    requires room { Room (part parent.old rows.old e links) (case_entries e []) }
    ensures { let was = part parent.old rows.old e links in
        let is = part parent.new rows.new result links in
        Grown was (case_entries e []) is }
{
    let sum = Bound::Sum(e, e + 1);
    let product = Bound::Product(e + 4, e + 2);
    let free = Bound::Free;
    add(
        parent,
        rows,
        links,
        e,
        [free, free, free, free, sum, product],
    )
}
