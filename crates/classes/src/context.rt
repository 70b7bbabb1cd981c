// Bounds and joining, after the Rust's context.rs. There `unify` calls `bind`, which calls `unify`; here a table of pairs
// still to join takes the place of the calls, so no depth of types needs stack.

ghost use Rattle.std.specs.Prelude.{◌≡◌, ℕ, ◌+◌, ◌*◌, ◌≤◌, ◌<◌, List, length, get_or};
ghost use Rattle.classes.specs.Table.{Table, kind_of, left_of, right_of};
ghost use Rattle.classes.specs.Columns.{shapes, height, laid, lent, given_row};
ghost use Rattle.classes.specs.Merging.{meeting};
ghost use Rattle.classes.specs.Made.{Made};
ghost use Rattle.classes.specs.Promises.{AddedBy, entries_then, Joining, made_links};
ghost use Rattle.classes.specs.Turning.{Shows, waiting_in, pushed, PartsPushed, Turnable, Turned, links_then, waiting_then};

use super::row::{FREE, KIND, LEFT, PAIR, PRODUCT, RIGHT, ROW, SHAPE, SUM, UNIT, cell};
use super::union_bound::Ranked;
use super::{Bound, Mark, union_bound};

// Two different kinds are forced to be equal. So many links were made until then, and the table is for undoing.
#[derive(Clone, Copy, Debug, PartialEq, Eq)]
pub struct Clashed {
    pub links: u16,
}

// What two bounds in one class come to: two kinds that differ, nothing further, or two pairs of parts to join.
#[derive(Clone, Copy, Debug, PartialEq, Eq)]
enum Meeting {
    Apart,
    Agree,
    Parts(u16, u16, u16, u16),
}

// A bound as the numbers of a row.
#[derive(Clone, Copy, Debug, PartialEq, Eq)]
struct Given {
    kind: u16,
    left: u16,
    right: u16,
}

impl From<Bound> for Given {
    ghost from_gives = { λ b given. (given.kind ≡ kind_of b) × (given.left ≡ left_of b) × (given.right ≡ right_of b) };

    fn from(b: Bound) -> Given {
        let (kind, left, right) = match b {
            Bound::Free => (FREE, 0, 0),
            Bound::Unit => (UNIT, 0, 0),
            Bound::Sum(left, right) => (SUM, left, right),
            Bound::Product(left, right) => (PRODUCT, left, right),
        };
        Given { kind, left, right }
    }
}

// What one turn of a join leaves to go on from: the pairs waiting and the links made.
#[derive(Clone, Copy, Debug, PartialEq, Eq)]
struct Going {
    waiting: usize,
    links: u16,
}

// Adds an entry with its bound, in a class of its own, and gives its number; None where no row is left. Its rank is 0 already,
// as that of every number past the entries.
pub fn add(parent: &mut [u16], rows: &mut [u16], live: Mark, b: Bound) -> Option<u16>
    requires { (rank trail : List ℕ) × Made (lent parent.old rank rows.old trail live) }
    ensures { (rank trail : List ℕ) →
        let was = lent parent.old rank rows.old trail live in
        let is = laid parent.new rank rows.new trail (entries_then live.entries result) live.links in
        Made was → AddedBy was b result is }
{
    let entry = live.entries;
    let e = entry as usize;
    if parent.len() <= e {
        return None;
    }
    let given = Given::from(b);
    let row = ROW * e;
    parent[e] = entry;
    rows[row + KIND] = given.kind;
    rows[row + LEFT] = given.left;
    rows[row + RIGHT] = given.right;
    rows[row + SHAPE] = entry;
    Some(entry)
}

// The bound that entry a was given.
fn bound(rows: &[u16], a: u16) -> Bound
    requires { a < height rows.now }
    ensures { result ≡ given_row rows.now a }
{
    match cell(rows, a, KIND) {
        FREE => Bound::Free,
        UNIT => Bound::Unit,
        SUM => Bound::Sum(cell(rows, a, LEFT), cell(rows, a, RIGHT)),
        _ => Bound::Product(cell(rows, a, LEFT), cell(rows, a, RIGHT)),
    }
}

// The bound that the class of a root shows.
pub fn shown(rows: &[u16], root: u16) -> Bound
    requires { (root < height rows.now) × (get_or (shapes rows.now) root 0 < height rows.now) }
    ensures { result ≡ given_row rows.now (get_or (shapes rows.now) root 0) }
{
    let s = cell(rows, root, SHAPE);
    bound(rows, s)
}

// What follows when one class has the bounds that two roots show, the standing one's first.
fn meet(rows: &[u16], two: Ranked) -> Meeting
    requires { Shows rows.now two.stands × Shows rows.now two.below }
    ensures { let own = get_or (shapes rows.now) two.stands 0 in
        let other = get_or (shapes rows.now) two.below 0 in
        result ≡ meeting (given_row rows.now own) (given_row rows.now other) }
{
    let own = cell(rows, two.stands, SHAPE);
    let other = cell(rows, two.below, SHAPE);
    let k = cell(rows, own, KIND);
    let l = cell(rows, other, KIND);
    if k == FREE {
        return Meeting::Agree;
    }
    if l == FREE {
        return Meeting::Agree;
    }
    // Past 3 a kind is read as a product.
    if k.min(PRODUCT) != l.min(PRODUCT) {
        return Meeting::Apart;
    }
    if k == UNIT {
        return Meeting::Agree;
    }
    Meeting::Parts(
        cell(rows, own, LEFT),
        cell(rows, other, LEFT),
        cell(rows, own, RIGHT),
        cell(rows, other, RIGHT),
    )
}

// Puts a pair on the table of pairs still to join.
fn push(pending: &mut [u16], waiting: usize, a: u16, b: u16)
    requires { 2 * waiting + 2 ≤ length pending.old }
    ensures { pending.new ≡ pushed pending.old waiting a b }
{
    pending[PAIR * waiting] = a;
    pending[PAIR * waiting + 1] = b;
}

// Puts the parts of two bounds that met on the table, the left pair on top, and says how many pairs wait then.
fn push_parts(pending: &mut [u16], waiting: usize, met: Meeting) -> usize
    requires { 2 * waiting + 4 ≤ length pending.old }
    ensures { PartsPushed pending.old waiting met result pending.new }
{
    match met {
        Meeting::Apart | Meeting::Agree => waiting,
        Meeting::Parts(l, m, r, s) => {
            push(pending, waiting, r, s);
            push(pending, waiting + 1, l, m);
            waiting + 2
        }
    }
}

// One turn of a join: takes the last pair and makes its two classes one, whose parts then wait. None where two kinds differ.
fn take_turn(
    parent: &mut [u16],
    rank: &mut [u16],
    rows: &mut [u16],
    trail: &mut [u16],
    pending: &mut [u16],
    links: u16,
    waiting: usize,
) -> Option<Going>
    requires { (e : ℕ) × Turnable (laid parent.old rank.old rows.old trail.old e links) pending.old waiting }
    ensures { (e : ℕ) →
        let was = laid parent.old rank.old rows.old trail.old e links in
        let is = laid parent.new rank.new rows.new trail.new e (links_then links result) in
        let waited = waiting_in pending.old waiting in
        let waits = waiting_in pending.new (waiting_then result) in
        Turnable was pending.old waiting → Turned was waited waiting result is waits }
{
    let top = waiting - 1;
    let two = union_bound::top_roots(parent, rank, pending, top);
    if two.stands == two.below {
        return Some(Going {
            waiting: top,
            links,
        });
    }
    let met = meet(rows, two);
    if let Meeting::Apart = met {
        return None;
    }
    let higher = union_bound::raised(rank, two);
    let shape = union_bound::shows(rows, two);
    union_bound::link(parent, rank, rows, trail, links, two, higher, shape);
    let waiting = push_parts(pending, top, met);
    let links = links + 1;
    Some(Going { waiting, links })
}

// Joins the classes of a and b, and all that follows from it, and gives the links that it made: the fall in the number of classes.
pub fn join(
    parent: &mut [u16],
    rank: &mut [u16],
    rows: &mut [u16],
    trail: &mut [u16],
    pending: &mut [u16],
    live: Mark,
    a: u16,
    b: u16,
) -> Result<u16, Clashed>
    requires made { Made (lent parent.old rank.old rows.old trail.old live) }
    requires a_lt_entries { (a < live.entries) × (b < live.entries) × (2 * length parent.old ≤ length pending.old) }
    ensures { let was = lent parent.old rank.old rows.old trail.old live in
        let links = live.links + made_links result in
        let is = laid parent.new rank.new rows.new trail.new live.entries links in
        Joining was a b result is }
{
    let before = live.links;
    let mut links = before;
    let mut waiting: usize = 1;
    push(pending, 0, a, b);
    while 0 < waiting {
        let Some(going) = take_turn(parent, rank, rows, trail, pending, links, waiting) else {
            return Err(Clashed {
                links: links - before,
            });
        };
        waiting = going.waiting;
        links = going.links;
    }
    Ok(links - before)
}
