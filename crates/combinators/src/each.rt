// One function for each combinator, in document 01's order, after the Rust's arrow.rs: its row of the table. Its entries go into the
// class table, and it gives its arrow, how many rules are left to join and the first of them. `e` is the number of the next entry;
// `s` and `t` are the arrows of the first and the second child. Where a node has several rules, they stand in a function beside it.

ghost use Rattle.std.specs.Prelude.{◌≡◌, [], ◌∷◌, ◌+◌, ◌^◌, ◌≤◌, ◌<◌, get_or};
ghost use Rattle.classes.specs.Table.{root_in};
ghost use Rattle.classes.specs.Turning.{Rooted};
ghost use Rattle.nodes.specs.Layout.{arrow, says, case_entries};
ghost use Rattle.nodes.specs.Meant.{meant_rule};
ghost use Rattle.nodes.specs.declared.Node.TheVariants.{Iden, Unit, InjL, InjR, Take, Drop, Comp, Case, AssertL, AssertR, Pair, Disconnect, DisconnectHole, Witness, Word};
ghost use Rattle.combinators.specs.Entering.{part, Room, Grown, Ready, Enters, without_rules, leaf, unary, binary};

use super::Placed;
use super::entries::{add, add_case};
use classes::{Bound, union_bound};
use nodes::arrow::{Arrow, Rule};

// The standing entries: 1, and 2^256.
const ONE: u16 = 0;

const POWER_256: u16 = 9;

// The rules by their numbers in document 01, which answers and contracts have too. D = target s joins a fresh entry and has none.
const NO_RULE: u16 = 0;

const D_IS_TARGET: u16 = 0;

const COMP_MIDDLE: u16 = 1;

const PAIR_SOURCES: u16 = 2;

pub(super) const CASE_LEFT_SOURCE: u16 = 3;

pub(super) const CASE_RIGHT_SOURCE: u16 = 4;

const CASE_TARGETS: u16 = 5;

const DISCONNECT_SOURCE: u16 = 6;

const DISCONNECT_TARGET: u16 = 7;

fn says(number: u16, one: u16, other: u16) -> Rule
    ensures { meant_rule result ≡ says number one other }
{
    Rule { number, one, other }
}

// How many rules a rule leaves to be joined: none, if its two entries are in one class already.
fn unmet(parent: &[u16], rule: Rule) -> u16
    requires { Rooted parent.now rule.one × Rooted parent.now rule.other }
    ensures { let one = root_in parent.now rule.one in
        let other = root_in parent.now rule.other in
        (one ≡ other → result ≡ 0) × ((one ≡ other → ⊥) → result ≡ 1) }
{
    u16::from(union_bound::root(parent, rule.one) != union_bound::root(parent, rule.other))
}

// A row without rules. What stands for the first rule is never joined; it is no row of zeros, which the compiler would write as one
// number of eight bytes and every other row would have to be packed to match.
fn enter_without_rules<const N: usize>(
    parent: &mut [u16],
    rows: &mut [u16],
    links: u16,
    e: u16,
    bounds: [Bound; N],
    gives: Arrow,
) -> Placed
    requires { Room (part parent.old rows.old e links) bounds }
    ensures { let was = part parent.old rows.old e links in
        let is = part parent.new rows.new result.entries links in
        Enters was (without_rules bounds.entry gives) result is }
{
    let entries = add(parent, rows, links, e, bounds);
    Placed {
        entries,
        gives,
        rules: 0,
        first: says(NO_RULE, gives.source, gives.target),
    }
}

// A case or a half of one: what both begin with, and then the products that its children's sources are. All its rules are left.
fn enter_case<const N: usize>(
    parent: &mut [u16],
    rows: &mut [u16],
    links: u16,
    e: u16,
    products: [Bound; N],
    rules: u16,
    first: Rule,
) -> Placed
    requires entries_bound { e + 8 < 2 ^ 16 }
    requires room { Room (part parent.old rows.old e links) (case_entries e products) }
    ensures entries { let was = part parent.old rows.old e links in
        let is = part parent.new rows.new result.entries links in
        Grown was (case_entries e products.entry) is }
    ensures row { (result.gives ≡ arrow (e + 5) (e + 3)) × (result.rules ≡ rules) × (result.first ≡ first) }
{
    let six = add_case(parent, rows, links, e);
    let entries = add(parent, rows, links, six, products);
    Placed {
        entries,
        gives: Arrow {
            source: e + 5,
            target: e + 3,
        },
        rules,
        first,
    }
}

// A → A.
pub(super) fn iden(parent: &mut [u16], rows: &mut [u16], links: u16, e: u16) -> Placed
    requires { Ready (part parent.old rows.old e links) e (leaf Iden e) }
    ensures { let was = part parent.old rows.old e links in
        let is = part parent.new rows.new result.entries links in
        Enters was (leaf Iden e) result is }
{
    let gives = Arrow {
        source: e,
        target: e,
    };
    enter_without_rules(parent, rows, links, e, [Bound::Free], gives)
}

// A → 1.
pub(super) fn unit(parent: &mut [u16], rows: &mut [u16], links: u16, e: u16) -> Placed
    requires { Ready (part parent.old rows.old e links) e (leaf Unit e) }
    ensures { let was = part parent.old rows.old e links in
        let is = part parent.new rows.new result.entries links in
        Enters was (leaf Unit e) result is }
{
    let gives = Arrow {
        source: e,
        target: ONE,
    };
    enter_without_rules(parent, rows, links, e, [Bound::Free], gives)
}

// A → B + C, where s : A → B.
pub(super) fn injl(parent: &mut [u16], rows: &mut [u16], links: u16, s: Arrow, e: u16) -> Placed
    requires { Ready (part parent.old rows.old e links) e (unary InjL s e) }
    ensures { let was = part parent.old rows.old e links in
        let is = part parent.new rows.new result.entries links in
        Enters was (unary InjL s e) result is }
{
    let b = Bound::Sum(s.target, e);
    let gives = Arrow {
        source: s.source,
        target: e + 1,
    };
    enter_without_rules(parent, rows, links, e, [Bound::Free, b], gives)
}

// A → B + C, where s : A → C.
pub(super) fn injr(parent: &mut [u16], rows: &mut [u16], links: u16, s: Arrow, e: u16) -> Placed
    requires { Ready (part parent.old rows.old e links) e (unary InjR s e) }
    ensures { let was = part parent.old rows.old e links in
        let is = part parent.new rows.new result.entries links in
        Enters was (unary InjR s e) result is }
{
    let b = Bound::Sum(e, s.target);
    let gives = Arrow {
        source: s.source,
        target: e + 1,
    };
    enter_without_rules(parent, rows, links, e, [Bound::Free, b], gives)
}

// A × B → C, where s : A → C.
pub(super) fn take(parent: &mut [u16], rows: &mut [u16], links: u16, s: Arrow, e: u16) -> Placed
    requires { Ready (part parent.old rows.old e links) e (unary Take s e) }
    ensures { let was = part parent.old rows.old e links in
        let is = part parent.new rows.new result.entries links in
        Enters was (unary Take s e) result is }
{
    let b = Bound::Product(s.source, e);
    let gives = Arrow {
        source: e + 1,
        target: s.target,
    };
    enter_without_rules(parent, rows, links, e, [Bound::Free, b], gives)
}

// A × B → C, where s : B → C.
pub(super) fn drop(parent: &mut [u16], rows: &mut [u16], links: u16, s: Arrow, e: u16) -> Placed
    requires { Ready (part parent.old rows.old e links) e (unary Drop s e) }
    ensures { let was = part parent.old rows.old e links in
        let is = part parent.new rows.new result.entries links in
        Enters was (unary Drop s e) result is }
{
    let b = Bound::Product(e, s.source);
    let gives = Arrow {
        source: e + 1,
        target: s.target,
    };
    enter_without_rules(parent, rows, links, e, [Bound::Free, b], gives)
}

// A → C, where s : A → B and t : B → C. It adds no entry.
pub(super) fn comp(parent: &[u16], rows: &[u16], links: u16, s: Arrow, t: Arrow, e: u16) -> Placed
    requires { Ready (part parent.now rows.now e links) e (binary Comp s t e) }
    ensures { let was = part parent.now rows.now e links in
        let is = part parent.now rows.now result.entries links in
        Enters was (binary Comp s t e) result is }
{
    let gives = Arrow {
        source: s.source,
        target: t.target,
    };
    let first = Rule {
        number: COMP_MIDDLE,
        one: s.target,
        other: t.source,
    };
    let rules = unmet(parent, first);
    Placed {
        entries: e,
        gives,
        rules,
        first,
    }
}

// (A + B) × C → D, where s : A × C → D and t : B × C → D.
pub(super) fn case(
    parent: &mut [u16],
    rows: &mut [u16],
    links: u16,
    s: Arrow,
    t: Arrow,
    e: u16,
) -> Placed
    requires { Ready (part parent.old rows.old e links) e (binary Case s t e) }
    ensures { let was = part parent.old rows.old e links in
        let is = part parent.new rows.new result.entries links in
        Enters was (binary Case s t e) result is }
{
    let first = case_rule(s, t, e, 0);
    let left = Bound::Product(e, e + 2);
    let right = Bound::Product(e + 1, e + 2);
    enter_case(parent, rows, links, e, [left, right], 4, first)
}

// Its rules: source s = A × C, D = target s, source t = B × C, D = target t.
pub(super) fn case_rule(s: Arrow, t: Arrow, e: u16, i: u16) -> Rule
    requires { (e + 8 < 2 ^ 16) × (i < 4) }
    ensures { meant_rule result ≡ get_or (binary Case s t e).needs i (says 0 0 0) }
{
    match i {
        0 => says(CASE_LEFT_SOURCE, s.source, e + 6),
        1 => says(D_IS_TARGET, e + 3, s.target),
        2 => says(CASE_RIGHT_SOURCE, t.source, e + 7),
        _ => says(CASE_TARGETS, e + 3, t.target),
    }
}

// A case whose second child is hidden.
pub(super) fn assertl(parent: &mut [u16], rows: &mut [u16], links: u16, s: Arrow, e: u16) -> Placed
    requires { Ready (part parent.old rows.old e links) e (unary AssertL s e) }
    ensures { let was = part parent.old rows.old e links in
        let is = part parent.new rows.new result.entries links in
        Enters was (unary AssertL s e) result is }
{
    let first = half_rule(CASE_LEFT_SOURCE, s, e, 0);
    enter_case(parent, rows, links, e, [Bound::Product(e, e + 2)], 2, first)
}

// A case whose first child is hidden.
pub(super) fn assertr(parent: &mut [u16], rows: &mut [u16], links: u16, s: Arrow, e: u16) -> Placed
    requires { Ready (part parent.old rows.old e links) e (unary AssertR s e) }
    ensures { let was = part parent.old rows.old e links in
        let is = part parent.new rows.new result.entries links in
        Enters was (unary AssertR s e) result is }
{
    let first = half_rule(CASE_RIGHT_SOURCE, s, e, 0);
    enter_case(
        parent,
        rows,
        links,
        e,
        [Bound::Product(e + 1, e + 2)],
        2,
        first,
    )
}

// The rules of either half: source s = A × C or B × C, whose rule has this number, and D = target s.
pub(super) fn half_rule(number: u16, s: Arrow, e: u16, i: u16) -> Rule
    requires { (e + 8 < 2 ^ 16) × (i < 2) }
    ensures { meant_rule result ≡ get_or (says number s.source (e + 6) ∷ says 0 (e + 3) s.target ∷ []) i (says 0 0 0) }
{
    if i == 0 {
        says(number, s.source, e + 6)
    } else {
        says(D_IS_TARGET, e + 3, s.target)
    }
}

// A → B × C, where s : A → B and t : A → C.
pub(super) fn pair(
    parent: &mut [u16],
    rows: &mut [u16],
    links: u16,
    s: Arrow,
    t: Arrow,
    e: u16,
) -> Placed
    requires { Ready (part parent.old rows.old e links) e (binary Pair s t e) }
    ensures { let was = part parent.old rows.old e links in
        let is = part parent.new rows.new result.entries links in
        Enters was (binary Pair s t e) result is }
{
    let gives = Arrow {
        source: s.source,
        target: e,
    };
    let first = Rule {
        number: PAIR_SOURCES,
        one: s.source,
        other: t.source,
    };
    let b = Bound::Product(s.target, t.target);
    let entries = add(parent, rows, links, e, [b]);
    let rules = unmet(parent, first);
    Placed {
        entries,
        gives,
        rules,
        first,
    }
}

// A → B × D, where s : 2^256 × A → B × C and t : C → D.
pub(super) fn disconnect(
    parent: &mut [u16],
    rows: &mut [u16],
    links: u16,
    s: Arrow,
    t: Arrow,
    e: u16,
) -> Placed
    requires { Ready (part parent.old rows.old e links) e (binary Disconnect s t e) }
    ensures { let was = part parent.old rows.old e links in
        let is = part parent.new rows.new result.entries links in
        Enters was (binary Disconnect s t e) result is }
{
    let gives = Arrow {
        source: e,
        target: e + 4,
    };
    let first = disconnect_rule(s, e + 2, e + 3, 0);
    let a = Bound::Product(POWER_256, e);
    let b = Bound::Product(e + 1, t.source);
    let c = Bound::Product(e + 1, t.target);
    let bounds = [Bound::Free, Bound::Free, a, b, c];
    let entries = add(parent, rows, links, e, bounds);
    Placed {
        entries,
        gives,
        rules: 2,
        first,
    }
}

// Its rules, and those of one whose second child is a hole: source s = 2^256 × A and target s = B × C, which are the entries `first` and
// `second`.
pub(super) fn disconnect_rule(s: Arrow, first: u16, second: u16, i: u16) -> Rule
    requires { i < 2 }
    ensures { meant_rule result ≡ get_or (says 6 s.source first ∷ says 7 s.target second ∷ []) i (says 0 0 0) }
{
    if i == 0 {
        says(DISCONNECT_SOURCE, s.source, first)
    } else {
        says(DISCONNECT_TARGET, s.target, second)
    }
}

// The same with a hole for t: C and D are free.
pub(super) fn disconnect_hole(
    parent: &mut [u16],
    rows: &mut [u16],
    links: u16,
    s: Arrow,
    e: u16,
) -> Placed
    requires { Ready (part parent.old rows.old e links) e (unary DisconnectHole s e) }
    ensures { let was = part parent.old rows.old e links in
        let is = part parent.new rows.new result.entries links in
        Enters was (unary DisconnectHole s e) result is }
{
    let gives = Arrow {
        source: e,
        target: e + 6,
    };
    let first = disconnect_rule(s, e + 4, e + 5, 0);
    let a = Bound::Product(POWER_256, e);
    let b = Bound::Product(e + 1, e + 2);
    let c = Bound::Product(e + 1, e + 3);
    let free = Bound::Free;
    let entries = add(parent, rows, links, e, [free, free, free, free, a, b, c]);
    Placed {
        entries,
        gives,
        rules: 2,
        first,
    }
}

// A → B. A fail is the same.
pub(super) fn witness(parent: &mut [u16], rows: &mut [u16], links: u16, e: u16) -> Placed
    requires { Ready (part parent.old rows.old e links) e (leaf Witness e) }
    ensures { let was = part parent.old rows.old e links in
        let is = part parent.new rows.new result.entries links in
        Enters was (leaf Witness e) result is }
{
    let gives = Arrow {
        source: e,
        target: e + 1,
    };
    enter_without_rules(parent, rows, links, e, [Bound::Free, Bound::Free], gives)
}

// 1 → 2^(2^n). It adds no entry.
pub(super) fn word(parent: &[u16], rows: &[u16], links: u16, n: u16, e: u16) -> Placed
    requires { n ≤ 31 }
    ensures { let was = part parent.now rows.now e links in
        let is = part parent.now rows.now result.entries links in
        Enters was (leaf (Word n) e) result is }
{
    let target = n + 1;
    let gives = Arrow {
        source: ONE,
        target,
    };
    let first = says(NO_RULE, target, target);
    Placed {
        entries: e,
        gives,
        rules: 0,
        first,
    }
}
