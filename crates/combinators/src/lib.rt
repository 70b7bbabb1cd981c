// What a node adds to the class table: one row of document 01's table for each combinator, after the Rust's arrow.rs.
//
// entries: entries added, some at a time. each: one function for each combinator.

#![tactic(auto)]

mod each;
mod entries;

ghost use Rattle.std.specs.Prelude.{◌≡◌, ◌<◌, length, get_or};
ghost use Rattle.nodes.specs.Layout.{says, Proper, children};
ghost use Rattle.nodes.specs.Coded.{node_of, named};
ghost use Rattle.nodes.specs.Meant.{Countable, meant, meant_rule};
ghost use Rattle.combinators.specs.Entering.{part, Ready, Enters, leaf, unary, binary};

use nodes::Kind;
use nodes::arrow::{Adds, Arrow, Rule};

// What a node's entries leave: how many entries there are then, the node's arrow, how many rules are still to be joined, and the
// first of them. Where none is left, the first is any rule: with an Option of both a comp took 33 instructions more (of 139).
#[derive(Clone, Copy, Debug, PartialEq, Eq)]
pub struct Placed {
    pub entries: u16,
    pub gives: Arrow,
    pub rules: u16,
    pub first: Rule,
}

// Adds a node's entries. Its rules are joined by the caller, but for one that holds already.
pub fn enter(parent: &mut [u16], rows: &mut [u16], links: u16, row: Adds) -> Placed
    requires { Ready (part parent.old rows.old row.e links) row.e (meant row) × Proper (node_of row.node) }
    ensures { let was = part parent.old rows.old row.e links in
        let is = part parent.new rows.new result.entries links in
        Enters was (meant row) result is }
{
    let node = row.node;
    let kind = node.kind;
    let s = row.s;
    let t = row.t;
    let e = row.e;
    match kind {
        Kind::Iden | Kind::Unit | Kind::Witness | Kind::Fail | Kind::Word => {
            enter_leaf(parent, rows, links, kind, node.a, e)
        }
        Kind::Comp | Kind::Case | Kind::Pair | Kind::Disconnect => {
            enter_binary(parent, rows, links, kind, s, t, e)
        }
        _ => enter_unary(parent, rows, links, kind, s, e),
    }
}

// A node with no child.
fn enter_leaf(
    parent: &mut [u16],
    rows: &mut [u16],
    links: u16,
    kind: Kind,
    n: u16,
    e: u16,
) -> Placed
    requires ready { Ready (part parent.old rows.old e links) e (leaf (named kind n 0) e) × Proper (named kind n 0) }
    requires n_len { length (children (named kind n 0)) ≡ 0 }
    ensures { let was = part parent.old rows.old e links in
        let is = part parent.new rows.new result.entries links in
        Enters was (leaf (named kind n 0) e) result is }
{
    match kind {
        Kind::Iden => each::iden(parent, rows, links, e),
        Kind::Unit => each::unit(parent, rows, links, e),
        Kind::Word => each::word(parent, rows, links, n, e),
        _ => each::witness(parent, rows, links, e),
    }
}

// A node with one child.
fn enter_unary(
    parent: &mut [u16],
    rows: &mut [u16],
    links: u16,
    kind: Kind,
    s: Arrow,
    e: u16,
) -> Placed
    requires ready { Ready (part parent.old rows.old e links) e (unary (λ i. named kind i 0) s e) }
    requires kind_len { length (children (named kind 0 0)) ≡ 1 }
    ensures { let was = part parent.old rows.old e links in
        let is = part parent.new rows.new result.entries links in
        Enters was (unary (λ i. named kind i 0) s e) result is }
{
    match kind {
        Kind::InjL => each::injl(parent, rows, links, s, e),
        Kind::InjR => each::injr(parent, rows, links, s, e),
        Kind::Take => each::take(parent, rows, links, s, e),
        Kind::Drop => each::drop(parent, rows, links, s, e),
        Kind::AssertL => each::assertl(parent, rows, links, s, e),
        Kind::AssertR => each::assertr(parent, rows, links, s, e),
        _ => each::disconnect_hole(parent, rows, links, s, e),
    }
}

// A node with two children.
fn enter_binary(
    parent: &mut [u16],
    rows: &mut [u16],
    links: u16,
    kind: Kind,
    s: Arrow,
    t: Arrow,
    e: u16,
) -> Placed
    requires ready { Ready (part parent.old rows.old e links) e (binary (named kind) s t e) }
    requires kind_len { length (children (named kind 0 0)) ≡ 2 }
    ensures { let was = part parent.old rows.old e links in
        let is = part parent.new rows.new result.entries links in
        Enters was (binary (named kind) s t e) result is }
{
    match kind {
        Kind::Comp => each::comp(parent, rows, links, s, t, e),
        Kind::Case => each::case(parent, rows, links, s, t, e),
        Kind::Pair => each::pair(parent, rows, links, s, t, e),
        _ => each::disconnect(parent, rows, links, s, t, e),
    }
}

// A node's i-th rule after its first.
pub fn rule_at(row: Adds, i: u16) -> Rule
    requires { Countable row × (0 < i) × (i < length (meant row).needs) }
    ensures { meant_rule result ≡ get_or (meant row).needs i (says 0 0 0) }
{
    let node = row.node;
    let kind = node.kind;
    let s = row.s;
    let t = row.t;
    let e = row.e;
    match kind {
        Kind::Case => each::case_rule(s, t, e, i),
        Kind::AssertL => each::half_rule(each::CASE_LEFT_SOURCE, s, e, i),
        Kind::AssertR => each::half_rule(each::CASE_RIGHT_SOURCE, s, e, i),
        Kind::Disconnect => each::disconnect_rule(s, e + 2, e + 3, i),
        _ => each::disconnect_rule(s, e + 4, e + 5, i),
    }
}
