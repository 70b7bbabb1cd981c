// An offer: the one call that adds entries and joins classes. It sees of the class table only what the contracts of `classes`
// promise, and of the combinators only that `combinators` enters each node's row of document 01's table.

#![tactic(auto)]

ghost use Rattle.std.specs.Prelude.{◌≡◌, true, false, ℕ, ◌+◌, ◌*◌, ◌≤◌, ◌<◌, length, get_or};
ghost use Rattle.classes.specs.Promises.{made_links};
ghost use Rattle.nodes.specs.Layout.{children, Proper};
ghost use Rattle.nodes.specs.Layout.{arrow as from_to};
ghost use Rattle.nodes.specs.Coded.{node_of, Regular};
ghost use Rattle.nodes.specs.Kept.{node_width, row_numbers, source_at, target_at};
ghost use Rattle.nodes.specs.Meant.{Countable, meant, meant_rule};
ghost use Rattle.nodes.specs.declared.Record.TheVariants.{Offer};
ghost use Rattle.combinators.specs.Entering.{Left};
ghost use Rattle.types.specs.Answers.{Below};
ghost use Rattle.types.specs.States.{Opened};
ghost use Rattle.types.specs.Lent.{classes_of, held_by, SameTables};
ghost use Rattle.types.specs.Applying.{row_written, Meetable};
ghost use Rattle.types.specs.Calls.{Called};
ghost use Rattle.offers.specs.RulesMet.{RulesMet};

use classes::context::Clashed;
use classes::{Mark, context, undo};
use nodes::Coded;
use nodes::arrow::{Adds, Arrow, Rule};
use nodes::kept::{ENTRIES_BEFORE, FIRST, KIND, LINKS_BEFORE, NODE, SECOND, SOURCE, TARGET};
use types::Answer;
use types::state::State;

// A node's rule that clashes, by its number.
#[derive(Clone, Copy, Debug, PartialEq, Eq)]
struct Clash {
    rule: u16,
}

// The first child, 0 where there is none. The second field is the second child, or 0.
fn first_child(n: Coded) -> u16
    requires { Regular n }
    ensures { result ≡ get_or (children (node_of n)) 0 0 }
{
    if n.kind.arity() == 0 { 0 } else { n.a }
}

// Every child is below the next number. A node with one child has 0 for its second, which is below if the first is. As one expression
// of `||` and `&&` it took an offer nine instructions more (of 134).
fn children_below(n: Coded, next: u16) -> bool
    requires { Regular n }
    ensures { (result ≡ true → Below next (node_of n)) × (result ≡ false → Below next (node_of n) → ⊥) }
{
    if n.kind.arity() == 0 {
        return true;
    }
    if next <= n.a {
        return false;
    }
    n.b < next
}

// The arrow of the node with this number, as its row has it.
fn arrow_at(state: &State<'_>, i: u16) -> Arrow
    requires { node_width * i + node_width ≤ length state.now.nodes.now }
    ensures { result ≡ from_to (source_at state.now.nodes.now i) (target_at state.now.nodes.now i) }
{
    let row = NODE * (i as usize);
    Arrow {
        source: state.nodes[row + SOURCE],
        target: state.nodes[row + TARGET],
    }
}

fn write_row(nodes: &mut [u16], i: u16, n: Coded, gives: Arrow, before: Mark)
    requires { (node_width * i + node_width ≤ length nodes.old) × Regular n }
    ensures { nodes.new ≡ row_written nodes.old i (row_numbers (node_of n) gives before.entries before.links) }
{
    let row = NODE * (i as usize);
    nodes[row + KIND] = u16::from(n.kind);
    nodes[row + FIRST] = n.a;
    nodes[row + SECOND] = n.b;
    nodes[row + SOURCE] = gives.source;
    nodes[row + TARGET] = gives.target;
    nodes[row + ENTRIES_BEFORE] = before.entries;
    nodes[row + LINKS_BEFORE] = before.links;
}

// The links that a join made, whatever its answer.
fn links_made(joined: Result<u16, Clashed>) -> u16
    ensures { result ≡ made_links joined }
{
    match joined {
        Ok(links) | Err(Clashed { links }) => links,
    }
}

// Joins the rules that a row's entries left, `count` of them from `first` on, in order, and leaves at once with the first that
// clashes. With `for i in 0..count` a comp took 13 instructions more (of 139).
fn meet(
    state: &mut State<'_>,
    pending: &mut [u16],
    row: Adds,
    count: u16,
    first: Rule,
) -> Result<(), Clash>
    requires meetable { Meetable (classes_of state.old) pending.old (meant row).needs }
    requires countable { Countable row × Left (classes_of state.old) (meant row).needs count (meant_rule first) }
    ensures same_tables { SameTables state.old state.new }
    ensures stays { (state.new.nodes.now ≡ state.old.nodes.now) × (state.new.live.entries ≡ state.old.live.entries) }
    ensures met { RulesMet (classes_of state.old) (meant row).needs result (classes_of state.new) }
{
    if count == 0 {
        return Ok(());
    }
    let mut i = 0;
    let mut r = first;
    loop {
        let now = Mark {
            entries: state.live.entries,
            links: state.live.links,
        };
        let joined = context::join(
            state.parent,
            state.rank,
            state.rows,
            state.trail,
            pending,
            now,
            r.one,
            r.other,
        );
        let made = links_made(joined);
        state.live.links += made;
        let Ok(_) = joined else {
            return Err(Clash { rule: r.number });
        };
        i += 1;
        if count <= i {
            return Ok(());
        }
        r = combinators::rule_at(row, i);
    }
}

// Offers a node: the checks in the order 3, 2, 4.
pub fn offer(state: &mut State<'_>, pending: &mut [u16], n: Coded) -> Answer
    requires by_index { (most : ℕ) × Opened most (held_by state.old) }
    requires regular { Regular n × Proper (node_of n) × (2 * length state.old.parent.now ≤ length pending.old) }
    ensures same_tables { SameTables state.old state.new }
    ensures called { let was = held_by state.old in
        let is = held_by state.new in
        (most : ℕ) (o : Opened most was) → Called most was o (Offer (node_of n)) result is }
{
    let live = state.live;
    let kept = live.kept;
    if state.nodes.len() <= NODE * (kept as usize) {
        return Answer::Full;
    }
    if !children_below(n, kept) {
        return Answer::NoChild;
    }
    let before = Mark {
        entries: live.entries,
        links: live.links,
    };
    let s = arrow_at(state, first_child(n));
    let t = arrow_at(state, n.b);
    let row = Adds {
        node: n,
        s,
        t,
        e: live.entries,
    };
    let entered = combinators::enter(state.parent, state.rows, live.links, row);
    state.live.entries = entered.entries;
    let gives = entered.gives;
    match meet(state, pending, row, entered.rules, entered.first) {
        Err(Clash { rule }) => {
            let now = Mark {
                entries: state.live.entries,
                links: state.live.links,
            };
            undo::undo(
                state.parent,
                state.rank,
                state.rows,
                state.trail,
                now,
                before,
            );
            state.live = live;
            Answer::Clashes(rule)
        }
        Ok(()) => {
            write_row(state.nodes, kept, n, gives, before);
            state.live.kept = kept + 1;
            Answer::Kept(kept, state.live.links - before.links)
        }
    }
}
