// The record calls on a state by value (`calls`), from opening on: nodes that are kept, a clash, closings, take-backs. A line is
// printed for each answer, and a closing's listing under it; `stdout` has what document 01 answers.

#![tactic(auto)]

mod say;

ghost use Rattle.types.specs.States.{Opened};
ghost use Rattle.calls.specs.Values.{state_of};

use calls::Owned;
use nodes::Node;
use say::Said;

// The words are the node's. A Display for its sixteen kinds would be longer than the six lines that they are in.
fn offer(rt: &impl Print, s: Owned, words: &str, n: Node) -> Owned
    requires { Opened 1024 (state_of s) }
    ensures { Opened 1024 (state_of result) }
{
    let put = calls::offer(s, n);
    let answer = Said(put.answer);
    let _ = println!(rt; "{words}: {answer}");
    put.state
}

fn take_back(rt: &impl Print, s: Owned, to: u16) -> Owned
    requires { Opened 1024 (state_of s) }
    ensures { Opened 1024 (state_of result) }
{
    let put = calls::take_back(s, to);
    let answer = Said(put.answer);
    let _ = println!(rt; "back {to}: {answer}");
    put.state
}

fn close(rt: &impl Print, s: Owned) -> Owned
    requires { Opened 1024 (state_of s) }
    ensures { Opened 1024 (state_of result) }
{
    let closed = calls::close(s);
    let answer = Said(closed.answer);
    // Taken out before it is lent: lent where it stands, it had the compiler make room for one state more.
    let listing = closed.listing;
    let _ = println!(rt; "close: {answer}");
    say::listing(rt, &listing);
    closed.state
}

fn main(rt: HostRuntime) {
    let mut s = calls::open();

    // The third node clashes, as 1 is no product, and the nodes before it are what they were.
    s = offer(&rt, s, "unit", Node::Unit);
    s = offer(&rt, s, "take 0", Node::Take(0));
    s = offer(&rt, s, "comp 0 1", Node::Comp(0, 1));
    s = close(&rt, s);

    // Of these nodes the unit stays, for another program: the one whose whole listing document 01 gives.
    s = take_back(&rt, s, 1);
    s = offer(&rt, s, "case 0 0", Node::Case(0, 0));
    s = close(&rt, s);

    // A type that contains itself has no end; without that node the listing is the last one again.
    s = offer(&rt, s, "iden", Node::Iden);
    s = offer(&rt, s, "disconnect 2 2", Node::Disconnect(2, 2));
    s = close(&rt, s);
    s = take_back(&rt, s, 2);
    close(&rt, s);
}
