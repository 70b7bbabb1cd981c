// What a node is, on numbers alone: the 8 bytes of a record, its arrow and its rules. No table is touched here.
//
// records: what 8 bytes ask for. arrow: arrows and rules. kept: what stands where in a kept node's row.

#![tactic(auto)]

pub mod arrow;
pub mod kept;
pub mod records;

ghost use Rattle.std.specs.Prelude.{◌≡◌, ℕ, length};
ghost use Rattle.nodes.specs.Layout.{children};
ghost use Rattle.nodes.specs.Coded.{named, node_of, kind_number, KindRead, Regular};

// A combinator and its children's numbers, in the order of document 01's table; a word's n for Word.
#[derive(Clone, Copy, Debug, PartialEq, Eq)]
pub enum Node {
    Iden,
    Unit,
    InjL(u16),
    InjR(u16),
    Take(u16),
    Drop(u16),
    Comp(u16, u16),
    Case(u16, u16),
    AssertL(u16),
    AssertR(u16),
    Pair(u16, u16),
    Disconnect(u16, u16),
    DisconnectHole(u16),
    Witness,
    Fail,
    Word(u16),
}

// A combinator alone, in the same order: document 01's number of it is its number here.
#[derive(Clone, Copy, Debug, PartialEq, Eq)]
pub enum Kind {
    Iden = 1,
    Unit,
    InjL,
    InjR,
    Take,
    Drop,
    Comp,
    Case,
    AssertL,
    AssertR,
    Pair,
    Disconnect,
    DisconnectHole,
    Witness,
    Fail,
    Word,
}

impl From<Kind> for u16 {
    ghost from_gives = { λ kind number. (a b : ℕ) → number ≡ kind_number (named kind a b) };

    fn from(kind: Kind) -> u16 {
        kind as u16
    }
}

// A byte that is no combinator's number.
#[derive(Clone, Copy, Debug, PartialEq, Eq)]
pub struct UnknownKind(pub u8);

impl TryFrom<u8> for Kind {
    type Error = UnknownKind;

    ghost try_from_gives = { KindRead };

    fn try_from(number: u8) -> Result<Self, UnknownKind> {
        match number {
            1 => Ok(Kind::Iden),
            2 => Ok(Kind::Unit),
            3 => Ok(Kind::InjL),
            4 => Ok(Kind::InjR),
            5 => Ok(Kind::Take),
            6 => Ok(Kind::Drop),
            7 => Ok(Kind::Comp),
            8 => Ok(Kind::Case),
            9 => Ok(Kind::AssertL),
            10 => Ok(Kind::AssertR),
            11 => Ok(Kind::Pair),
            12 => Ok(Kind::Disconnect),
            13 => Ok(Kind::DisconnectHole),
            14 => Ok(Kind::Witness),
            15 => Ok(Kind::Fail),
            16 => Ok(Kind::Word),
            _ => Err(UnknownKind(number)),
        }
    }
}

impl Kind {
    // How many children a node of this kind has.
    pub fn arity(self) -> u16
        ensures { (a b : ℕ) → result ≡ length (children (named self a b)) }
    {
        match self {
            Kind::Iden | Kind::Unit | Kind::Witness | Kind::Fail | Kind::Word => 0,
            Kind::Comp | Kind::Case | Kind::Pair | Kind::Disconnect => 2,
            _ => 1,
        }
    }
}

// A node as numbers, which need not be taken apart: its kind and its two fields, 0 where the kind does not use one.
#[derive(Clone, Copy, Debug, PartialEq, Eq)]
pub struct Coded {
    pub kind: Kind,
    pub a: u16,
    pub b: u16,
}

impl From<Node> for Coded {
    ghost from_gives = { λ node coded. (node_of coded ≡ node) × Regular coded };

    fn from(node: Node) -> Coded {
        let (kind, a, b) = match node {
            Node::Iden => (Kind::Iden, 0, 0),
            Node::Unit => (Kind::Unit, 0, 0),
            Node::InjL(i) => (Kind::InjL, i, 0),
            Node::InjR(i) => (Kind::InjR, i, 0),
            Node::Take(i) => (Kind::Take, i, 0),
            Node::Drop(i) => (Kind::Drop, i, 0),
            Node::Comp(i, j) => (Kind::Comp, i, j),
            Node::Case(i, j) => (Kind::Case, i, j),
            Node::AssertL(i) => (Kind::AssertL, i, 0),
            Node::AssertR(i) => (Kind::AssertR, i, 0),
            Node::Pair(i, j) => (Kind::Pair, i, j),
            Node::Disconnect(i, j) => (Kind::Disconnect, i, j),
            Node::DisconnectHole(i) => (Kind::DisconnectHole, i, 0),
            Node::Witness => (Kind::Witness, 0, 0),
            Node::Fail => (Kind::Fail, 0, 0),
            Node::Word(n) => (Kind::Word, n, 0),
        };
        Coded { kind, a, b }
    }
}

// What 8 bytes ask for, as contracts say it.
#[derive(Clone, Copy, Debug, PartialEq, Eq)]
pub enum Record {
    Offer(Node),
    TakeBack(u16),
    Close,
    Malformed,
}

// What a record asks for, without its numbers.
#[derive(Clone, Copy, Debug, PartialEq, Eq)]
pub enum Asks {
    Offer,
    TakeBack,
    Close,
    Malformed,
}
