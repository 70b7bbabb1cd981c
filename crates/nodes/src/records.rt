// Eight bytes to a record: kind (1 byte), zero (1), a (2), b (2), zero (2), little-endian. Every byte pattern is some record,
// and one with a field that its kind does not use is malformed unless that field is zero. What a record asks for is told apart
// from its numbers, so that a node's numbers are read from the bytes and never taken apart again.

ghost use Rattle.std.specs.Prelude.{◌≡◌, ◌+◌, ◌≤◌, length};
ghost use Rattle.nodes.specs.Records.{spare, no_child, word as word-record, by_kind, two_bytes, record_at};
ghost use Rattle.nodes.specs.Coded.{asks, node_of, Regular};
ghost use Rattle.nodes.specs.declared.Node.{Node};
ghost use Rattle.nodes.specs.declared.Record.{Record};
ghost use Rattle.nodes.specs.declared.Record.TheVariants.{Offer};
ghost use Rattle.nodes.specs.declared.Asks.TheVariants.{Offer as offers};

use super::{Asks, Coded, Kind};

// The largest n of a word: 2^(2^31).
pub const LARGEST_WORD: u16 = 31;

// The kinds of the two records that are no nodes.
pub const TAKE_BACK: u8 = 64;

pub const CLOSE: u8 = 65;

// A field that must be zero.
fn unless(field: u16, asked: Asks) -> Asks
    ensures { (x : Record) → asked ≡ asks x → result ≡ asks (spare field x) }
{
    if field == 0 { asked } else { Asks::Malformed }
}

// A node of a kind that uses neither field, or the first.
fn plain(a: u16, b: u16) -> Asks
    ensures { (n : Node) → result ≡ asks (no_child n a b) }
{
    unless(a, unless(b, Asks::Offer))
}

fn one(b: u16) -> Asks
    ensures { (n : Node) → result ≡ asks (spare b (Offer n)) }
{
    unless(b, Asks::Offer)
}

fn word(n: u16, b: u16) -> Asks
    ensures { result ≡ asks (word-record n b) }
{
    if LARGEST_WORD < n {
        return Asks::Malformed;
    }
    unless(b, Asks::Offer)
}

#[tactic(auto, unfolding(crate::specs::Records::nodes))]
fn node(kind: u8, a: u16, b: u16) -> Asks
    requires { kind ≤ 16 }
    ensures { result ≡ asks (by_kind kind a b) }
{
    match kind {
        1 => plain(a, b),
        2 => plain(a, b),
        3 => one(b),
        4 => one(b),
        5 => one(b),
        6 => one(b),
        7 => Asks::Offer,
        8 => Asks::Offer,
        9 => one(b),
        10 => one(b),
        11 => Asks::Offer,
        12 => Asks::Offer,
        13 => one(b),
        14 => plain(a, b),
        15 => plain(a, b),
        16 => word(a, b),
        _ => Asks::Malformed,
    }
}

// Take-back, closing and the unknown.
#[tactic(auto, unfolding(crate::specs::Records::nodes))]
fn request(kind: u8, a: u16, b: u16) -> Asks
    requires { 17 ≤ kind }
    ensures { result ≡ asks (by_kind kind a b) }
{
    match kind {
        TAKE_BACK => unless(b, Asks::TakeBack),
        CLOSE => unless(a, unless(b, Asks::Close)),
        _ => Asks::Malformed,
    }
}

// Nodes and requests. 0 is unknown too: `node` has it in its last arm, so that one test leads to all nodes.
fn by_kind(kind: u8, a: u16, b: u16) -> Asks
    ensures { result ≡ asks (by_kind kind a b) }
{
    match kind {
        0..=16 => node(kind, a, b),
        17..=255 => request(kind, a, b),
    }
}

// A record's first field: how many nodes a take-back leaves.
pub fn first(bytes: &[u8], at: usize) -> u16
    requires { at + 8 ≤ length bytes.now }
    ensures { result ≡ two_bytes bytes.now (at + 2) }
{
    u16::from_le_bytes([bytes[at + 2], bytes[at + 3]])
}

fn second(bytes: &[u8], at: usize) -> u16
    requires { at + 8 ≤ length bytes.now }
    ensures { result ≡ two_bytes bytes.now (at + 4) }
{
    u16::from_le_bytes([bytes[at + 4], bytes[at + 5]])
}

// What the eight bytes from `at` on ask for.
pub fn asked(bytes: &[u8], at: usize) -> Asks
    requires { at + 8 ≤ length bytes.now }
    ensures { result ≡ asks (record_at bytes.now at) }
{
    if bytes[at + 1] != 0 || u16::from_le_bytes([bytes[at + 6], bytes[at + 7]]) != 0 {
        return Asks::Malformed;
    }
    by_kind(bytes[at], first(bytes, at), second(bytes, at))
}

// The node of a record that offers one. Such a record's number is some kind's; were it none, the last kind would do. (`unwrap` says so
// shorter, but then the compiler reads the children's arrows for a word too: 22 instructions of 131.)
pub fn node_at(bytes: &[u8], at: usize) -> Coded
    requires { (at + 8 ≤ length bytes.now) × (asks (record_at bytes.now at) ≡ offers) }
    ensures { (record_at bytes.now at ≡ Offer (node_of result)) × Regular result }
{
    let kind = Kind::try_from(bytes[at]).unwrap_or(Kind::Word);
    let a = first(bytes, at);
    let b = second(bytes, at);
    Coded { kind, a, b }
}
