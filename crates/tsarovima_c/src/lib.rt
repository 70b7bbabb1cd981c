// For hosts in C and Rust: the job call, the record calls over tables that the host lends, and the rules' texts. tsarovima_c_c hands
// them out under C's names, tsarovima.h declares them. A slice is a pointer and a length to the host.
//
// The record calls have one premise: the tables came from tsarovima_open and these calls, and nobody else wrote to them. Every
// length is looked at first: a wrong one is answered with 1, whatever the tables hold, and leaves all that was lent as it was.

#![tactic(auto)]

ghost use Rattle.tsarovima_c.specs.Lent.{RunBy, Denies, Tables, tables, TableLengths, OpenedBy};
ghost use Rattle.tsarovima_c.specs.Lent.{Lent, lent, RoomLengths, OpenedIfLong, RecordedBy, closing_bytes, TextBy};

use headers::EIGHT;
use nodes::records::CLOSE;
use texts::Unwritten;
use types::limits::{ENTRIES, LISTING, NODE_ROWS, ROWS, TRAIL, WORK};
use types::state::{self, Live, State};

// What the record calls return: numbers, as C takes them.
const DONE: u32 = 0;

const WRONG_LENGTH: u32 = 1;

// Numbers of `live`: entries, links, nodes kept.
const LIVE: usize = 3;

// The record that closes.
const CLOSING: [u8; 8] = [CLOSE, 0, 0, 0, 0, 0, 0, 0];

// Runs a job: 0, or a refusal 16 to 22 with both buffers as they were.
pub fn tsarovima_job(job: &[u8], answers: &mut [u8], listing: &mut [u16]) -> u32
    ensures { RunBy job.now answers.old listing.old result answers.new listing.new }
{
    headers::code(jobs::job(job, answers, listing))
}

// Whether a table is not as long as 1,024 nodes need.
fn wrong_tables(
    parent: usize,
    rank: usize,
    rows: usize,
    trail: usize,
    nodes: usize,
    live: usize,
) -> bool
    ensures { Denies result (TableLengths parent rank rows trail nodes live) }
{
    parent != ENTRIES
        || rank != ENTRIES
        || rows != ROWS
        || trail != TRAIL
        || nodes != NODE_ROWS
        || live != LIVE
}

// Whether what is lent beside the tables is too short for a record.
fn wrong_room(work: usize, listing: usize, bytes: usize, answer: usize) -> bool
    ensures { Denies result (RoomLengths work listing bytes answer) }
{
    work < WORK || listing < LISTING || bytes < EIGHT || answer < EIGHT
}

// Makes what the host lends a fresh state.
pub fn tsarovima_open(
    parent: &mut [u16],
    rank: &mut [u16],
    rows: &mut [u16],
    trail: &mut [u16],
    nodes: &mut [u16],
    live: &mut [u16],
) -> u32
    ensures { (
        let was : Tables = tables parent.old rank.old rows.old
        trail.old nodes.old live.old in
        let is : Tables = tables parent.new rank.new rows.new
        trail.new nodes.new live.new in
        OpenedBy was result is) }
{
    if wrong_tables(
        parent.len(),
        rank.len(),
        rows.len(),
        trail.len(),
        nodes.len(),
        live.len(),
    ) {
        return WRONG_LENGTH;
    }
    parent.fill(0);
    rank.fill(0);
    rows.fill(0);
    trail.fill(0);
    nodes.fill(0);
    let opened = state::open(parent, rows);
    live.copy_from_slice(&[opened.entries, opened.links, opened.kept]);
    DONE
}

// Puts the record in the first eight of `bytes` to the state, and writes its answer. A record of kind 65 writes its listing.
pub fn tsarovima_record(
    parent: &mut [u16],
    rank: &mut [u16],
    rows: &mut [u16],
    trail: &mut [u16],
    nodes: &mut [u16],
    live: &mut [u16],
    work: &mut [u16],
    bytes: &[u8],
    answer: &mut [u8],
    listing: &mut [u16],
) -> u32
    requires { (
        let is : Lent = lent (tables parent.old rank.old rows.old trail.old nodes.old live.old)
        work.old listing.old answer.old in
        OpenedIfLong is bytes.now) }
    ensures { (
        let was : Lent = lent (tables parent.old rank.old rows.old
        trail.old nodes.old live.old)
        work.old listing.old answer.old in
        let is : Lent = lent (tables parent.new rank.new rows.new
        trail.new nodes.new live.new)
        work.new listing.new answer.new in
        RecordedBy was bytes.now result is) }
{
    if wrong_tables(
        parent.len(),
        rank.len(),
        rows.len(),
        trail.len(),
        nodes.len(),
        live.len(),
    ) {
        return WRONG_LENGTH;
    }
    if wrong_room(work.len(), listing.len(), bytes.len(), answer.len()) {
        return WRONG_LENGTH;
    }
    let counts = Live {
        entries: live[0],
        links: live[1],
        kept: live[2],
    };
    let mut state = State {
        parent,
        rank,
        rows,
        trail,
        nodes,
        live: counts,
    };
    runs::run(&mut state, work, listing, bytes, 0, answer, 1);
    live.copy_from_slice(&[state.live.entries, state.live.links, state.live.kept]);
    DONE
}

// Closes: the record of kind 65.
pub fn tsarovima_close(
    parent: &mut [u16],
    rank: &mut [u16],
    rows: &mut [u16],
    trail: &mut [u16],
    nodes: &mut [u16],
    live: &mut [u16],
    work: &mut [u16],
    answer: &mut [u8],
    listing: &mut [u16],
) -> u32
    requires { (
        let is : Lent = lent (tables parent.old rank.old rows.old trail.old nodes.old live.old)
        work.old listing.old answer.old in
        OpenedIfLong is closing_bytes) }
    ensures { (
        let was : Lent = lent (tables parent.old rank.old rows.old
        trail.old nodes.old live.old)
        work.old listing.old answer.old in
        let is : Lent = lent (tables parent.new rank.new rows.new
        trail.new nodes.new live.new)
        work.new listing.new answer.new in
        RecordedBy was closing_bytes result is) }
{
    tsarovima_record(
        parent, rank, rows, trail, nodes, live, work, &CLOSING, answer, listing,
    )
}

// Writes the text of a rule, 1 to 7, to the front of the lent buffer if it has room for it, and returns how many bytes the text has:
// 0 where there is no such rule.
#[tactic(auto, using(crate::proofs::RuleTexts::text_by))]
pub fn tsarovima_rule_text(rule: u16, lent: &mut [u8]) -> usize
    ensures { TextBy rule lent.old result lent.new }
{
    match texts::write(rule, lent) {
        Ok(n) | Err(Unwritten::NoRoom(n)) => n,
        Err(Unwritten::NoRule) => 0,
    }
}
