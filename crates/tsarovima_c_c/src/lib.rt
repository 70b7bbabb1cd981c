// The archive for hosts in C and Rust: each call of tsarovima_c under its name in C, with the very same clauses. `./archive` writes it,
// tsarovima.h declares it. Crates call and cite tsarovima_c, since none can stand on a static library.

#![tactic(auto)]

ghost use Rattle.tsarovima_c.specs.Lent.{RunBy, Tables, tables, OpenedBy};
ghost use Rattle.tsarovima_c.specs.Lent.{Lent, lent, OpenedIfLong, RecordedBy, closing_bytes, TextBy};

// Runs a job: 0, or a refusal 16 to 22 with both buffers as they were.
#[unsafe(no_mangle)]
pub extern "C" fn tsarovima_job(job: &[u8], answers: &mut [u8], listing: &mut [u16]) -> u32
    ensures { RunBy job.now answers.old listing.old result answers.new listing.new }
{
    tsarovima_c::tsarovima_job(job, answers, listing)
}

// Makes what the host lends a fresh state.
#[unsafe(no_mangle)]
pub extern "C" fn tsarovima_open(
    parent: &mut [u16],
    rank: &mut [u16],
    rows: &mut [u16],
    trail: &mut [u16],
    nodes: &mut [u16],
    live: &mut [u16],
) -> u32
    ensures { (
        let was : Tables = tables parent.old rank.old rows.old
        trail.old nodes.old live.old in
        let is : Tables = tables parent.new rank.new rows.new
        trail.new nodes.new live.new in
        OpenedBy was result is) }
{
    tsarovima_c::tsarovima_open(parent, rank, rows, trail, nodes, live)
}

// Puts the record in the first eight of `bytes` to the state, and writes its answer. A record of kind 65 writes its listing.
#[unsafe(no_mangle)]
pub extern "C" fn tsarovima_record(
    parent: &mut [u16],
    rank: &mut [u16],
    rows: &mut [u16],
    trail: &mut [u16],
    nodes: &mut [u16],
    live: &mut [u16],
    work: &mut [u16],
    bytes: &[u8],
    answer: &mut [u8],
    listing: &mut [u16],
) -> u32
    requires { (
        let is : Lent = lent (tables parent.old rank.old rows.old trail.old nodes.old live.old)
        work.old listing.old answer.old in
        OpenedIfLong is bytes.now) }
    ensures { (
        let was : Lent = lent (tables parent.old rank.old rows.old
        trail.old nodes.old live.old)
        work.old listing.old answer.old in
        let is : Lent = lent (tables parent.new rank.new rows.new
        trail.new nodes.new live.new)
        work.new listing.new answer.new in
        RecordedBy was bytes.now result is) }
{
    tsarovima_c::tsarovima_record(
        parent, rank, rows, trail, nodes, live, work, bytes, answer, listing,
    )
}

// Closes: the record of kind 65.
#[unsafe(no_mangle)]
pub extern "C" fn tsarovima_close(
    parent: &mut [u16],
    rank: &mut [u16],
    rows: &mut [u16],
    trail: &mut [u16],
    nodes: &mut [u16],
    live: &mut [u16],
    work: &mut [u16],
    answer: &mut [u8],
    listing: &mut [u16],
) -> u32
    requires { (
        let is : Lent = lent (tables parent.old rank.old rows.old trail.old nodes.old live.old)
        work.old listing.old answer.old in
        OpenedIfLong is closing_bytes) }
    ensures { (
        let was : Lent = lent (tables parent.old rank.old rows.old
        trail.old nodes.old live.old)
        work.old listing.old answer.old in
        let is : Lent = lent (tables parent.new rank.new rows.new
        trail.new nodes.new live.new)
        work.new listing.new answer.new in
        RecordedBy was closing_bytes result is) }
{
    tsarovima_c::tsarovima_close(
        parent, rank, rows, trail, nodes, live, work, answer, listing,
    )
}

// Writes the text of a rule, 1 to 7, to the front of the lent buffer if it has room for it, and returns how many bytes the text has:
// 0 where there is no such rule.
#[unsafe(no_mangle)]
pub extern "C" fn tsarovima_rule_text(rule: u16, lent: &mut [u8]) -> usize
    ensures { TextBy rule lent.old result lent.new }
{
    tsarovima_c::tsarovima_rule_text(rule, lent)
}
