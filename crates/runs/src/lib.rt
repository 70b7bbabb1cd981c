// Records put one after the other, from their bytes: a job's, or one that a host lends. The state is lent, then working memory, what is
// listed, the bytes and the answers.

#![tactic(auto)]

ghost use Rattle.std.specs.Prelude.{◌≡◌, List, ℕ, ◌+◌, ◌*◌, ◌≤◌, length, get_or};
ghost use Rattle.nodes.specs.Records.{record_at};
ghost use Rattle.types.specs.Limits.{most_nodes};
ghost use Rattle.types.specs.States.{Opened};
ghost use Rattle.types.specs.Lent.{held_by, SameTables};
ghost use Rattle.formats.specs.Shown.{settled};
ghost use Rattle.runs.specs.Putting.{Room, Put, Recorded, Puts};

use formats::{answers, listing};
use headers::EIGHT;
use nodes::{Asks, records};
use types::Answer;
use types::state::State;

// Puts the record at `from` to the state. What is listed is after a record of kind 65 its listing, or 0, 0, 4, 4 where it has none;
// no other record touches it.
fn put(
    state: &mut State<'_>,
    work: &mut [u16],
    listed: &mut [u16],
    bytes: &[u8],
    from: usize,
) -> Answer
    requires opened { Opened most_nodes (held_by state.old) }
    requires from_in_bounds { (from + 8 ≤ length bytes.now) × Room (held_by state.old) work.old listed.old }
    ensures same_tables { SameTables state.old state.new }
    ensures put { let was = held_by state.old in
        let is = held_by state.new in
        (o : Opened most_nodes was) → (between : List ℕ)
        × Put was o (record_at bytes.now from) listed.old result is between
        × (listed.new ≡ settled (get_or bytes.now from 0) result between) }
{
    match records::asked(bytes, from) {
        Asks::Offer => offers::offer(state, work, records::node_at(bytes, from)),
        Asks::TakeBack => state.take_back(records::first(bytes, from)),
        Asks::Close => {
            let answer = state.close(work, listed);
            listing::settle(listed, bytes[from], answer);
            answer
        }
        Asks::Malformed => {
            listing::settle(listed, bytes[from], Answer::Malformed);
            Answer::Malformed
        }
    }
}

// Puts the record at `from`, and writes its answer at `to`.
fn put_bytes(
    state: &mut State<'_>,
    work: &mut [u16],
    listed: &mut [u16],
    bytes: &[u8],
    from: usize,
    answers: &mut [u8],
    to: usize,
)
    requires opened { Opened most_nodes (held_by state.old) }
    requires room { Room (held_by state.old) work.old listed.old }
    requires from_in_bounds { (from + 8 ≤ length bytes.now) × (to + 8 ≤ length answers.old) }
    ensures same_tables { SameTables state.old state.new }
    ensures recorded { let was = held_by state.old in
        let is = held_by state.new in
        (o : Opened most_nodes was) →
        Recorded was o bytes.now from listed.old answers.old to is listed.new answers.new }
{
    let answer = put(state, work, listed, bytes, from);
    answers::write(answers, to, answer);
}

// Puts the `count` records from `from` on, and writes their answers from the start of `answers` on.
pub fn run(
    state: &mut State<'_>,
    work: &mut [u16],
    listed: &mut [u16],
    bytes: &[u8],
    from: usize,
    answers: &mut [u8],
    count: usize,
)
    requires opened { Opened most_nodes (held_by state.old) }
    requires room { Room (held_by state.old) work.old listed.old }
    requires count_in_bounds { (from + 8 * count ≤ length bytes.now) × (8 * count ≤ length answers.old) }
    ensures same_tables { SameTables state.old state.new }
    ensures puts { let was = held_by state.old in
        let is = held_by state.new in
        (o : Opened most_nodes was) → (o' : Opened most_nodes is) ×
        Puts bytes.now from was o listed.old answers.old count is o' listed.new answers.new }
{
    // A struct of the loop's own: the tables of the lent one would be looked up in memory at every use.
    let mut own = State {
        parent: &mut *state.parent,
        rank: &mut *state.rank,
        rows: &mut *state.rows,
        trail: &mut *state.trail,
        nodes: &mut *state.nodes,
        live: state.live,
    };
    for i in 0..count {
        put_bytes(
            &mut own,
            work,
            listed,
            bytes,
            from + EIGHT * i,
            answers,
            EIGHT * i,
        );
    }
    state.live = own.live;
}
