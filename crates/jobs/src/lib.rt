// The job call: any bytes in, every answer and every number of the listing out. It starts from a fresh state, puts the records
// one after the other to the core of `types` on tables of its own, and copies no table: its cost is that of its records.

#![tactic(auto)]

ghost use Rattle.std.specs.Prelude.{◌≡◌, length, Ok};
ghost use Rattle.headers.specs.Header.{judged};
ghost use Rattle.jobs.specs.Jobs.{Job};

use formats::listing;
use headers::{EIGHT, HEADER, Refusal};
use types::limits::{ENTRIES, LISTING, NODE_ROWS, ROWS, TRAIL, WORK};
use types::state::{self, State};

// Runs a job that can be run, on tables of its own. It is kept a call of its own, with no way out but its end: where it stood in `job`,
// after the tests, the compiler made room for the tables late, by way of a register that held the job's length (DECISIONS.md, "Jobs").
#[inline(never)]
fn run_on_fresh_tables(job: &[u8], answers: &mut [u8], listing: &mut [u16])
    requires { judged job.now (length answers.old) (length listing.old) ≡ Ok tt }
    ensures { Job job.now answers.old listing.old (Ok tt) answers.new listing.new }
{
    let mut parent = [0u16; ENTRIES];
    let mut rank = [0u16; ENTRIES];
    let mut rows = [0u16; ROWS];
    let mut trail = [0u16; TRAIL];
    let mut work = [0u16; WORK];
    let mut nodes = [0u16; NODE_ROWS];
    let mut listed = [0u16; LISTING];
    let live = state::open(&mut parent, &mut rows);
    listing::clear(&mut listed);
    let mut lent = State {
        parent: &mut parent,
        rank: &mut rank,
        rows: &mut rows,
        trail: &mut trail,
        nodes: &mut nodes,
        live,
    };
    runs::run(
        &mut lent,
        &mut work,
        &mut listed,
        job,
        HEADER,
        answers,
        (job.len() - HEADER) / EIGHT,
    );
    listing::show(&listed, listing);
}

// Runs a job, or refuses it and leaves both buffers as they are.
pub fn job(job: &[u8], answers: &mut [u8], listing: &mut [u16]) -> Result<(), Refusal>
    ensures { Job job.now answers.old listing.old result answers.new listing.new }
{
    headers::judge(job, answers.len(), listing.len())?;
    run_on_fresh_tables(job, answers, listing);
    Ok(())
}
