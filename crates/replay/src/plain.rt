// A job whose answers are written with the joins left out.

use super::{ANSWERS, Ended, run, stream};
use headers::{EIGHT, HEADER};
use std::io::Read;
use types::limits::LISTING;

// Writes 0 over the joins where a node was kept.
fn leave_out_joins(job: &[u8], answers: &mut [u8]) {
    let (answers, _) = answers.as_chunks_mut::<EIGHT>();
    for (record, answer) in stream::records(job).iter().zip(answers) {
        if matches!(record[0], 1..=16) && answer[0] == 0 {
            answer[4..].fill(0);
        }
    }
}

// Puts a job whose header has been read, if it can be run.
pub(super) fn put(rt: &impl Print, input: &mut impl Read, job: &mut [u8]) -> Result<(), Ended> {
    input.read_exact(job.get_mut(HEADER..).ok_or(Ended)?)?;
    let mut answers = [0u8; ANSWERS];
    let mut listing = [0u16; LISTING];
    if run(job, &mut answers, &mut listing) != 0 {
        return Err(Ended);
    }
    leave_out_joins(job, &mut answers);
    stream::write(rt, stream::answers(job, &answers));
    stream::write_listing(rt, stream::listing(&listing));
    Ok(())
}
