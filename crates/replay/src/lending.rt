// A job that is lent buffers of any length. Before the call both hold a pattern that goes by the place, so that a number that is moved
// shows too, and no place holds 0.

use super::{ANSWERS, Ended, run, stream};
use std::io::Read;
use types::limits::LISTING;

// One more of each than any job needs.
const BYTES: usize = ANSWERS + 1;

const NUMBERS: usize = LISTING + 1;

// What a place holds before the call.
trait Pattern: Copy + PartialEq {
    fn at(place: usize) -> Self;
}

impl Pattern for u8 {
    fn at(place: usize) -> u8 {
        (place % 251) as u8 + 1
    }
}

impl Pattern for u16 {
    fn at(place: usize) -> u16 {
        (place % 32768) as u16 + 32768
    }
}

fn fill<T: Pattern>(lent: &mut [T]) {
    for (i, held) in lent.iter_mut().enumerate() {
        *held = T::at(i);
    }
}

// Whether all from a place on is as it was lent. It stays a call of its own: where the compiler put it into the loop over the items, a
// lending took a fifth more time.
#[inline(never)]
fn is_as_lent<T: Pattern>(lent: &[T], from: usize) -> bool {
    (from..lent.len()).all(|i| lent[i] == T::at(i))
}

// Puts a job with so many bytes and numbers of the two buffers, if they have them. The job's bytes go over the item's numbers.
pub(super) fn put(
    rt: &impl Print,
    input: &mut impl Read,
    job: &mut [u8],
    bytes: usize,
    numbers: usize,
) -> Result<(), Ended> {
    let mut answers = [0u8; BYTES];
    let mut listing = [0u16; NUMBERS];
    fill(&mut answers);
    fill(&mut listing);
    let answers_lent = answers.get_mut(..bytes).ok_or(Ended)?;
    let listing_lent = listing.get_mut(..numbers).ok_or(Ended)?;
    input.read_exact(job)?;
    let code = run(job, answers_lent, listing_lent);
    stream::write(rt, &code.to_le_bytes());
    // Where the job could be run, what the call wrote is at the front of both buffers.
    let (answered, listed): (&[u8], &[u16]) = if code == 0 {
        (stream::answers(job, &answers), stream::listing(&listing))
    } else {
        (&[], &[])
    };
    stream::write(rt, answered);
    stream::write_listing(rt, listed);
    let rest_as_lent = is_as_lent(&answers, answered.len()) && is_as_lent(&listing, listed.len());
    stream::write(rt, &[rest_as_lent.into()]);
    Ok(())
}
