// What is read from standard input, and what is written to standard output of answers and listings.

ghost use Rattle.std.specs.Prelude.{◌-◌, ◌*◌, ◌≤◌, length};

use super::Ended;
use headers::{EIGHT, HEADER};
use std::io::Read;
use types::limits::LISTING;

// The longest listing, in bytes.
const LISTED: usize = 2 * LISTING;

// Reads the four numbers with which an item opens to the front of the lent bytes.
pub(super) fn opening(input: &mut impl Read, bytes: &mut [u8]) -> Result<[usize; 4], Ended> {
    let opening = bytes.get_mut(..HEADER).ok_or(Ended)?;
    input.read_exact(opening)?;
    let (numbers, _) = opening.as_chunks::<4>();
    let &[first, second, third, fourth] = numbers else {
        return Err(Ended);
    };
    Ok([first, second, third, fourth].map(|n| u32::from_le_bytes(n) as usize))
}

// A job's records.
pub(super) fn records(job: &[u8]) -> &[[u8; EIGHT]]
    ensures { 8 * length result.now ≤ length job.now - 16 }
{
    let (records, _) = job.get(HEADER..).unwrap_or(&[]).as_chunks::<EIGHT>();
    records
}

// A job's answers, of all the bytes that were lent for them.
pub(super) fn answers<'a>(job: &[u8], lent: &'a [u8]) -> &'a [u8] {
    lent.get(..EIGHT * records(job).len()).unwrap_or(lent)
}

// A listing, of all the numbers that were lent for it. It ends at its arrows' offset and two numbers for each node.
pub(super) fn listing(lent: &[u16]) -> &[u16] {
    let &[nodes, _, _, arrows, ..] = lent else {
        return lent;
    };
    let end = usize::from(arrows) + 2 * usize::from(nodes);
    lent.get(..end).unwrap_or(lent)
}

// What standard output does not take is let go.
pub(super) fn write(rt: &impl Print, bytes: &[u8]) {
    let _ = rt.write_all(bytes);
}

pub(super) fn write_listing(rt: &impl Print, listing: &[u16]) {
    let mut bytes = [0u8; LISTED];
    let (pairs, _) = bytes.as_chunks_mut::<2>();
    for (pair, n) in pairs.iter_mut().zip(listing) {
        *pair = n.to_le_bytes();
    }
    write(rt, bytes.get(..2 * listing.len()).unwrap_or(&bytes));
}
