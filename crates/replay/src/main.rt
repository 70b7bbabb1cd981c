// Puts a stream of items, one after the other on standard input, to the job call, and writes what becomes of each on standard output.
// An item opens with four 4-byte numbers, little-endian, and the first says what it is.
//
// 1: a job, as document 01 lays it out. Its answers are written, eight bytes each, and its listing, two bytes a number. In the answer
// of a node that is kept the joins are written as 0, since the Rust does not count them: so what the Rust answered to the same jobs can
// be compared byte for byte.
//
// 0: a lending. The other three numbers are a job's length in bytes, how many bytes of answers and how many numbers of a listing are
// lent; the job's bytes follow, whatever they are. The job's code is written, four bytes; if it is 0 the answers, joins and all, and
// the listing up to its end; and a byte, 1 if all else in both buffers is as it was before the call.
//
// Any other number ends the stream, and so do a job that is refused, since its length is not to be trusted, and a lending of more than
// there is room for. Nothing is promised of what is written: the gate compares it.

#![tactic(auto)]

mod lending;
mod plain;
mod stream;

use headers::{EIGHT, HEADER};
use std::io;
use std::io::Read;

const MOST_RECORDS: usize = 4096;

// The longest job and its answers, in bytes.
const ANSWERS: usize = EIGHT * MOST_RECORDS;

const JOB: usize = HEADER + ANSWERS;

// The stream ends here: no item follows, or none that can be put.
#[derive(Clone, Copy, Debug, PartialEq, Eq)]
struct Ended;

impl From<io::Error> for Ended {
    fn from(_why: io::Error) -> Ended {
        Ended
    }
}

// An item, by the numbers with which it opens.
#[derive(Clone, Copy, Debug, PartialEq, Eq)]
enum Item {
    Lending {
        length: usize,
        bytes: usize,
        numbers: usize,
    },
    Plain {
        length: usize,
    },
}

impl TryFrom<[usize; 4]> for Item {
    type Error = Ended;

    fn try_from(opening: [usize; 4]) -> Result<Item, Ended> {
        match opening {
            [0, length, bytes, numbers] => Ok(Item::Lending {
                length,
                bytes,
                numbers,
            }),
            [1, _, _, length] => Ok(Item::Plain { length }),
            _ => Err(Ended),
        }
    }
}

// The call itself, and its code, for both kinds of item.
fn run(job: &[u8], answers: &mut [u8], listing: &mut [u16]) -> u32 {
    headers::code(jobs::job(job, answers, listing))
}

// Reads an item, puts its job and writes what becomes of it.
fn put_next(rt: &impl Print, input: &mut impl Read) -> Result<(), Ended> {
    let mut space = [0u8; JOB];
    match Item::try_from(stream::opening(input, &mut space)?)? {
        Item::Lending {
            length,
            bytes,
            numbers,
        } => {
            let job = space.get_mut(..length).ok_or(Ended)?;
            lending::put(rt, input, job, bytes, numbers)
        }
        Item::Plain { length } => plain::put(rt, input, space.get_mut(..length).ok_or(Ended)?),
    }
}

fn main(rt: HostRuntime) {
    let mut input = rt.stdin();
    for _ in 0..u64::MAX {
        if put_next(&rt, &mut input).is_err() {
            return;
        }
    }
}
