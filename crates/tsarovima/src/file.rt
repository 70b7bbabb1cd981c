// Reading all that an input has, into a lent array.

use std::error::Error;
use std::io::Read;
use std::{fmt, io};

// One byte more than a file may have, so that a longer one is seen to be longer.
pub(super) const BYTES: usize = 65537;

// Why an input was not read whole: it has more than the array has room for, or a read failed.
#[derive(Clone, Copy, Debug)]
pub(super) enum Unread {
    Longer,
    Failed(io::Error),
}

impl Error for Unread {}

impl From<io::Error> for Unread {
    fn from(why: io::Error) -> Unread {
        Unread::Failed(why)
    }
}

impl fmt::Display for Unread {
    fn fmt<W: fmt::Write>(&self, f: &mut fmt::Formatter<W>) -> fmt::Result {
        match self {
            Unread::Longer => f.write_str(
                "longer than 65536 bytes, and no job is longer than 32784",
            ),
            Unread::Failed(why) => write!(f, "{why}"),
        }
    }
}

// What the input has. A full array counts as longer: the caller lends one byte more than may come. No `for` fits, since a turn goes on
// by as many bytes as came; it is one or more, so the array's room bounds the turns, and nothing has to be known of where the input
// ends.
pub(super) fn read<'a>(input: &mut impl Read, space: &'a mut [u8]) -> Result<&'a [u8], Unread> {
    let mut at: usize = 0;
    while at < space.len() {
        match input.read(&mut space[at..])? {
            0 => return Ok(&space[..at]),
            more => at += more,
        }
    }
    Err(Unread::Longer)
}
