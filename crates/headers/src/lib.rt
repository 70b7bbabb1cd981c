// A job opens with four numbers: format, how many records, where the first begins, the job's length. Whatever they are, and
// whatever buffers are lent, the job is refused with one code or can be run.

#![tactic(auto)]

ghost use Rattle.std.specs.Prelude.{◌≡◌, ◌+◌, ◌*◌, ◌≤◌, length};
ghost use Rattle.headers.specs.Header.{four_bytes, judged, number_of, code_of};

use types::limits::LISTING;

// Bytes of the header, and of a record and its answer.
pub const HEADER: usize = 16;

pub const EIGHT: usize = 8;

const FORMAT: u32 = 1;

const MOST_RECORDS: u32 = 4096;

// Where the header's numbers stand.
const COUNT: usize = 4;

const OFFSET: usize = 8;

const TOTAL: usize = 12;

// Why a job is not run.
#[derive(Clone, Copy, Debug, PartialEq, Eq)]
pub enum Refusal {
    TooShort,
    BadFormat,
    TooMany,
    BadOffset,
    BadLength,
    AnswersShort,
    ListingShort,
}

// Document 01's number of a refusal.
impl From<Refusal> for u32 {
    ghost from_gives = { λ refusal n. n ≡ number_of refusal };

    fn from(refusal: Refusal) -> u32 {
        match refusal {
            Refusal::TooShort => 16,
            Refusal::BadFormat => 17,
            Refusal::TooMany => 18,
            Refusal::BadOffset => 19,
            Refusal::BadLength => 20,
            Refusal::AnswersShort => 21,
            Refusal::ListingShort => 22,
        }
    }
}

// Document 01's number of what becomes of a job: 0 where it is run.
pub fn code(outcome: Result<(), Refusal>) -> u32
    ensures { result ≡ code_of outcome }
{
    match outcome {
        Ok(()) => 0,
        Err(refusal) => u32::from(refusal),
    }
}

// The four-byte number, little-endian, at a place.
fn number_at(bytes: &[u8], at: usize) -> u32
    requires { at + 4 ≤ length bytes.now }
    ensures { result ≡ four_bytes bytes.now at }
{
    u32::from_le_bytes([bytes[at], bytes[at + 1], bytes[at + 2], bytes[at + 3]])
}

// Whether a job can be run with buffers of these lengths: the checks in the order 16 to 22.
pub fn judge(job: &[u8], answers: usize, listing: usize) -> Result<(), Refusal>
    ensures { result ≡ judged job.now answers listing }
{
    if job.len() < HEADER {
        return Err(Refusal::TooShort);
    }
    if number_at(job, 0) != FORMAT {
        return Err(Refusal::BadFormat);
    }
    let count = number_at(job, COUNT);
    if MOST_RECORDS < count {
        return Err(Refusal::TooMany);
    }
    if number_at(job, OFFSET) as usize != HEADER {
        return Err(Refusal::BadOffset);
    }
    let records = EIGHT * (count as usize);
    let total = HEADER + records;
    if number_at(job, TOTAL) as usize != total || job.len() != total {
        return Err(Refusal::BadLength);
    }
    if answers < records {
        return Err(Refusal::AnswersShort);
    }
    if listing < LISTING {
        return Err(Refusal::ListingShort);
    }
    Ok(())
}
