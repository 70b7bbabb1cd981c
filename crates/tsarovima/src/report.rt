// The report's lines: the job's code; for each record its index, its answer's three numbers and words for a person; the listing as
// types and arrows. The numbers are read out of the buffers that the job call filled.

ghost use Rattle.std.specs.Prelude.{◌<◌};

use super::page::Page;
use headers::{EIGHT, HEADER};
use nodes::records::{CLOSE, TAKE_BACK};
use std::{fmt, io};

// The longest of the rules' texts.
const LONGEST: usize = 47;

// A rule by its number, which prints as its text.
#[derive(Clone, Copy, Debug, PartialEq, Eq)]
struct Rule(u16);

impl fmt::Display for Rule {
    fn fmt<W: fmt::Write>(&self, f: &mut fmt::Formatter<W>) -> fmt::Result {
        let mut space = [0u8; LONGEST];
        let Ok(n) = texts::write(self.0, &mut space) else {
            return Ok(());
        };
        let text = space.get(..n).unwrap_or(&space);
        f.write_str(str::from_utf8(text).unwrap_or(""))
    }
}

// What became of a record, by its kind and its answer's three numbers.
#[derive(Clone, Copy, Debug, PartialEq, Eq)]
struct Answered {
    kind: u8,
    code: u16,
    first: u16,
    second: u32,
}

impl Answered {
    fn new(record: [u8; EIGHT], answer: [u8; EIGHT]) -> Answered {
        let [kind, ..] = record;
        let [c0, c1, f0, f1, s0, s1, s2, s3] = answer;
        Answered {
            kind,
            code: u16::from_le_bytes([c0, c1]),
            first: u16::from_le_bytes([f0, f1]),
            second: u32::from_le_bytes([s0, s1, s2, s3]),
        }
    }
}

// The numbers, and words for a person. Code and kind are matched as numbers, since a number and its words here say all: an enum between
// them would only list both a second time.
impl fmt::Display for Answered {
    fn fmt<W: fmt::Write>(&self, f: &mut fmt::Formatter<W>) -> fmt::Result {
        write!(f, "{} {} {}  ", self.code, self.first, self.second)?;
        match self.code {
            0 => f.write_str(match self.kind {
                TAKE_BACK => "taken back",
                CLOSE => "closed",
                _ => "kept",
            }),
            1 => f.write_str("malformed"),
            2 => f.write_str("no such child"),
            3 => f.write_str("full"),
            4 => write!(f, "{}", Rule(self.first)),
            5 => f.write_str("endless"),
            6 => f.write_str("too few kept"),
            _ => Ok(()),
        }
    }
}

// What a type is made of, by its three numbers in the listing.
#[derive(Clone, Copy, Debug, PartialEq, Eq)]
struct Made([u16; 3]);

impl fmt::Display for Made {
    fn fmt<W: fmt::Write>(&self, f: &mut fmt::Formatter<W>) -> fmt::Result {
        match self.0 {
            [1, left, right] => write!(f, "t{left} + t{right}"),
            [2, left, right] => write!(f, "t{left} × t{right}"),
            _ => f.write_str("1"),
        }
    }
}

// So many rows of N numbers of the listing, from an offset on; fewer where it ends.
fn rows<const N: usize>(listing: &[u16], offset: u16, count: u16) -> &[[u16; N]]
    requires { 0 < N }
{
    let from = listing.get(offset.into()..).unwrap_or(&[]);
    let (rows, _) = from.as_chunks::<N>();
    rows.get(..count.into()).unwrap_or(rows)
}

fn records(page: &mut Page<impl Print>, records: &[u8], answers: &[u8]) -> io::Result<()> {
    let (records, _) = records.as_chunks::<EIGHT>();
    let (answers, _) = answers.as_chunks::<EIGHT>();
    for (i, (record, answer)) in records.iter().zip(answers).enumerate() {
        let answered = Answered::new(*record, *answer);
        page.line(format_args!("{i}: {answered}"))?;
    }
    Ok(())
}

// The listing opens with four numbers: nodes, types, and the offsets of types and of arrows.
fn listed(page: &mut Page<impl Print>, listing: &[u16]) -> io::Result<()> {
    let &[nodes, types, types_at, arrows_at, ..] = listing else {
        return Ok(());
    };
    page.line(format_args!("nodes {nodes} types {types}"))?;
    for (i, row) in rows::<3>(listing, types_at, types).iter().enumerate() {
        let made = Made(*row);
        page.line(format_args!("t{i} = {made}"))?;
    }
    for (i, [source, target]) in rows::<2>(listing, arrows_at, nodes).iter().enumerate() {
        page.line(format_args!("n{i}: t{source} -> t{target}"))?;
    }
    Ok(())
}

// Writes the report, or says why standard output did not take all of it.
pub(super) fn report(
    rt: &impl Print,
    code: u32,
    job: &[u8],
    answers: &[u8],
    listing: &[u16],
) -> io::Result<()> {
    let mut page = Page::new(rt);
    page.line(format_args!("job {code}"))?;
    if code == 0 {
        if let Some(all) = job.get(HEADER..) {
            records(&mut page, all, answers)?;
            listed(&mut page, listing)?;
        }
    }
    page.flush()
}
