// The report's lines, gathered on a page and written when it is nearly full: one system call serves many lines. Nothing is promised of
// what is printed.

use std::fmt::{Display, Write};
use std::{fmt, io};

const PAGE: usize = 8192;

// No line of the report is longer.
const LINE: usize = 128;

// Lines, and what they will be written to. What is gathered ends at `end`. A line's pieces are put there by `write_str`: by way of a
// `Cursor` of std a report took up to two and a half times as long.
#[derive(Drop)]
pub(super) struct Page<'a, P> {
    rt: &'a P,
    gathered: [u8; PAGE],
    end: usize,
}

impl<'a, P> Write for Page<'a, P> {
    // A piece goes on the page whole, or is refused where there is no room for it.
    fn write_str(&mut self, piece: &str) -> fmt::Result {
        let bytes = piece.as_bytes();
        let room = self.gathered.get_mut(self.end..).ok_or(fmt::Error)?;
        room.get_mut(..bytes.len())
            .ok_or(fmt::Error)?
            .copy_from_slice(bytes);
        self.end += bytes.len();
        Ok(())
    }
}

impl<'a, P: Print> Page<'a, P> {
    pub(super) fn new(rt: &'a P) -> Page<'a, P> {
        Page {
            rt,
            gathered: [0; PAGE],
            end: 0,
        }
    }

    // One line more, and there is room for the next.
    pub(super) fn line(&mut self, text: impl Display + Drop) -> io::Result<()> {
        writeln!(self, "{text}")?;
        if PAGE.saturating_sub(self.end) < LINE {
            self.flush()?;
        }
        Ok(())
    }

    // Writes what is gathered, and begins the page again.
    pub(super) fn flush(&mut self) -> io::Result<()> {
        let end = self.end;
        let page: &[u8] = &self.gathered;
        self.rt.write_all(page.get(..end).unwrap_or(page))?;
        self.end = 0;
        Ok(())
    }
}
