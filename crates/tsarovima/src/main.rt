// Checks the types of one job: a file of records, as document 01 lays it out, whose name is the one argument, or standard input where
// there is none. Any bytes are a job. The report is on standard output: what became of the job, of each record, and the listing.
// What keeps the bytes from being read is said in a line on standard error, and then there is no report.
//
// file: reading a job whole. page: the report's bytes, gathered. report: its lines.

#![tactic(auto)]

mod file;
mod page;
mod report;

use file::Unread;
use std::env::{Env, FillError};
use std::fmt::Display;
use std::fs;
use std::io::Read;
use std::rt::Files;
use types::limits::LISTING;

// What the longest job, of 4,096 records, needs.
const ANSWERS: usize = 32768;

// Room for a file's name: no path is longer.
const NAME: usize = 4096;

// A line that names what could not be read or written, and says why. What standard error does not take is let go: there is nowhere
// left to say it.
fn failed(rt: &impl Eprint, what: &str, why: impl Display + Drop) {
    let _ = eprintln!(rt; "tsarovima: {what}: {why}");
}

// Puts what was read, as a job, and reports.
fn check(rt: &(impl Print + Eprint), job: &[u8]) {
    let mut answers = [0u8; ANSWERS];
    let mut listing = [0u16; LISTING];
    let code = headers::code(jobs::job(job, &mut answers, &mut listing));
    if let Err(why) = report::report(rt, code, job, &answers, &listing) {
        failed(rt, "standard output", why);
    }
}

fn check_all(rt: &(impl Print + Eprint), input: &mut impl Read) -> Result<(), Unread> {
    let mut space = [0u8; file::BYTES];
    check(rt, file::read(input, &mut space)?);
    Ok(())
}

// The file is closed where it is dropped, at the end.
fn check_file(rt: &(impl Files + Print + Eprint), name: &str) -> Result<(), Unread> {
    let mut file = fs::open(rt, name)?;
    check_all(rt, &mut file)
}

// A name as the system gave it. Only text names a file in std.
fn check_named(rt: &(impl Files + Print + Eprint), name: &[u8]) {
    match str::from_utf8(name) {
        Ok(name) => {
            if let Err(why) = check_file(rt, name) {
                failed(rt, name, why);
            }
        }
        Err(_) => failed(rt, "the file's name", "not UTF-8"),
    }
}

fn main(rt: HostRuntime) {
    let mut name = [0u8; NAME];
    // The first argument is the program's own name.
    if !matches!(rt.arg(2, &mut name), Err(FillError::NotPresent)) {
        let _ = rt.eprintln(
            "usage: tsarovima [FILE]   checks the job in FILE, or on standard input",
        );
        return;
    }
    match rt.arg(1, &mut name) {
        Err(FillError::NotPresent) => {
            if let Err(why) = check_all(&rt, &mut rt.stdin()) {
                failed(&rt, "standard input", why);
            }
        }
        Err(FillError::TooLong) => failed(&rt, "the file's name", "File name too long"),
        Ok(length) => check_named(&rt, &name[..length]),
    }
}
