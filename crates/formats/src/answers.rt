// An answer is eight bytes, little-endian: code (2), first (2), second (4).

ghost use Rattle.std.specs.Prelude.{◌≡◌, ◌++◌, ◌+◌, ◌/◌, ◌%◌, ◌≤◌, length, set, take, drop};
ghost use Rattle.types.specs.Answers.{numbers};
ghost use Rattle.formats.specs.Bytes.{answer_bytes};

use types::Answer;

// Document 01's three numbers. One match that gave all three took an offer four instructions more (of 115).
fn code(answer: Answer) -> u16
    ensures { result ≡ (numbers answer).code }
{
    match answer {
        Answer::Kept(_, _) | Answer::TakenBack(_) | Answer::Closed(_, _) => 0,
        Answer::Malformed => 1,
        Answer::NoChild => 2,
        Answer::Full => 3,
        Answer::Clashes(_) => 4,
        Answer::Endless(_) => 5,
        Answer::TooFar(_) => 6,
    }
}

fn first(answer: Answer) -> u16
    ensures { result ≡ (numbers answer).first }
{
    match answer {
        Answer::Kept(n, _)
        | Answer::TakenBack(n)
        | Answer::Closed(n, _)
        | Answer::Clashes(n)
        | Answer::Endless(n)
        | Answer::TooFar(n) => n,
        Answer::Malformed | Answer::NoChild | Answer::Full => 0,
    }
}

fn second(answer: Answer) -> u16
    ensures { result ≡ (numbers answer).second }
{
    match answer {
        Answer::Kept(_, n) | Answer::Closed(_, n) => n,
        _ => 0,
    }
}

// A number as two bytes.
fn write_two(bytes: &mut [u8], at: usize, n: u16)
    requires { at + 2 ≤ length bytes.old }
    ensures { bytes.new ≡ set (set bytes.old at (n % 256)) (at + 1) (n / 256 % 256) }
{
    let [low, high] = n.to_le_bytes();
    bytes[at] = low;
    bytes[at + 1] = high;
}

// Writes an answer. No answer's second number needs its upper two bytes.
pub fn write(bytes: &mut [u8], at: usize, answer: Answer)
    requires { at + 8 ≤ length bytes.old }
    ensures { bytes.new ≡ take at bytes.old ++ answer_bytes answer ++ drop (at + 8) bytes.old }
{
    write_two(bytes, at, code(answer));
    write_two(bytes, at + 2, first(answer));
    write_two(bytes, at + 4, second(answer));
    write_two(bytes, at + 6, 0);
}
