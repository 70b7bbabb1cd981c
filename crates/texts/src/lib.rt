// The rules in words, byte for byte as the Rust's hints have them. Text 4 says "left" where it means right.

#![tactic(auto)]

ghost use Rattle.texts.specs.Texts.{AtFront, Written};

// Why a rule's text is not written: how many bytes it has, and there is no room for them; or the number names no rule.
#[derive(Clone, Copy, Debug, PartialEq, Eq)]
pub enum Unwritten {
    NoRoom(usize),
    NoRule,
}

// Copies a text to the front of the lent buffer, if it has room for it, and answers how many bytes it has.
fn put(src: &[u8], out: &mut [u8]) -> Result<usize, Unwritten>
    ensures { AtFront src.now out.old result out.new }
{
    if out.len() < src.len() {
        return Err(Unwritten::NoRoom(src.len()));
    }
    out[..src.len()].copy_from_slice(src);
    Ok(src.len())
}

// Writes the text of a rule, 1 to 7, to the front of the lent buffer. Where there is no room, or no such rule, nothing is written.
pub fn write(rule: u16, out: &mut [u8]) -> Result<usize, Unwritten>
    ensures { Written rule out.old result out.new }
{
    let text: &[u8] = match rule {
        1 => b"comp combinator: left target = right source",
        2 => b"pair combinator: left source = right source",
        3 => b"case combinator: left source = A \xC3\x97 C",
        4 => b"case combinator: left source = B \xC3\x97 C",
        5 => b"case combinator: left target = right target",
        6 => b"disconnect combinator: left source = 2^256 \xC3\x97 A",
        7 => b"disconnect combinator: left target = B \xC3\x97 C",
        _ => return Err(Unwritten::NoRule),
    };
    put(text, out)
}
