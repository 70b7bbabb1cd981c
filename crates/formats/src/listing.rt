// Which listing a job shows: that of its last record of kind 65, or 0, 0, 4, 4. The numbers are gathered in working memory, and
// those of the last closing handed over when the records are done, so that what lies past their end stays as lent.

ghost use Rattle.std.specs.Prelude.{◌≡◌, ◌++◌, ◌+◌, ◌*◌, ◌≤◌, length, take, drop};
ghost use Rattle.types.specs.Closings.{no_listing};
ghost use Rattle.formats.specs.Shown.{found_types, settled, end_of};

use nodes::records::CLOSE;
use types::Answer;

// A listing begins with how many nodes and types it has, and where the types and the arrows stand. This one has neither.
const NO_LISTING: [u16; 4] = [0, 0, 4, 4];

const NODES: usize = 0;

const ARROWS_AT: usize = 3;

// A listing of no nodes and no types: 0, 0, 4, 4.
pub fn clear(listed: &mut [u16])
    requires { 4 ≤ length listed.old }
    ensures { listed.new ≡ no_listing ++ drop 4 listed.old }
{
    listed[..4].copy_from_slice(&NO_LISTING);
}

fn found_types(answer: Answer) -> bool
    ensures { result ≡ found_types answer }
{
    matches!(answer, Answer::Closed(_, _))
}

// A record of kind 65 that found no types leaves no listing; every other record leaves what is listed.
pub fn settle(listed: &mut [u16], kind: u8, answer: Answer)
    requires { 4 ≤ length listed.old }
    ensures { listed.new ≡ settled kind answer listed.old }
{
    if kind == CLOSE && !found_types(answer) {
        clear(listed);
    }
}

// Hands over what is listed: up to the arrows, and two numbers for each node.
pub fn show(listed: &[u16], listing: &mut [u16])
    requires { (4 ≤ length listed.now) × (end_of listed.now ≤ length listed.now) × (end_of listed.now ≤ length listing.old) }
    ensures { listing.new ≡ take (end_of listed.now) listed.now ++ drop (end_of listed.now) listing.old }
{
    let end = (listed[ARROWS_AT] as usize) + 2 * (listed[NODES] as usize);
    listing[..end].copy_from_slice(&listed[..end]);
}
