// A row of the component table: what an entry was given to be, and, where the entry is a root, the entry whose bound its class shows.

ghost use Rattle.std.specs.Prelude.{◌≡◌, ℕ, ◌<◌, get_or};
ghost use Rattle.classes.specs.Columns.{width, column, height};

// Numbers in a row, and where each stands.
pub const ROW: usize = 4;

pub const KIND: usize = 0;

pub const LEFT: usize = 1;

pub const RIGHT: usize = 2;

pub const SHAPE: usize = 3;

// The kinds, as a row has them: numbers, since the lent tables are of numbers. One past 3 is read as a product.
pub const FREE: u16 = 0;

pub const UNIT: u16 = 1;

pub const SUM: u16 = 2;

pub const PRODUCT: u16 = 3;

// Numbers on the trail for each link.
pub const LINK: usize = 3;

// Numbers of a pair still to join.
pub const PAIR: usize = 2;

// The number that stands at place k of the row of entry a.
pub(super) fn cell(rows: &[u16], a: u16, k: usize) -> u16
    requires { (a < height rows.now) × (k < width) }
    ensures { result ≡ get_or (column k rows.now) a 0 }
{
    rows[ROW * (a as usize) + k]
}
