// The table of 64 header rows, lent as numbers: six a row, and after them how many rows are used, from the first on.
ghost use Rattle.std.specs.Prelude.{◌≡◌, ◌<◌, IfSome};
ghost use Rattle.byte_machine.specs.Rows.{counted, find as rows_find, free, is_own, put_at, put_row, row_at, row_count, used as rows_used};
ghost use Rattle.held.specs.Numbers.{row_from, held_row_of, place_in};

use crate::numbers::HeldRow;

pub const ROWS: usize = 64;

// A place that the table does not have.
pub const NOWHERE: u32 = 64;

// How many numbers the table has, and where the count is.
pub const TABLE_LENGTH: usize = 385;

const COUNT: usize = 384;

// How many rows are used; a larger count means all.
fn used(rows: &[u32; TABLE_LENGTH]) -> usize
    ensures { result ≡ rows_used rows.now }
{
    rows[COUNT].min(64) as usize
}

// The row of this id, searched from the newest row back.
pub fn find(rows: &[u32; TABLE_LENGTH], id: u32) -> Option<usize>
    ensures found { place_in result ≡ rows_find rows.now id }
    ensures within { IfSome result (λ i. i < row_count) }
{
    for i in (0..used(rows)).rev() {
        if rows[6 * i] == id {
            return Some(i);
        }
    }
    None
}

// The first free row, which is the one after those used.
#[tactic(auto, unfolding(byte_machine::specs::Rows::free))]
pub fn first_free(rows: &[u32; TABLE_LENGTH]) -> Option<usize>
    ensures found { place_in result ≡ free rows.now }
    ensures within { IfSome result (λ i. i < row_count) }
{
    let free = used(rows);
    if free < ROWS { Some(free) } else { None }
}

// Whether the row at a place, put over itself, stays as it is: the number of its type is a byte.
pub fn is_own(rows: &[u32; TABLE_LENGTH], place: usize) -> bool
    requires { place < row_count }
    ensures { result ≡ is_own rows.now place }
{
    rows[6 * place + 4] < 256
}

// The row at a place.
// Kept: a place below 64 is asked for in three contracts here: `find` and `first_free` answer one (`within`), and a type of its own would wrap it for these calls alone.
pub fn row_in(rows: &[u32; TABLE_LENGTH], i: usize) -> HeldRow
    requires { i < row_count }
    ensures { result ≡ held_row_of (row_at rows.now i) }
{
    let at = 6 * i;
    HeldRow {
        id: rows[at],
        time: rows[at + 1],
        field: rows[at + 2],
        length: rows[at + 3],
        kind: rows[at + 4] % 256,
        stream: rows[at + 5],
    }
}

// Counts the row at a place as used, and those before it.
#[tactic(auto, unfolding(byte_machine::specs::Rows::counted))]
fn count(rows: &mut [u32; TABLE_LENGTH], i: usize)
    requires { i < row_count }
    ensures { rows.new ≡ counted rows.old i }
{
    if used(rows) <= i {
        rows[COUNT] = i as u32 + 1;
    }
}

fn put_row(rows: &mut [u32; TABLE_LENGTH], i: usize, row: HeldRow)
    requires { i < row_count }
    ensures { rows.new ≡ put_row rows.old i (row_from row) }
{
    count(rows, i);
    let at = 6 * i;
    rows[at] = row.id;
    rows[at + 1] = row.time;
    rows[at + 2] = row.field;
    rows[at + 3] = row.length;
    rows[at + 4] = row.kind;
    rows[at + 5] = row.stream;
}

// The same, where the table has that place.
pub fn put_at(rows: &mut [u32; TABLE_LENGTH], place: u32, row: HeldRow)
    ensures { rows.new ≡ put_at rows.old place (row_from row) }
{
    if place < 64 {
        put_row(rows, place as usize, row);
    }
}
