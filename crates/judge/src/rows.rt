// Where the rows of a lent table or roll stand: 32 bytes each, one after the other.
// What stands in them is left to the modules beside this one.
ghost use Rattle.std.specs.Prelude.{◌≡◌, ◌*◌, ◌<◌, ◌≤◌, ◌^◌, length};
ghost use Rattle.octets.specs.Rows.{rows_of};

use units::Row;

// The index of a row's first byte. For this crate alone, which names only rows that lent memory can hold.
pub fn start_of(row: Row) -> usize
    requires { row.0 * 32 < 2 ^ 64 }
    ensures { result ≡ row.0 * 32 }
{
    row.index() * 32
}

// The first count rows of lent bytes. For this crate alone, which asks for rows that are there. That they are
// there is asked of each caller and kept in no struct, which would be no plainer: a host lends table and roll
// apart, with one `Counts` for both, and entering writes the table while its count grows, so that bytes and
// count would be put together, and the fact proved, once more at each of these places.
pub fn rows_in(bytes: &[u8], count: usize) -> &[[u8; 32]]
    requires { count * 32 ≤ length bytes.now }
    ensures rows { result.now ≡ rows_of count bytes.now }
    ensures len { length result.now ≡ count }
{
    let (rows, _) = bytes[..count * 32].as_chunks::<32>();
    rows
}
