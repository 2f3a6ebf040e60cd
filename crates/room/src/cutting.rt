// A verdict table cut to some places.
ghost use Rattle.std.specs.Prelude.{◌≡◌, ◌++◌, ◌*◌, ◌≤◌, length, drop};
ghost use Rattle.room.specs.Kept.{cut_line, cut_lines};

use octets::octet;

// Of some rows of a table of n the octets in some columns.
pub(crate) fn cut_lines(table: &[u8], n: usize, columns: &[u8], rows: &[u8], out: &mut [u8])
    requires { (n ≤ 96) × (length rows.now * length columns.now ≤ length out.old) }
    ensures { out.new ≡ cut_lines n table.now columns.now rows.now ++ drop (length rows.now * length columns.now) out.old }
{
    let mut at = 0;
    for row in rows {
        cut_line(table, n, *row, columns, &mut out[at..]);
        at += columns.len();
    }
}

// Of one row.
fn cut_line(table: &[u8], n: usize, row: u8, columns: &[u8], out: &mut [u8])
    requires { (n ≤ 96) × (length columns.now ≤ length out.old) }
    ensures { out.new ≡ cut_line n table.now row columns.now ++ drop (length columns.now) out.old }
{
    let start = row as usize * n;
    for i in 0..columns.len() {
        out[i] = octet(table, start + columns[i] as usize);
    }
}
