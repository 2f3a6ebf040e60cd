// The row of an item.
ghost use Rattle.std.specs.Prelude.{◌≡◌, ℕ};
ghost use Rattle.usable.specs.Rows.{row_from, row_of};

use crate::certificates::certificate_row;
use crate::lists::list_row;

// The item of a kind, with flags, whose first octet is number `at` of the octets that all items stand in. A disabled anchor is not
// opened.
pub fn open_item(item: &[u8], kind: usize, flags: usize, at: usize, moment: u64) -> [usize; 17]
    ensures { (a b : ℕ) → row_from result ≡ row_of moment (record { kind = kind; flags = flags; bytes = item.now; first = a; second = b }) at }
{
    if kind == 4 {
        return list_row(item, at, moment);
    }
    if kind == 1 && flags != 1 {
        return [0; 17];
    }
    certificate_row(item, kind, flags, at, moment)
}
