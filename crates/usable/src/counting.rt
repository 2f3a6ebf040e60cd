// Which CRLs count.
ghost use Rattle.std.specs.Prelude.{◌≡◌, ◌≤◌, ◌<◌, get_or, replicate};
ghost use Rattle.usable.specs.Items.{some_below};
ghost use Rattle.usable.specs.Rows.{same_letters, vouched_by, Counted};

use crate::opened::{Row, row_at, standing_at};
use octets::octet;

// 1 for each CRL that some usable anchor of its country has verdict 1 for; for more than 96 places all 0.
pub fn counting_lists(table: &[u8], places: usize, rows: &[[usize; 17]; 96]) -> [u8; 96]
    ensures { (places ≤ 96 → Counted places table.now rows.now result) × (96 < places → result ≡ replicate 96 0) }
{
    let mut counting = [0u8; 96];
    if 96 < places {
        return counting;
    }
    for list in 0..places {
        if standing_at(rows, list) == 4 && vouched(table, places, rows, list) {
            counting[list] = 1;
        }
    }
    counting
}

// Whether some usable anchor of its country has verdict 1 for the CRL.
fn vouched(table: &[u8], places: usize, rows: &[[usize; 17]; 96], list: usize) -> bool
    requires { (places ≤ 96) × (list < places) }
    ensures { result ≡ some_below places (vouched_by places table.now rows.now list) }
{
    for anchor in 0..places {
        if standing_at(rows, anchor) == 1
            && octet(table, anchor * places + list) == 1
            && same_letters(row_at(rows, anchor), row_at(rows, list))
        {
            return true;
        }
    }
    false
}

// Whether two rows have the same letters.
pub(crate) fn same_letters(a: Row, b: Row) -> bool
    ensures { result ≡ same_letters a b }
{
    a.first == b.first && a.second == b.second
}
