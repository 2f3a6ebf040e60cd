// The row of a CRL.
ghost use Rattle.std.specs.Prelude.{◌≡◌, ℕ};
ghost use Rattle.der.specs.Forms.{paper};
ghost use Rattle.usable.specs.Rows.{row_from, list_row};
ghost use Rattle.crl.specs.Answer.{judged_of};

use crl::judge;

pub(crate) fn list_row(item: &[u8], at: usize, moment: u64) -> [usize; 17]
    ensures { (kind flags a b : ℕ) → row_from result ≡ list_row moment (record { kind = kind; flags = flags; bytes = item.now; first = a; second = b }) at (judged_of paper item.now) }
{
    let Ok(f) = judge(item) else {
        return [0; 17];
    };
    if moment < f.this_update {
        return [0; 17];
    }
    if f.next_update < moment {
        return [0; 17];
    }
    let first = f.first;
    let second = f.second;
    [
        4,
        first as usize,
        second as usize,
        at,
        item.len(),
        f.issuer_at,
        f.issuer_len,
        f.entries_from,
        f.entries_end,
        0,
        0,
        0,
        0,
        0,
        0,
        0,
        0,
    ]
}
