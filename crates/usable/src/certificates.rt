// The row of a certificate.
ghost use Rattle.std.specs.Prelude.{◌≡◌, ℕ};
ghost use Rattle.usable.specs.Rows.{row_from, certificate_row};
ghost use Rattle.certificate.specs.Answer.{judged_of};

use certificate::judge;

pub(crate) fn certificate_row(
    item: &[u8],
    kind: usize,
    flags: usize,
    at: usize,
    moment: u64,
) -> [usize; 17]
    ensures { (a b : ℕ) → row_from result ≡ certificate_row moment (record { kind = kind; flags = flags; bytes = item.now; first = a; second = b }) at (judged_of item.now kind) }
{
    let Ok(f) = judge(item, kind as u64) else {
        return [0; 17];
    };
    if moment < f.start {
        return [0; 17];
    }
    if f.end < moment {
        return [0; 17];
    }
    let first = f.first;
    let second = f.second;
    [
        kind,
        first as usize,
        second as usize,
        at,
        item.len(),
        f.issuer_at,
        f.issuer_len,
        0,
        0,
        f.subject_at,
        f.subject_len,
        f.serial_at,
        f.serial_len,
        f.subject_key_at,
        f.subject_key_len,
        f.authority_key_at,
        f.authority_key_len,
    ]
}
