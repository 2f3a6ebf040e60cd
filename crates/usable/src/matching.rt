// Whether the certificates of two places fit.
ghost use Rattle.std.specs.Prelude.{◌≡◌, false, ◌≤◌, ◌<◌};
ghost use Rattle.usable.specs.Rows.{held_in, row_at, leads_of, led_of, fits_of, matched_of};

use crate::opened::{Row, row_at};
use crate::roles::piece;
use octets::same;

// Whether the second place, of that role, can be led to and fits the first; no also where a place is not in the table.
pub fn matched(octets: &[u8], rows: &[[usize; 17]; 96], u: usize, v: usize, role: u8) -> bool
    ensures { (u < 96 → v < 96 → result ≡ matched_of (held_in octets.now) (row_at rows.now u) (row_at rows.now v) role) × (96 ≤ u → result ≡ false) × (96 ≤ v → result ≡ false) }
{
    if 96 <= u || 96 <= v {
        return false;
    }
    led(role) && fits(octets, row_at(rows, u), row_at(rows, v))
}

// An anchor or a link.
pub fn leads(role: u8) -> bool
    ensures { result ≡ leads_of role }
{
    role == 1 || role == 2
}

// A link or a signer.
pub fn led(role: u8) -> bool
    ensures { result ≡ led_of role }
{
    role == 2 || role == 3
}

// The key identifiers are equal, and the issuer's name is the subject's.
fn fits(octets: &[u8], u: Row, v: Row) -> bool
    ensures { result ≡ fits_of (held_in octets.now) u v }
{
    let own = piece(octets, u, u.own_at, u.own_len);
    if !same(piece(octets, v, v.authority_at, v.authority_len), own) {
        return false;
    }
    let subject = piece(octets, u, u.subject_at, u.subject_len);
    same(piece(octets, v, v.issuer_at, v.issuer_len), subject)
}
