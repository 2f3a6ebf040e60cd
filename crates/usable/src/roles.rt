// What each place may be in a chain.
ghost use Rattle.std.specs.Prelude.{◌≡◌, ℕ, ◌≤◌, ◌<◌, get_or, replicate};
ghost use Rattle.usable.specs.Rows.{row_at, held_in, piece_of, signed_of, spoken_of, spoken_below, role_by, role_of, Roles};

use crate::counting::same_letters;
use crate::opened::{Row, row_at, standing_at};
use crl::listed;
use octets::part;

// 1 a usable anchor, 2 a usable link, 3 a usable signer, else 0; of the places that `before` marks the roles are handed on. For more
// than 96 places all 0.
pub fn roles_of(
    octets: &[u8],
    places: usize,
    before: [u8; 96],
    rows: &[[usize; 17]; 96],
    counting: [u8; 96],
    roles: [u8; 96],
) -> [u8; 96]
    ensures { (places ≤ 96 → Roles (held_in octets.now) places before rows.now counting roles result) × (96 < places → result ≡ replicate 96 0) }
{
    let mut more = [0u8; 96];
    if 96 < places {
        return more;
    }
    let first = first_list(places, counting);
    for place in 0..places {
        more[place] = if before[place] == 1 {
            roles[place]
        } else {
            role_at(octets, places, first, rows, counting, place)
        };
    }
    more
}

// The role of a place, 0 at once where nothing is open; no CRL before `first` counts.
fn role_at(
    octets: &[u8],
    places: usize,
    first: usize,
    rows: &[[usize; 17]; 96],
    counting: [u8; 96],
    place: usize,
) -> u8
    requires { (places ≤ 96) × (place < 96) × (first ≤ places) × ((c : ℕ) → c < first → get_or counting c 0 ≡ 1 → ⊥) }
    ensures { result ≡ role_of (held_in octets.now) places rows.now counting (row_at rows.now place) }
{
    if standing_at(rows, place) == 0 {
        return 0;
    }
    let own = row_at(rows, place);
    if !signed(own) {
        return role_of(own, 0);
    }
    role_of(own, spoken_of(octets, places, first, rows, counting, own))
}

// What all CRLs that count say of a row.
fn spoken_of(
    octets: &[u8],
    places: usize,
    first: usize,
    rows: &[[usize; 17]; 96],
    counting: [u8; 96],
    own: Row,
) -> u8
    requires { (places ≤ 96) × (first ≤ places) × ((c : ℕ) → c < first → get_or counting c 0 ≡ 1 → ⊥) }
    ensures { result ≡ spoken_below (held_in octets.now) rows.now counting own places }
{
    let mut spoken = 0;
    for list in first..places {
        if counting[list] == 1 {
            spoken = spoken_by(octets, row_at(rows, list), own, spoken);
        }
    }
    spoken
}

// Where the counting CRLs begin.
fn first_list(places: usize, counting: [u8; 96]) -> usize
    requires { places ≤ 96 }
    ensures { (result ≤ places) × ((c : ℕ) → c < result → get_or counting c 0 ≡ 1 → ⊥) }
{
    for list in 0..places {
        if counting[list] == 1 {
            return list;
        }
    }
    places
}

// A link or a signer.
fn signed(row: Row) -> bool
    ensures { result ≡ signed_of row }
{
    row.standing == 2 || row.standing == 3
}

// The role of a place, by what the CRLs say of it.
fn role_of(row: Row, spoken: u8) -> u8
    ensures { result ≡ role_by row spoken }
{
    if signed(row) {
        if spoken != 1 {
            return 0;
        }
        if row.standing == 2 {
            return 2;
        }
        return 3;
    }
    if row.standing == 1 {
        return 1;
    }
    0
}

// What the CRLs say: 0 none covers the certificate, 1 one covers it, 2 one that covers it lists its serial.
fn spoken_by(octets: &[u8], list: Row, row: Row, before: u8) -> u8
    ensures { result ≡ spoken_of (held_in octets.now) list row before }
{
    if before == 2 {
        return 2;
    }
    if !same_letters(row, list) {
        return before;
    }
    if listed(
        held(octets, list),
        list.from,
        list.end,
        piece(octets, row, row.serial_at, row.serial_len),
    ) {
        return 2;
    }
    1
}

// A part of the item of a row.
pub(crate) fn piece(octets: &[u8], row: Row, at: usize, size: usize) -> &[u8]
    ensures { result.now ≡ piece_of (held_in octets.now) row at size }
{
    part(held(octets, row), at, size)
}

// The item of a row.
fn held(octets: &[u8], row: Row) -> &[u8]
    ensures { result.now ≡ held_in octets.now row }
{
    part(octets, row.at, row.size)
}
