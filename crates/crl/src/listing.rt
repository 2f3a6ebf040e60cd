// Whether a serial is listed.
ghost use Rattle.std.specs.Prelude.{◌≡◌, IfSome};
ghost use Rattle.der.specs.Forms.{paper};
ghost use Rattle.crl.specs.Listed.{lists, listed_of};
ghost use Rattle.crl.specs.FastEntries.{Another, NoneBefore};

use crate::usual::opens;
use elements::{Element, element_at, element_tagged, holds};

// Whether an entry between two offsets of a CRL has a serial of those contents octets.
pub fn listed(item: &[u8], from: usize, end: usize, serial: &[u8]) -> bool
    ensures { result ≡ listed_of paper item.now from end serial.now }
{
    let mut at = from;
    loop {
        at = first_like(item, at, end, serial);
        let Some(e) = element_at(item, at, end) else {
            return false;
        };
        if has_serial(item, serial, e) {
            return true;
        }
        at = e.end;
    }
}

// The offset of the first entry from `from` on that the fast path does not show to be another, or of the end of the list.
fn first_like(item: &[u8], from: usize, end: usize, serial: &[u8]) -> usize
    ensures { NoneBefore item.now from end serial.now result }
{
    let mut at = from;
    loop {
        let Some(next) = passed_by(item, at, end, serial) else {
            return at;
        };
        at = next;
    }
}

// The offset after the entry at `at` if the length of its serial or the last octet shows that it is another; none where
// these do not tell, or a length is in the long form.
fn passed_by(item: &[u8], at: usize, end: usize, serial: &[u8]) -> Option<usize>
    ensures { IfSome result (Another item.now at end serial.now) }
{
    if !opens(item, at, end) {
        return None;
    }
    let whole = item[at + 1] as usize;
    let size = item[at + 3] as usize;
    if whole < size + 2 {
        return None;
    }
    let next = at + 2 + whole;
    let after = at + 4 + size;
    if size != serial.len() {
        return Some(next);
    }
    if size == 0 {
        return None;
    }
    if item[after - 1] != serial[size - 1] {
        return Some(next);
    }
    None
}

#[tactic(auto, unfolding(crate::specs::Listed::lists, elements::specs::Elements::on_found))]
fn has_serial(item: &[u8], serial: &[u8], e: Element) -> bool
    ensures { result ≡ lists paper item.now serial.now e }
{
    match element_tagged(item, e.contents, e.end, 0x02) {
        Some(own) => holds(item, own, serial),
        None => false,
    }
}
