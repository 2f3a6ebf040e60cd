// Questions about CRLs.
use crate::{days, say};
use crl::Fields;
use std::io;
use std::io::Print;

pub(crate) fn judge<R: Print>(rt: &R, item: &[u8]) -> io::Result<()> {
    match crl::judge(item) {
        Ok(fields) => tell(rt, fields),
        Err(refusal) => say::refused(rt, refusal),
    }
}

fn tell<R: Print>(rt: &R, fields: Fields) -> io::Result<()> {
    say::times(rt, fields.this_update, fields.next_update)?;
    say::letters(rt, fields.first, fields.second)?;
    say::text(rt, b", ")?;
    say::number(rt, fields.entries as u64)?;
    say::text(rt, b" entries")?;
    say::part(rt, b", issuer ", fields.issuer_at, fields.issuer_len)
}

// The last octets are the serial, those before them the CRL.
pub(crate) fn listed<R: Print>(rt: &R, bytes: &[u8], serial: u64) -> io::Result<()> {
    let end = bytes.len();
    if (end as u64) < serial {
        return say::text(rt, b"no such question");
    }
    let middle = end - serial as usize;
    look_up(rt, &bytes[0..middle], &bytes[middle..end])
}

fn look_up<R: Print>(rt: &R, item: &[u8], serial: &[u8]) -> io::Result<()> {
    match crl::judge(item) {
        Ok(fields) => {
            if crl::listed(item, fields.entries_from, fields.entries_end, serial) {
                say::text(rt, b"listed")
            } else {
                say::text(rt, b"not listed")
            }
        }
        Err(refusal) => say::refused(rt, refusal),
    }
}

pub(crate) fn age<R: Print>(rt: &R, item: &[u8], day: u64) -> io::Result<()> {
    days::tell(rt, crl::age(item, day))
}
