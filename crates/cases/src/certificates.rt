// Questions about certificates.
use crate::say;
use certificate::Fields;
use std::io;
use std::io::Print;

pub(crate) fn judge<R: Print>(rt: &R, item: &[u8], role: u64) -> io::Result<()> {
    match certificate::judge(item, role) {
        Ok(fields) => tell(rt, fields),
        Err(refusal) => say::refused(rt, refusal),
    }
}

fn tell<R: Print>(rt: &R, fields: Fields) -> io::Result<()> {
    say::times(rt, fields.start, fields.end)?;
    say::letters(rt, fields.first, fields.second)?;
    say::part(rt, b", issuer ", fields.issuer_at, fields.issuer_len)?;
    say::part(rt, b", subject ", fields.subject_at, fields.subject_len)?;
    say::part(rt, b", key ", fields.key_at, fields.key_len)?;
    say::part(rt, b", serial ", fields.serial_at, fields.serial_len)?;
    say::part(
        rt,
        b", subject key ",
        fields.subject_key_at,
        fields.subject_key_len,
    )?;
    say::part(
        rt,
        b", authority key ",
        fields.authority_key_at,
        fields.authority_key_len,
    )
}
