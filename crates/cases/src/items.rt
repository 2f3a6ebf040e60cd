// Questions about DER items.
use crate::say;
use der::Step;
use std::io;
use std::io::Print;

pub(crate) fn walk<R: Print>(rt: &R, item: &[u8]) -> io::Result<()> {
    match der::walk(item) {
        Ok(count) => {
            say::text(rt, b"passed, ")?;
            say::number(rt, count as u64)?;
            say::text(rt, b" elements")
        }
        Err(refusal) => say::refused(rt, refusal),
    }
}

pub(crate) fn integer<R: Print>(rt: &R, item: &[u8]) -> io::Result<()> {
    match der::integer(item) {
        Ok(value) => say::signed(rt, value),
        Err(refusal) => say::refused(rt, refusal),
    }
}

pub(crate) fn member<R: Print>(rt: &R, item: &[u8], from: u64, end: u64) -> io::Result<()> {
    match der::member(item, from as usize, end as usize) {
        Some(Step { tag, contents, end }) => {
            say::text(rt, b"tag ")?;
            say::number(rt, tag as u64)?;
            say::text(rt, b", contents ")?;
            say::number(rt, contents as u64)?;
            say::text(rt, b", end ")?;
            say::number(rt, end as u64)
        }
        None => say::text(rt, b"nothing"),
    }
}
