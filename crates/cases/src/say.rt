// Answers in words, on standard output.
ghost use Rattle.std.specs.Prelude.{◌≡◌, nat_abs};

use refusal::Refusal;
use std::io;
use std::io::Print;

pub(crate) fn text<R: Print>(rt: &R, words: &[u8]) -> io::Result<()> {
    rt.write_all(words)
}

pub(crate) fn number<R: Print>(rt: &R, value: u64) -> io::Result<()> {
    rt.print(value)
}

pub(crate) fn signed<R: Print>(rt: &R, value: i64) -> io::Result<()> {
    if value < 0 {
        text(rt, b"-")?;
    }
    number(rt, magnitude(value))
}

fn magnitude(value: i64) -> u64
    ensures { result ≡ nat_abs value }
{
    if value < 0 {
        (-1 - value) as u64 + 1
    } else {
        value as u64
    }
}

// How the answer begins for a certificate or a CRL that passes.
pub(crate) fn times<R: Print>(rt: &R, start: u64, end: u64) -> io::Result<()> {
    text(rt, b"passed, ")?;
    number(rt, start)?;
    text(rt, b" to ")?;
    number(rt, end)
}

pub(crate) fn letters<R: Print>(rt: &R, first: u8, second: u8) -> io::Result<()> {
    text(rt, b", ")?;
    text(rt, &[first, second])
}

// An offset and a length.
pub(crate) fn part<R: Print>(rt: &R, name: &[u8], at: usize, size: usize) -> io::Result<()> {
    text(rt, name)?;
    number(rt, at as u64)?;
    text(rt, b"+")?;
    number(rt, size as u64)
}

pub(crate) fn refused<R: Print>(rt: &R, refusal: Refusal) -> io::Result<()> {
    rt.print(refusal)
}
