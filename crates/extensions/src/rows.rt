// OIDs as they stand in a table.
ghost use Rattle.std.specs.Prelude.{◌≡◌};
ghost use Rattle.octets.specs.Alike.{alike};
ghost use Rattle.elements.specs.Elements.{contents_of};
ghost use Rattle.extensions.specs.Strange.{key_from, row_oid, Numbered};

use elements::{Element, contents};
use octets::{between, part, same};

// An OID: the number of its last eight octets, of its first eight, and where it starts and ends.
#[derive(Clone, Copy)]
pub struct Row {
    pub last: u64,
    pub first: u64,
    pub start: usize,
    pub end: usize,
}

pub(crate) const VACANT: Row = Row {
    last: 0,
    first: 0,
    start: 0,
    end: 0,
};

// An OID of at most eight octets has one number: it is worked out once.
pub(crate) fn row_of(item: &[u8], oid: Element) -> Row
    ensures is { row_oid item.now result ≡ contents_of item.now oid }
    ensures numbers { Numbered item.now result }
{
    let own = contents(item, oid);
    let last = key_of(own);
    if own.len() <= 8 {
        return Row {
            last,
            first: last,
            start: oid.contents,
            end: oid.end,
        };
    }
    Row {
        last,
        first: key_of(part(own, 0, 8)),
        start: oid.contents,
        end: oid.end,
    }
}

// The number of the last eight octets, or of all where there are fewer.
fn key_of(octets: &[u8]) -> u64
    ensures { result ≡ key_from 0 octets.now }
{
    let mut key = 0;
    for octet in octets {
        key = key % 0x100_0000_0000_0000 * 256 + *octet as u64;
    }
    key
}

// Whether two OIDs are equal. The octets are compared only where the numbers of the first of them are equal.
pub(crate) fn equal_rows(item: &[u8], one: Row, other: Row) -> bool
    requires { Numbered item.now one × Numbered item.now other }
    ensures { result ≡ alike (row_oid item.now one) (row_oid item.now other) }
{
    if one.first != other.first {
        return false;
    }
    let own = part(item, one.start, between(one.start, one.end));
    same(
        own,
        part(item, other.start, between(other.start, other.end)),
    )
}
