// The fast path for a SET of a name with one attribute, all headers short.
ghost use Rattle.std.specs.Prelude.{IfSome};
ghost use Rattle.names.specs.Fast.{Alone};

use elements::{Element, fills, short_end};

// Where a SET with one attribute ends, and the value of that if it is a countryName.
#[derive(Clone, Copy)]
pub struct Lone {
    pub end: usize,
    pub country: Option<Element>,
}

// The SET at `at` if it has one attribute, with short headers. The value is a PrintableString; after an OID that cannot be countryName
// by its last octet also a UTF8String.
pub(crate) fn lone_set(item: &[u8], at: usize, end: usize) -> Option<Lone>
    ensures { IfSome result (λ set. Alone item.now at end set) }
{
    let end = short_end(item, at, end, 0x31)?;
    if !fills(item, at + 2, end, 0x30) {
        return None;
    }
    let value = short_end(item, at + 4, end, 0x06)?;
    if item[value - 1] != 0x06 {
        if fills(item, value, end, 0x13) || fills(item, value, end, 0x0c) {
            return Some(Lone { end, country: None });
        }
        return None;
    }
    if value - at != 9 || item[at + 6] != 0x55 || item[at + 7] != 0x04 {
        return None;
    }
    if !fills(item, value, end, 0x13) {
        return None;
    }
    let country = Some(Element {
        tag: 0x13,
        at: value,
        contents: value + 2,
        end,
    });
    Some(Lone { end, country })
}
