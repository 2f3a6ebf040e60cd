// The fast path for an extension whose headers have two octets each.
ghost use Rattle.std.specs.Prelude.{IfSome, Some};
ghost use Rattle.extensions.specs.Fast.{Member, Plain};

use crate::Extension;
use elements::{Element, fills, short_end};

// The extension that starts at `from`, before `stop`, if it is of that kind.
pub(crate) fn brief_at(item: &[u8], from: usize, stop: usize) -> Option<Extension>
    ensures { IfSome result (λ x. Member item.now from stop x.value.end (Some x)) }
{
    let end = short_end(item, from, stop, 0x30)?;
    let at = from + 2;
    let next = short_end(item, at, end, 0x06)?;
    let oid = Element {
        tag: 0x06,
        at,
        contents: at + 2,
        end: next,
    };
    if fills(item, next, end, 0x04) {
        let value = Element {
            tag: 0x04,
            at: next,
            contents: next + 2,
            end,
        };
        return Some(Extension {
            oid,
            critical: false,
            value,
        });
    }
    let at = short_end(item, next, end, 0x01)?;
    if at - next != 3 || item[next + 2] != 0xff {
        return None;
    }
    if !fills(item, at, end, 0x04) {
        return None;
    }
    let value = Element {
        tag: 0x04,
        at,
        contents: at + 2,
        end,
    };
    Some(Extension {
        oid,
        critical: true,
        value,
    })
}

// Where the extension that starts at `from`, before `stop`, ends if it is of that kind and has no BOOLEAN.
pub(crate) fn plain_end(item: &[u8], from: usize, stop: usize) -> Option<usize>
    ensures { IfSome result (λ next. Plain item.now from stop next) }
{
    let end = short_end(item, from, stop, 0x30)?;
    if end - from < 6 {
        return None;
    }
    if item[from + 2] != 0x06 {
        return None;
    }
    let size = item[from + 3] as usize;
    if end - from - 6 < size {
        return None;
    }
    let value = from + 4 + size;
    if item[value] != 0x04 || item[value + 1] as usize != end - value - 2 {
        return None;
    }
    Some(end)
}
