// The fast path for the CRL's own extensions: most often authorityKeyIdentifier and then cRLNumber, and no other.
ghost use Rattle.std.specs.Prelude.{◌≡◌, true, IfSome};
ghost use Rattle.der.specs.Forms.{paper};
ghost use Rattle.crl.specs.Own.{own_of, own_usual, Known};

use elements::{Element, fills, short_end};

// Whether these two are all, not critical, with headers of two octets each.
pub(crate) fn usual_pair(item: &[u8], extensions: Element) -> bool
    ensures { result ≡ true → own_usual ≡ own_of paper item.now extensions }
{
    if extensions.tag != 0x30 {
        return false;
    }
    let Some(middle) = known_end(item, extensions.contents, extensions.end, 0x23) else {
        return false;
    };
    match known_end(item, middle, extensions.end, 0x14) {
        Some(last) => last == extensions.end,
        None => false,
    }
}

// Where the extension 2.5.29.`arc` that starts at `from`, before `stop`, ends if it is of that kind.
fn known_end(item: &[u8], from: usize, stop: usize, arc: u8) -> Option<usize>
    ensures { IfSome result (λ end. Known paper item.now from stop arc end) }
{
    let end = short_end(item, from, stop, 0x30)?;
    let next = short_end(item, from + 2, end, 0x06)?;
    if next - from != 7 {
        return None;
    }
    if item[from + 4] != 0x55 || item[from + 5] != 0x1d || item[from + 6] != arc {
        return None;
    }
    if !fills(item, next, end, 0x04) {
        return None;
    }
    Some(end)
}
