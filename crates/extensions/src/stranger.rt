// The extensions whose OIDs have no slot.
ghost use Rattle.std.specs.Prelude.{IfSome};
ghost use Rattle.der.specs.Forms.{paper};
ghost use Rattle.extensions.specs.Strange.{Ahead, Passed};

use crate::Extension;
use crate::shape::any_extension;
use crate::slot::{slot_by, slot_of};
use elements::{Element, element_at, short_end};

// An extension whose OID has no slot: its offset, the offset after it, and its OID.
#[derive(Clone, Copy)]
pub struct Stranger {
    pub place: usize,
    pub next: usize,
    pub oid: Element,
}

// The first one from `from` on. The loop yields its offset.
pub(crate) fn stranger_from(item: &[u8], from: usize, end: usize) -> Option<Stranger>
    ensures { Ahead paper item.now from end result }
{
    let mut at = from;
    let next;
    let oid;
    let place = loop {
        if let Some(passed) = slotted_end(item, at, end) {
            at = passed;
            continue;
        }
        let e = element_at(item, at, end)?;
        let own = any_extension(item, e);
        if 23 <= slot_of(item, own) {
            if let Some(Extension { oid: its, .. }) = own {
                next = e.end;
                oid = its;
                break at;
            }
        }
        at = e.end;
    };
    Some(Stranger { place, next, oid })
}

// Where the member at `from` ends, before `stop`, if its headers are short and an OID of three octets with a slot opens it.
fn slotted_end(item: &[u8], from: usize, stop: usize) -> Option<usize>
    ensures { IfSome result (λ next. Passed paper item.now from stop next) }
{
    let end = short_end(item, from, stop, 0x30)?;
    let next = short_end(item, from + 2, end, 0x06)?;
    if next - from != 7 {
        return None;
    }
    if slot_by(item[from + 4], item[from + 5], item[from + 6]) == 23 {
        return None;
    }
    Some(end)
}
