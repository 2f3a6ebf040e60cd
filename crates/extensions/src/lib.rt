// Extensions: what one pass tells of all of them.
#![tactic(auto)]

mod fast;
mod marks;
mod members;
mod outline;
mod rows;
mod shape;
mod slot;
mod stranger;
mod told;
mod twice;

ghost use Rattle.der.specs.Forms.{paper};
ghost use Rattle.extensions.specs.Extensions.{Viewed};

use elements::Element;
use marks::mark_of;
pub use members::Met;
use members::met_at;
pub use outline::{Outline, outline_of};
use slot::slot_of;
pub use told::is_there;
use told::{held_of, is_critical, unusual};
use twice::doubled;

#[derive(Clone, Copy)]
pub struct Extension {
    pub oid: Element,
    pub critical: bool,
    pub value: Element,
}

// Of an extension: whether it is critical, and where the contents of its value start and end.
#[derive(Clone, Copy)]
pub struct Held {
    pub start: usize,
    pub critical: bool,
    pub end: usize,
}

// What one pass over the extensions tells: whether each member is one; whether one is critical, and whether one beside
// keyUsage and basicConstraints is; whether an OID stands twice; and what the first extension with each slot's OID holds:
// 2.5.29.14 to 2.5.29.35 in slots 0 to 21, the document type list in slot 22. The slots come first: behind the flags they
// would be copied twice.
#[derive(Clone, Copy)]
pub struct Overview {
    pub slots: [Option<Held>; 23],
    pub shaped: bool,
    pub marked: bool,
    pub critical: bool,
    pub doubled: bool,
}

// An OID with a slot stands twice where its slot is taken when it is met. Those without a slot are compared only where two of
// them have one mark.
pub fn one_pass(item: &[u8], extensions: Element) -> Overview
    ensures { Viewed paper item.now extensions result }
{
    let mut shaped = extensions.tag == 0x30;
    let mut marked = false;
    let mut critical = false;
    let mut repeated = false;
    let mut unsure = false;
    let mut marks = [false; 64];
    let mut slots = [None; 23];
    let mut at = extensions.contents;
    while let Some(Met { next, own }) = met_at(item, at, extensions.end) {
        let slot = slot_of(item, own);
        shaped = shaped & (slot != 24);
        marked = marked | is_critical(own);
        critical = critical | unusual(own, slot);
        if slot < 23 {
            if slots[slot].is_some() {
                repeated = true;
            } else {
                slots[slot] = held_of(own);
            }
        } else if slot != 24 {
            let mark = mark_of(item, own);
            unsure = unsure | marks[mark];
            marks[mark] = true;
        }
        at = next;
    }
    if !repeated && unsure {
        repeated = doubled(item, extensions);
    }
    Overview {
        slots,
        shaped,
        marked,
        critical,
        doubled: repeated,
    }
}
