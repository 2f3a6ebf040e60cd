// The shape of a list of extensions and whether one is critical: all that is asked of the extensions of a CRL's entry.
ghost use Rattle.std.specs.Prelude.{false, ◌≡◌};
ghost use Rattle.der.specs.Forms.{paper};
ghost use Rattle.extensions.specs.Extensions.{extensions_shaped, critical_of};

use crate::fast::plain_end;
use crate::shape::any_extension;
use crate::told::{is_critical, is_there};
use elements::{Element, element_at};

#[derive(Clone, Copy)]
pub struct Outline {
    pub shaped: bool,
    pub marked: bool,
}

// Each member is met once; no slot is filled, and no OID compared. Most are passed by the fast path.
pub fn outline_of(item: &[u8], extensions: Element) -> Outline
    ensures { (result.shaped ≡ extensions_shaped paper item.now extensions) × (result.marked ≡ critical_of paper item.now extensions false) }
{
    let mut shaped = extensions.tag == 0x30;
    let mut marked = false;
    let mut at = extensions.contents;
    while at < extensions.end {
        if let Some(next) = plain_end(item, at, extensions.end) {
            at = next;
            continue;
        }
        let Some(e) = element_at(item, at, extensions.end) else {
            return Outline { shaped, marked };
        };
        let own = any_extension(item, e);
        shaped = shaped & is_there(own);
        marked = marked | is_critical(own);
        at = e.end;
    }
    Outline { shaped, marked }
}
