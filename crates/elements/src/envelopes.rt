// What certificates and CRLs have around them.
ghost use Rattle.std.specs.Prelude.{◌≡◌};
ghost use Rattle.der.specs.Forms.{paper};
ghost use Rattle.elements.specs.Envelope.{envelope_of};

use crate::elements::{Element, any_tagged, element_tagged};

// The part that is signed, and the algorithm that stands after it.
#[derive(Clone, Copy)]
pub struct Envelope {
    pub tbs: Element,
    pub algorithm: Element,
}

pub fn envelope_of(item: &[u8]) -> Option<Envelope>
    ensures { result ≡ envelope_of paper item.now }
{
    let outermost = any_tagged(item, 0, item.len(), 0x30)?;
    let tbs = any_tagged(item, outermost.contents, outermost.end, 0x30)?;
    let algorithm = element_tagged(item, tbs.end, outermost.end, 0x30)?;
    let signature = element_tagged(item, algorithm.end, outermost.end, 0x03)?;
    (signature.end == outermost.end).then_some(Envelope { tbs, algorithm })
}
