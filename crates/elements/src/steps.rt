// Steps that both shapes take.
ghost use Rattle.std.specs.Prelude.{◌≡◌};
ghost use Rattle.der.specs.Forms.{paper};
ghost use Rattle.elements.specs.Steps.{only_of, past_of};

use crate::elements::{Element, element_tagged};

// The one member of an element, if it has the tag.
pub fn only_member(item: &[u8], e: Element, tag: usize) -> Option<Element>
    ensures { result ≡ only_of paper item.now e tag }
{
    let member = element_tagged(item, e.contents, e.end, tag)?;
    (member.end == e.end).then_some(member)
}

// Where an element with that tag ends, or where it would start if it is left out.
pub fn past(item: &[u8], from: usize, end: usize, tag: usize) -> usize
    ensures { result ≡ past_of paper item.now from end tag }
{
    match element_tagged(item, from, end, tag) {
        Some(e) => e.end,
        None => from,
    }
}
