// One step through the members of an element.
ghost use Rattle.std.specs.Prelude.{◌≡◌};
ghost use Rattle.der.specs.Forms.{paper};
ghost use Rattle.der.specs.Member.{member_of};

use crate::heading::{Heading, header};
use crate::limits::PAPER;

// An element by its identifier, the offset of its contents and the offset after it.
#[derive(Clone, Copy)]
pub struct Step {
    pub tag: usize,
    pub contents: usize,
    pub end: usize,
}

// The element that starts at `from`, in a list of elements that ends at `end`.
pub fn member(item: &[u8], from: usize, end: usize) -> Option<Step>
    ensures { result ≡ member_of paper item.now from end }
{
    let Heading { tag, skip, size } = header(PAPER, item.get(from..end)?)?;
    let contents = from + skip;
    Some(Step {
        tag,
        contents,
        end: contents + size,
    })
}
