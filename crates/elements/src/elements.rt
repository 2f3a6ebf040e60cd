// The elements that stand in a stretch of a walked item.
ghost use Rattle.std.specs.Prelude.{◌≡◌, true};
ghost use Rattle.der.specs.Forms.{paper};
ghost use Rattle.der.specs.Heading.{identifier_good};
ghost use Rattle.elements.specs.Elements.{found_at, found_tagged, whole_of, contents_of};
ghost use Rattle.octets.specs.Alike.{alike};

use crate::short::short_end;
use der::{Step, member};
use octets::{between, part, same};

// An element by its identifier and three offsets: of its first octet, of its contents, and after it.
#[derive(Clone, Copy)]
pub struct Element {
    pub tag: usize,
    pub at: usize,
    pub contents: usize,
    pub end: usize,
}

// The element that starts at `from`, before `end`.
pub fn element_at(item: &[u8], from: usize, end: usize) -> Option<Element>
    ensures { result ≡ found_at paper item.now from end }
{
    let Step { tag, contents, end } = member(item, from, end)?;
    Some(Element {
        tag,
        at: from,
        contents,
        end,
    })
}

// The same, if it has the tag. Most headers are short: the fast path.
#[inline(always)]
pub fn element_tagged(item: &[u8], from: usize, end: usize, tag: usize) -> Option<Element>
    ensures { result ≡ found_tagged paper item.now from end tag }
{
    match short_end(item, from, end, tag) {
        Some(next) if usual(tag) => Some(Element {
            tag,
            at: from,
            contents: from + 2,
            end: next,
        }),
        _ => any_tagged(item, from, end, tag),
    }
}

// Tags that the profiles ask for; each is a good identifier.
#[tactic(auto, using(std::proofs::lemmas::Bool::Decides::nat_tests), unfolding(der::specs::Heading::identifier_good))]
fn usual(tag: usize) -> bool
    ensures { result ≡ true → identifier_good tag ≡ true }
{
    matches!(
        tag,
        0x02 | 0x03 | 0x04 | 0x06 | 0x17 | 0x30 | 0x31 | 0x80 | 0xa0 | 0xa3
    )
}

// The same with a header of any kind, which is not read where the first octet is another. It costs less than the fast path and then
// this, so it is asked for what mostly has a long header.
#[inline(never)]
pub fn any_tagged(item: &[u8], from: usize, end: usize, tag: usize) -> Option<Element>
    ensures { result ≡ found_tagged paper item.now from end tag }
{
    if from < item.len() && item[from] as usize != tag {
        return None;
    }
    let e = element_at(item, from, end)?;
    (e.tag == tag).then_some(e)
}

// The octets of an element, its header among them.
fn whole(item: &[u8], e: Element) -> &[u8]
    ensures { result.now ≡ whole_of item.now e }
{
    part(item, e.at, between(e.at, e.end))
}

// The contents octets of an element.
pub fn contents(item: &[u8], e: Element) -> &[u8]
    ensures { result.now ≡ contents_of item.now e }
{
    part(item, e.contents, between(e.contents, e.end))
}

// Whether the contents of an element are those octets.
pub fn holds(item: &[u8], e: Element, octets: &[u8]) -> bool
    ensures { result ≡ alike (contents_of item.now e) octets.now }
{
    same(contents(item, e), octets)
}

// Whether two elements are equal octet by octet.
pub fn twins(item: &[u8], one: Element, other: Element) -> bool
    ensures { result ≡ alike (whole_of item.now one) (whole_of item.now other) }
{
    same(whole(item, one), whole(item, other))
}
