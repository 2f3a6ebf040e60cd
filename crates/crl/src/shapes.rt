// CRL rule 1: the shape.
ghost use Rattle.std.specs.Prelude.{◌≡◌};
ghost use Rattle.der.specs.Forms.{paper};
ghost use Rattle.crl.specs.Shape.{front_of, last_of, listing_of, parts_of};

use crate::entries::{Survey, survey_of};
use elements::{Element, Envelope, element_tagged, envelope_of, only_member};
use names::{Seen, name_of};
use times::time_at;

// Whether the entry list is there, where its contents start and end, and the offset after it.
#[derive(Clone, Copy)]
pub struct Listing {
    pub there: bool,
    pub from: usize,
    pub end: usize,
    pub after: usize,
}

// The parts that the other rules read, and what was found of all the entries.
#[derive(Clone, Copy)]
pub struct Layout {
    pub version: Element,
    pub inner: Element,
    pub outer: Element,
    pub issuer: Element,
    pub country: Seen,
    pub current: Element,
    pub coming: Element,
    pub listing: Listing,
    pub extensions: Element,
    pub count: usize,
    pub timely: bool,
    pub calm: bool,
}

// The first members of the tbs.
#[derive(Clone, Copy)]
pub struct Front {
    pub version: Element,
    pub inner: Element,
    pub issuer: Element,
    pub current: Element,
    pub coming: Element,
}

// All of rule 1 but the shape of the extensions.
#[tactic(auto, unfolding(crate::specs::Shape::parts_of, crate::specs::Shape::on_front, crate::specs::Shape::on_survey, elements::specs::Elements::on_found, elements::specs::Envelope::on_envelope, names::specs::Names::on_name))]
pub(crate) fn parts_of(item: &[u8]) -> Option<Layout>
    ensures { result ≡ parts_of paper item.now }
{
    let Envelope { tbs, algorithm } = envelope_of(item)?;
    let end = tbs.end;
    let Front {
        version,
        inner,
        issuer,
        current,
        coming,
    } = front_of(item, tbs)?;
    let country = name_of(item, issuer)?;
    let listing = listing_of(coming.end, element_tagged(item, coming.end, end, 0x30));
    let extensions = last_of(item, listing.after, end)?;
    let Survey {
        count,
        timely,
        calm,
    } = survey_of(item, listing.from, listing.end)?;
    Some(Layout {
        version,
        inner,
        outer: algorithm,
        issuer,
        country,
        current,
        coming,
        listing,
        extensions,
        count,
        timely,
        calm,
    })
}

// INTEGER, algorithm, issuer, time, time.
#[tactic(auto, unfolding(crate::specs::Shape::front_of, elements::specs::Elements::on_found))]
fn front_of(item: &[u8], tbs: Element) -> Option<Front>
    ensures { result ≡ front_of paper item.now tbs }
{
    let end = tbs.end;
    let version = element_tagged(item, tbs.contents, end, 0x02)?;
    let inner = element_tagged(item, version.end, end, 0x30)?;
    let issuer = element_tagged(item, inner.end, end, 0x30)?;
    let current = time_at(item, issuer.end, end)?;
    let coming = time_at(item, current.end, end)?;
    Some(Front {
        version,
        inner,
        issuer,
        current,
        coming,
    })
}

// A0 around one SEQUENCE, which ends the tbs.
#[tactic(auto, unfolding(crate::specs::Shape::last_of, elements::specs::Elements::on_found))]
fn last_of(item: &[u8], from: usize, end: usize) -> Option<Element>
    ensures { result ≡ last_of paper item.now from end }
{
    let last = element_tagged(item, from, end, 0xa0)?;
    if last.end != end {
        return None;
    }
    only_member(item, last, 0x30)
}

// Where the entry list stands, if it is there.
fn listing_of(from: usize, found: Option<Element>) -> Listing
    ensures { result ≡ listing_of from found }
{
    match found {
        None => Listing {
            there: false,
            from: 0,
            end: 0,
            after: from,
        },
        Some(e) => Listing {
            there: true,
            from: e.contents,
            end: e.end,
            after: e.end,
        },
    }
}
