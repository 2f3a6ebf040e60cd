// Rule 1: the shape of a certificate.
ghost use Rattle.std.specs.Prelude.{◌≡◌};
ghost use Rattle.certificate.specs.Shape.{front_of, validity_of, unique_end, back_of, parts_of};

use elements::{Element, Envelope, element_tagged, envelope_of, only_member, past};
use names::{Seen, name_of};
use times::time_at;

// The parts that the other rules read; `unique` says that an 81 or 82 stands there.
#[derive(Clone, Copy)]
pub struct Layout {
    pub version: Element,
    pub serial: Element,
    pub inner: Element,
    pub outer: Element,
    pub issuer: Element,
    pub start: Element,
    pub finish: Element,
    pub subject: Element,
    pub key: Element,
    pub unique: bool,
    pub extensions: Element,
    pub issuer_country: Seen,
    pub subject_country: Seen,
}

#[derive(Clone, Copy)]
pub struct Validity {
    pub start: Element,
    pub finish: Element,
}

// The first members of the tbs.
#[derive(Clone, Copy)]
pub struct Front {
    pub version: Element,
    pub serial: Element,
    pub inner: Element,
    pub issuer: Element,
    pub validity: Element,
}

// The last members of the tbs.
#[derive(Clone, Copy)]
pub struct Back {
    pub subject: Element,
    pub key: Element,
    pub unique: bool,
    pub extensions: Element,
}

// All of rule 1 but the shape of the extensions.
#[tactic(auto, unfolding(crate::specs::Shape::parts_of, crate::specs::Shape::on_front, crate::specs::Shape::on_validity, crate::specs::Shape::on_back, elements::specs::Envelope::on_envelope, names::specs::Names::on_name))]
pub(crate) fn parts_of(item: &[u8]) -> Option<Layout>
    ensures { result ≡ parts_of item.now }
{
    let Envelope { tbs, algorithm } = envelope_of(item)?;
    let Front {
        version,
        serial,
        inner,
        issuer,
        validity,
    } = front_of(item, tbs)?;
    let Validity { start, finish } = validity_of(item, validity)?;
    let Back {
        subject,
        key,
        unique,
        extensions,
    } = back_of(item, validity.end, tbs.end)?;
    let issuer_country = name_of(item, issuer)?;
    let subject_country = name_of(item, subject)?;
    Some(Layout {
        version,
        serial,
        inner,
        outer: algorithm,
        issuer,
        start,
        finish,
        subject,
        key,
        unique,
        extensions,
        issuer_country,
        subject_country,
    })
}

// A0 around one INTEGER; INTEGER; algorithm; issuer; SEQUENCE of times.
#[tactic(auto, unfolding(crate::specs::Shape::front_of, elements::specs::Elements::on_found))]
fn front_of(item: &[u8], tbs: Element) -> Option<Front>
    ensures { result ≡ front_of item.now tbs }
{
    let end = tbs.end;
    let explicit = element_tagged(item, tbs.contents, end, 0xa0)?;
    let version = only_member(item, explicit, 0x02)?;
    let serial = element_tagged(item, explicit.end, end, 0x02)?;
    let inner = element_tagged(item, serial.end, end, 0x30)?;
    let issuer = element_tagged(item, inner.end, end, 0x30)?;
    let validity = element_tagged(item, issuer.end, end, 0x30)?;
    Some(Front {
        version,
        serial,
        inner,
        issuer,
        validity,
    })
}

// Subject; key; optional 81; optional 82; A3 around one SEQUENCE.
#[tactic(auto, unfolding(crate::specs::Shape::back_of, elements::specs::Elements::on_found))]
fn back_of(item: &[u8], from: usize, end: usize) -> Option<Back>
    ensures { result ≡ back_of item.now from end }
{
    let subject = element_tagged(item, from, end, 0x30)?;
    let key = element_tagged(item, subject.end, end, 0x30)?;
    let after = unique_end(item, key.end, end);
    let last = element_tagged(item, after, end, 0xa3)?;
    if last.end != end {
        return None;
    }
    let extensions = only_member(item, last, 0x30)?;
    Some(Back {
        subject,
        key,
        unique: after != key.end,
        extensions,
    })
}

// A SEQUENCE of two times.
#[tactic(auto, unfolding(crate::specs::Shape::validity_of, elements::specs::Elements::on_found))]
fn validity_of(item: &[u8], validity: Element) -> Option<Validity>
    ensures { result ≡ validity_of item.now validity }
{
    let start = time_at(item, validity.contents, validity.end)?;
    let finish = time_at(item, start.end, validity.end)?;
    (finish.end == validity.end).then_some(Validity { start, finish })
}

// Where an 81 and then an 82 end, each if it is there.
fn unique_end(item: &[u8], from: usize, end: usize) -> usize
    ensures { result ≡ unique_end item.now from end }
{
    past(item, past(item, from, end, 0x81), end, 0x82)
}
