// Names, and the countryName in one.
#![tactic(auto)]

mod country;
mod fast;

ghost use Rattle.std.specs.Prelude.{◌≡◌};
ghost use Rattle.der.specs.Forms.{paper};
ghost use Rattle.names.specs.Names.{attribute_of, one_more, one_set, name_of, is_capital, letters_of, first_letter, second_letter};

pub use country::country_in;
use elements::{Element, contents, element_at, element_tagged, holds};
use fast::lone_set;

// The value of a countryName, another attribute, or what is none.
#[derive(Clone, Copy)]
pub enum Attribute {
    Country(Element),
    Other,
    Misshapen,
}

// How often a countryName was seen.
#[derive(Clone, Copy)]
pub enum Seen {
    Never,
    Once(Element),
    Often,
}

// Two letters A to Z, or no such country.
#[derive(Clone, Copy)]
pub struct Letters {
    pub first: u8,
    pub second: u8,
}

// A SEQUENCE of non-empty SETs of SEQUENCE {OID, one element}.
pub fn name_of(item: &[u8], e: Element) -> Option<Seen>
    ensures { result ≡ name_of paper item.now e }
{
    if e.tag != 0x30 {
        return None;
    }
    let mut seen = Seen::Never;
    let mut at = e.contents;
    loop {
        if let Some(set) = lone_set(item, at, e.end) {
            if let Some(value) = set.country {
                seen = one_more(seen, value);
            }
            at = set.end;
            continue;
        }
        let Some(set) = element_at(item, at, e.end) else {
            return Some(seen);
        };
        seen = set_of(item, set, seen)?;
        at = set.end;
    }
}

// One SET of a name, after the countryNames seen before it.
fn set_of(item: &[u8], e: Element, before: Seen) -> Option<Seen>
    ensures { result ≡ one_set paper item.now e before }
{
    if e.tag != 0x31 {
        return None;
    }
    let mut attribute = element_at(item, e.contents, e.end)?;
    let mut seen = before;
    loop {
        match attribute_of(item, attribute) {
            Attribute::Misshapen => return None,
            Attribute::Other => {}
            Attribute::Country(value) => seen = one_more(seen, value),
        }
        let Some(next) = element_at(item, attribute.end, e.end) else {
            return Some(seen);
        };
        attribute = next;
    }
}

// SEQUENCE {OID, one element}; 2.5.4.6 is countryName.
fn attribute_of(item: &[u8], e: Element) -> Attribute
    ensures { result ≡ attribute_of paper item.now e }
{
    if e.tag != 0x30 {
        return Attribute::Misshapen;
    }
    let Some(oid) = element_tagged(item, e.contents, e.end, 0x06) else {
        return Attribute::Misshapen;
    };
    let Some(value) = element_at(item, oid.end, e.end) else {
        return Attribute::Misshapen;
    };
    if value.end != e.end {
        return Attribute::Misshapen;
    }
    if holds(item, oid, b"\x55\x04\x06") {
        return Attribute::Country(value);
    }
    Attribute::Other
}

#[tactic(auto, unfolding(crate::specs::Names::one_more))]
fn one_more(seen: Seen, value: Element) -> Seen
    ensures { result ≡ one_more seen value }
{
    match seen {
        Seen::Never => Seen::Once(value),
        Seen::Once(_) | Seen::Often => Seen::Often,
    }
}

// The letters of a countryName that stands once, as PrintableString of two letters A to Z.
pub fn letters_of(item: &[u8], seen: Seen) -> Option<Letters>
    ensures { result ≡ letters_of item.now seen }
{
    let Seen::Once(value) = seen else {
        return None;
    };
    if value.tag != 0x13 {
        return None;
    }
    let c = contents(item, value);
    if c.len() != 2 || !capital(c[0]) || !capital(c[1]) {
        return None;
    }
    Some(Letters {
        first: c[0],
        second: c[1],
    })
}

#[tactic(auto, using(std::proofs::lemmas::Bool::Decides::nat_tests), unfolding(crate::specs::Names::is_capital))]
fn capital(o: u8) -> bool
    ensures { result ≡ is_capital o }
{
    matches!(o, b'A'..=b'Z')
}

pub fn first_letter(letters: Option<Letters>) -> u8
    ensures { result ≡ first_letter letters }
{
    letters.map_or(0, |l| l.first)
}

pub fn second_letter(letters: Option<Letters>) -> u8
    ensures { result ≡ second_letter letters }
{
    letters.map_or(0, |l| l.second)
}
