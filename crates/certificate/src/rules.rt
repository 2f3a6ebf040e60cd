// Rules 2 to 14, each told by its number where it is the first that is broken.
ghost use Rattle.std.specs.Prelude.{Option, true, cond, List, ◌≡◌, ℕ, eqb, Ok, Err};
ghost use Rattle.der.specs.Forms.{paper};
ghost use Rattle.extensions.specs.declared.Extension.{Extension};
ghost use Rattle.extensions.specs.Extensions.{held_of, Placed, critical_of, doubled_of};
ghost use Rattle.refusal.specs.declared.Refusal.TheVariants.{Profile};
ghost use Rattle.certificate.specs.Keys.{documents_in};
ghost use Rattle.certificate.specs.Rules.{both_keys, constrained, critical_with, key_good, uncritical, readings_of, rule3, rule8, rule12, rules2to8, rules9to14, same_two, told, usage_of};

use crate::keys::{KeyId, authority_key, document_types, subject_key, value_of};
use crate::shapes::Layout;
use elements::{Element, contents, element_at, holds, twins};
use extensions::Held;
use names::{Letters, letters_of};
use octets::same;
use refusal::Refusal;
use times::{in_order, time_of};

// What several rules and the answer read, each once.
#[derive(Clone, Copy)]
pub struct Readings {
    pub start: Option<u64>,
    pub finish: Option<u64>,
    pub issuer: Option<Letters>,
    pub subject: Option<Letters>,
    pub own: KeyId,
    pub authority: KeyId,
}

pub(crate) fn readings_of(item: &[u8], l: Layout, slots: [Option<Held>; 23]) -> Readings
    requires { Placed paper item.now l.extensions slots }
    ensures { result ≡ readings_of item.now l }
{
    let of_subject = slots[0];
    let of_authority = slots[21];
    Readings {
        start: time_of(item, l.start),
        finish: time_of(item, l.finish),
        issuer: letters_of(item, l.issuer_country),
        subject: letters_of(item, l.subject_country),
        own: subject_key(item, of_subject),
        authority: authority_key(item, of_authority),
    }
}

// Refused by its number where it does not hold.
pub(crate) fn rule(rule: u64, holds: bool) -> Result<(), Refusal>
    ensures { result ≡ cond holds (Ok tt) (Err (Profile rule)) }
{
    if holds {
        Ok(())
    } else {
        Err(Refusal::Profile { rule })
    }
}

// Refused for the first of rules 2 to 8 that is broken.
#[tactic(auto, unfolding(crate::specs::Rules::told, crate::specs::Rules::rules2to8, crate::specs::Rules::rule2, crate::specs::Rules::rule4, crate::specs::Rules::rule5, crate::specs::Rules::rule6, crate::specs::Rules::rule7))]
pub(crate) fn rules_2_to_8(
    item: &[u8],
    l: Layout,
    r: Readings,
    doubled: bool,
) -> Result<(), Refusal>
    requires { doubled ≡ doubled_of paper item.now l.extensions }
    ensures { result ≡ told 2 (rules2to8 item.now l r) }
{
    rule(2, holds(item, l.version, b"\x02"))?;
    rule(3, serial_good(item, l))?;
    rule(4, twins(item, l.inner, l.outer))?;
    rule(5, same_two(r.issuer, r.subject))?;
    rule(6, !l.unique)?;
    rule(7, in_order(r.start, r.finish))?;
    rule(8, extensions_once(item, l, doubled))
}

// Refused for the first of rules 9 to 14 that is broken.
pub(crate) fn rules_9_to_14(
    item: &[u8],
    slots: [Option<Held>; 23],
    critical: bool,
    r: Readings,
    role: u64,
) -> Result<(), Refusal>
    ensures { (x : Element) → Placed paper item.now x slots → critical ≡ critical_of paper item.now x true → result ≡ told 9 (rules9to14 item.now x r role) }
{
    let usage = slots[1];
    rule(9, usage_good(item, usage, role))?;
    let constraints = slots[5];
    rule(10, constraints_good(item, constraints, role))?;
    rule(11, keys_good(r.own, r.authority, role))?;
    rule(12, four_there(slots))?;
    let documents = slots[22];
    rule(13, documents_good(item, documents, role))?;
    rule(14, !critical)
}

// 3: serial positive, at most 20 octets.
#[tactic(auto, unfolding(crate::specs::Rules::rule3, crate::specs::Rules::serial_good, octets::specs::Alike::alike))]
fn serial_good(item: &[u8], l: Layout) -> bool
    ensures { result ≡ rule3 item.now l }
{
    let c = contents(item, l.serial);
    c.len() <= 20 && (c.is_empty() || c[0] < 128) && !same(c, b"\x00")
}

// 5: the same two letters in issuer and subject.
#[tactic(auto, unfolding(crate::specs::Rules::same_two))]
fn same_two(one: Option<Letters>, other: Option<Letters>) -> bool
    ensures { result ≡ same_two one other }
{
    match (one, other) {
        (Some(a), Some(b)) => a.first == b.first && a.second == b.second,
        _ => false,
    }
}

// 8: at least one extension, and no extension OID stands twice.
fn extensions_once(item: &[u8], l: Layout, doubled: bool) -> bool
    requires { doubled ≡ doubled_of paper item.now l.extensions }
    ensures { result ≡ rule8 item.now l }
{
    let extensions = l.extensions;
    element_at(item, extensions.contents, extensions.end).is_some() && !doubled
}

// 9: keyUsage critical, its contents by role.
fn usage_good(item: &[u8], usage: Option<Held>, role: u64) -> bool
    ensures { (x : Option Extension) → usage ≡ held_of x → result ≡ critical_with item.now (usage_of role) x }
{
    if role == 3 {
        return critical_with(item, b"\x03\x02\x07\x80", usage);
    }
    critical_with(item, b"\x03\x02\x01\x06", usage)
}

// 10: basicConstraints critical and of one form in anchor and link, absent in a document signer.
fn constraints_good(item: &[u8], constraints: Option<Held>, role: u64) -> bool
    ensures { (x : Option Extension) → constraints ≡ held_of x → result ≡ constrained item.now role x }
{
    if role == 3 {
        return constraints.is_none();
    }
    critical_with(item, b"\x30\x06\x01\x01\xff\x02\x01\x00", constraints)
}

// An extension that is critical and has those contents.
fn critical_with(item: &[u8], octets: &[u8], held: Option<Held>) -> bool
    ensures { (x : Option Extension) → held ≡ held_of x → result ≡ critical_with item.now octets.now x }
{
    let Some(own) = held else {
        return false;
    };
    if !own.critical {
        return false;
    }
    holds(item, value_of(own), octets)
}

// 11: the subject's key identifier in anchor and link, the authority's in link and document signer.
#[tactic(auto, unfolding(crate::specs::Rules::both_keys))]
fn keys_good(own: KeyId, authority: KeyId, role: u64) -> bool
    ensures { result ≡ both_keys own authority role }
{
    key_good(role != 3, own) && key_good(role != 1, authority)
}

#[tactic(auto, unfolding(crate::specs::Rules::key_good))]
fn key_good(wanted: bool, key: KeyId) -> bool
    ensures { result ≡ key_good wanted key }
{
    match key {
        KeyId::Misformed => false,
        KeyId::Keyless => !wanted,
        KeyId::Key { at: _, end: _ } => true,
    }
}

// 12: 2.5.29.16, .17, .18 and .31 present, not critical.
fn four_there(slots: [Option<Held>; 23]) -> bool
    ensures { (s : List ℕ) (x : Element) → Placed paper s x slots → result ≡ rule12 s x }
{
    if !there_uncritical(slots[2]) {
        return false;
    }
    if !there_uncritical(slots[3]) {
        return false;
    }
    if !there_uncritical(slots[4]) {
        return false;
    }
    there_uncritical(slots[17])
}

fn there_uncritical(held: Option<Held>) -> bool
    ensures { (x : Option Extension) → held ≡ held_of x → result ≡ uncritical x }
{
    match held {
        Some(own) => !own.critical,
        None => false,
    }
}

// 13: the document type list of a document signer.
fn documents_good(item: &[u8], documents: Option<Held>, role: u64) -> bool
    ensures { (x : Option Extension) → documents ≡ held_of x → result ≡ cond (eqb role 3) (documents_in item.now x) true }
{
    role != 3 || document_types(item, documents)
}
