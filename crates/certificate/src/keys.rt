// Key identifiers and the document type list, inside the extensions that hold them.
ghost use Rattle.std.specs.Prelude.{◌≡◌, true, Option};
ghost use Rattle.extensions.specs.declared.Extension.{Extension};
ghost use Rattle.extensions.specs.Extensions.{held_of};
ghost use Rattle.certificate.specs.Keys.{walks, octet_string, first_of, key_in, types_in, list_good, documents_in};
ghost use Rattle.certificate.specs.Values.{value_of, value_in};

use der::walk;
use elements::{Element, contents, element_at, element_tagged, fills, holds};
use extensions::Held;

// Where the contents of a key identifier start and end; that there is none; that it has not its form.
#[derive(Clone, Copy)]
pub enum KeyId {
    Key { at: usize, end: usize },
    Keyless,
    Misformed,
}

// The value of an extension that is there and not critical, and whose contents pass the walk; that there is none; that it is
// otherwise.
#[derive(Clone, Copy)]
pub enum Value {
    Stands(Element),
    Missing,
    Unfit,
}

pub(crate) fn subject_key(item: &[u8], held: Option<Held>) -> KeyId
    ensures { (x : Option Extension) → held ≡ held_of x → result ≡ key_in item.now x (octet_string item.now) }
{
    match value_in(item, held) {
        Value::Missing => KeyId::Keyless,
        Value::Unfit => KeyId::Misformed,
        Value::Stands(value) => octet_string(item, value),
    }
}

pub(crate) fn authority_key(item: &[u8], held: Option<Held>) -> KeyId
    ensures { (x : Option Extension) → held ≡ held_of x → result ≡ key_in item.now x (first_of item.now) }
{
    match value_in(item, held) {
        Value::Missing => KeyId::Keyless,
        Value::Unfit => KeyId::Misformed,
        Value::Stands(value) => first_of(item, value),
    }
}

fn value_in(item: &[u8], held: Option<Held>) -> Value
    ensures { result ≡ value_in item.now held }
{
    let Some(own) = held else {
        return Value::Missing;
    };
    if own.critical {
        return Value::Unfit;
    }
    let value = value_of(own);
    if walks_alone(item, value) {
        return Value::Stands(value);
    }
    Value::Unfit
}

// The value of an extension, from its contents on.
pub(crate) fn value_of(held: Held) -> Element
    ensures { result ≡ value_of held }
{
    Element {
        tag: 0x04,
        at: held.start,
        contents: held.start,
        end: held.end,
    }
}

// Whether an extension's contents pass the walk, depth and count from the start.
#[tactic(auto, unfolding(crate::specs::Keys::walks, crate::specs::Keys::passes))]
fn walks_alone(item: &[u8], value: Element) -> bool
    ensures { result ≡ walks item.now value }
{
    lone(item, value) || walk(contents(item, value)).is_ok()
}

// Whether they are an OCTET STRING, or a SEQUENCE of one element with tag 80, all headers short, as in most key
// identifiers.
fn lone(item: &[u8], value: Element) -> bool
    ensures { result ≡ true → walks item.now value ≡ true }
{
    let at = value.contents;
    let end = value.end;
    if fills(item, at, end, 0x04) {
        return true;
    }
    if !fills(item, at, end, 0x30) {
        return false;
    }
    fills(item, at + 2, end, 0x80)
}

// One OCTET STRING.
#[tactic(auto, unfolding(crate::specs::Keys::octet_string, elements::specs::Elements::on_found))]
fn octet_string(item: &[u8], value: Element) -> KeyId
    ensures { result ≡ octet_string item.now value }
{
    let Some(key) = element_tagged(item, value.contents, value.end, 0x04) else {
        return KeyId::Misformed;
    };
    KeyId::Key {
        at: key.contents,
        end: key.end,
    }
}

// A SEQUENCE whose first member is tag 80.
#[tactic(auto, unfolding(crate::specs::Keys::first_of, elements::specs::Elements::on_found))]
fn first_of(item: &[u8], value: Element) -> KeyId
    ensures { result ≡ first_of item.now value }
{
    let Some(sequence) = element_tagged(item, value.contents, value.end, 0x30) else {
        return KeyId::Misformed;
    };
    let Some(key) = element_tagged(item, sequence.contents, sequence.end, 0x80) else {
        return KeyId::Misformed;
    };
    KeyId::Key {
        at: key.contents,
        end: key.end,
    }
}

// The document type list, not critical.
pub(crate) fn document_types(item: &[u8], held: Option<Held>) -> bool
    ensures { (x : Option Extension) → held ≡ held_of x → result ≡ documents_in item.now x }
{
    match value_in(item, held) {
        Value::Missing => false,
        Value::Unfit => false,
        Value::Stands(value) => list_good(item, value),
    }
}

// SEQUENCE {INTEGER 0, SET of one or more PrintableStrings of 1 or 2 octets}.
#[tactic(auto, unfolding(crate::specs::Keys::list_good, elements::specs::Elements::on_found))]
fn list_good(item: &[u8], value: Element) -> bool
    ensures { result ≡ list_good item.now value }
{
    let Some(sequence) = element_tagged(item, value.contents, value.end, 0x30) else {
        return false;
    };
    let Some(version) = element_tagged(item, sequence.contents, sequence.end, 0x02) else {
        return false;
    };
    let Some(types) = element_tagged(item, version.end, sequence.end, 0x31) else {
        return false;
    };
    types.end == sequence.end && holds(item, version, b"\x00") && types_good(item, types)
}

// One or more PrintableStrings of 1 or 2 octets.
fn types_good(item: &[u8], types: Element) -> bool
    ensures { result ≡ types_in item.now types }
{
    let end = types.end;
    let mut at = types.contents;
    if element_at(item, at, end).is_none() {
        return false;
    }
    loop {
        let Some(e) = element_at(item, at, end) else {
            return true;
        };
        if e.tag != 0x13 || !matches!(contents(item, e).len(), 1..=2) {
            return false;
        }
        at = e.end;
    }
}
