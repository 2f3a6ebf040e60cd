// Whether an item is a certificate of the profile, and its fields.
#![tactic(auto)]

mod countries;
mod keys;
mod rules;
mod shapes;

ghost use Rattle.std.specs.Prelude.{◌≡◌};
ghost use Rattle.certificate.specs.Answer.{key_start, key_length, fields_of, profile_of, judged_of};

pub use countries::country;
use der::walk;
use extensions::one_pass;
use keys::KeyId;
use names::{first_letter, second_letter};
use octets::between;
use refusal::Refusal;
use rules::{Readings, readings_of, rule, rules_2_to_8, rules_9_to_14};
use shapes::{Layout, parts_of};
use times::moment;

// Start and end as YYYYMMDDHHMMSS, the issuer's letters, offset and length of issuer, subject and key with their
// headers, and of the contents of the serial and the key identifiers, 0 and 0 where one is absent.
#[derive(Clone, Copy)]
pub struct Fields {
    pub start: u64,
    pub end: u64,
    pub first: u8,
    pub second: u8,
    pub issuer_at: usize,
    pub issuer_len: usize,
    pub subject_at: usize,
    pub subject_len: usize,
    pub key_at: usize,
    pub key_len: usize,
    pub serial_at: usize,
    pub serial_len: usize,
    pub subject_key_at: usize,
    pub subject_key_len: usize,
    pub authority_key_at: usize,
    pub authority_key_len: usize,
}

// Role 1 is an anchor, 2 a link, 3 a document signer; any other is refusal 1, told before anything of the bytes.
#[tactic(auto, unfolding(crate::specs::Answer::judged_of, crate::specs::Answer::on_walk))]
pub fn judge(item: &[u8], role: u64) -> Result<Fields, Refusal>
    ensures { result ≡ judged_of item.now role }
{
    if !matches!(role, 1..=3) {
        return Err(Refusal::Argument);
    }
    walk(item)?;
    profile(item, role)
}

// The rules in order, and the fields where all of them hold.
fn profile(item: &[u8], role: u64) -> Result<Fields, Refusal>
    ensures { result ≡ profile_of item.now role }
{
    let Some(l) = parts_of(item) else {
        return Err(Refusal::Profile { rule: 1 });
    };
    let seen = one_pass(item, l.extensions);
    rule(1, seen.shaped)?;
    let slots = seen.slots;
    let r = readings_of(item, l, slots);
    rules_2_to_8(item, l, r, seen.doubled)?;
    rules_9_to_14(item, slots, seen.critical, r, role)?;
    Ok(fields_of(l, r))
}

#[tactic(auto, unfolding(crate::specs::Answer::fields_of))]
fn fields_of(l: Layout, r: Readings) -> Fields
    ensures { result ≡ fields_of l r }
{
    let (subject_key_at, subject_key_len) = place_of(r.own);
    let (authority_key_at, authority_key_len) = place_of(r.authority);
    Fields {
        start: moment(r.start),
        end: moment(r.finish),
        first: first_letter(r.issuer),
        second: second_letter(r.issuer),
        issuer_at: l.issuer.at,
        issuer_len: between(l.issuer.at, l.issuer.end),
        subject_at: l.subject.at,
        subject_len: between(l.subject.at, l.subject.end),
        key_at: l.key.at,
        key_len: between(l.key.at, l.key.end),
        serial_at: l.serial.contents,
        serial_len: between(l.serial.contents, l.serial.end),
        subject_key_at,
        subject_key_len,
        authority_key_at,
        authority_key_len,
    }
}

// Where a key identifier stands and its length, 0 and 0 where it is absent.
#[tactic(auto, unfolding(crate::specs::Answer::key_start, crate::specs::Answer::key_length))]
fn place_of(key: KeyId) -> (usize, usize)
    ensures { (result.0 ≡ key_start key) × (result.1 ≡ key_length key) }
{
    match key {
        KeyId::Key { at, end } => (at, between(at, end)),
        KeyId::Keyless | KeyId::Misformed => (0, 0),
    }
}
