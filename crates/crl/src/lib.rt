// Whether an item is a CRL of the profile, its fields, whether it lists a serial, and its age.
#![tactic(auto)]

mod countries;
mod entries;
mod fast;
mod listing;
mod own;
mod pair;
mod reasons;
mod rules;
mod shapes;
mod stamps;
mod usual;

ghost use Rattle.std.specs.Prelude.{◌≡◌};
ghost use Rattle.der.specs.Forms.{paper};
ghost use Rattle.crl.specs.Age.{age_of};
ghost use Rattle.crl.specs.Answer.{fields_of, profile_of, judged_of};

use calendar::{day_difference, real_day};
pub use countries::country;
use der::walk;
pub use listing::listed;
use names::{first_letter, second_letter};
use octets::between;
use own::own_of;
use refusal::Refusal;
use rules::{Readings, readings_of, rule, rules_2_to_8};
use shapes::{Layout, parts_of};
use times::moment;

// Both updates as YYYYMMDDHHMMSS, the issuer's letters, the number of entries, offset and length of the issuer with its
// header, and where the entries stand.
#[derive(Clone, Copy)]
pub struct Fields {
    pub this_update: u64,
    pub next_update: u64,
    pub first: u8,
    pub second: u8,
    pub entries: usize,
    pub issuer_at: usize,
    pub issuer_len: usize,
    pub entries_from: usize,
    pub entries_end: usize,
}

#[tactic(auto, unfolding(crate::specs::Answer::judged_of, crate::specs::Answer::on_walk))]
pub fn judge(item: &[u8]) -> Result<Fields, Refusal>
    ensures { result ≡ judged_of paper item.now }
{
    walk(item)?;
    profile(item)
}

// The rules in order, and the fields where all of them hold.
fn profile(item: &[u8]) -> Result<Fields, Refusal>
    ensures { result ≡ profile_of paper item.now }
{
    let Some(l) = parts_of(item) else {
        return Err(Refusal::Profile { rule: 1 });
    };
    let own = own_of(item, l.extensions);
    rule(1, own.shaped)?;
    let r = readings_of(item, l);
    rules_2_to_8(item, l, r, own)?;
    Ok(fields_of(l, r))
}

#[tactic(auto, unfolding(crate::specs::Answer::fields_of))]
fn fields_of(l: Layout, r: Readings) -> Fields
    ensures { result ≡ fields_of l r }
{
    Fields {
        this_update: moment(r.current),
        next_update: moment(r.coming),
        first: first_letter(r.country),
        second: second_letter(r.country),
        entries: l.count,
        issuer_at: l.issuer.at,
        issuer_len: between(l.issuer.at, l.issuer.end),
        entries_from: l.listing.from,
        entries_end: l.listing.end,
    }
}

// The days from the CRL's this-update day to a day.
#[tactic(auto, unfolding(crate::specs::Age::age_of, crate::specs::Age::aged_by))]
pub fn age(item: &[u8], day: u64) -> Result<i64, Refusal>
    ensures { result ≡ age_of item.now day }
{
    if !real_day(day) {
        return Err(Refusal::Argument);
    }
    let fields = judge(item)?;
    day_difference(fields.this_update / 1000000, day)
}
