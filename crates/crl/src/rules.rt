// Rules 2 to 8 of the CRL profile, each told by its number where it is the first that is broken.
ghost use Rattle.std.specs.Prelude.{◌≡◌, List, ℕ, cond, Ok, Err};
ghost use Rattle.der.specs.Forms.{paper};
ghost use Rattle.refusal.specs.declared.Refusal.TheVariants.{Profile};
ghost use Rattle.crl.specs.Own.{own_of};
ghost use Rattle.crl.specs.Rules.{readings_of, rule4, rule5, rule6, rule7, rule8, rules2to8, told};

use crate::own::Own;
use crate::shapes::Layout;
use elements::{holds, twins};
use names::{Letters, letters_of};
use refusal::Refusal;
use times::{in_order, time_of};

// What several rules and the answer read, each once.
#[derive(Clone, Copy)]
pub struct Readings {
    pub current: Option<u64>,
    pub coming: Option<u64>,
    pub country: Option<Letters>,
}

#[tactic(auto, unfolding(crate::specs::Rules::readings_of))]
pub(crate) fn readings_of(item: &[u8], l: Layout) -> Readings
    ensures { result ≡ readings_of item.now l }
{
    Readings {
        current: time_of(item, l.current),
        coming: time_of(item, l.coming),
        country: letters_of(item, l.country),
    }
}

// Refused by its number where it does not hold.
pub(crate) fn rule(rule: u64, holds: bool) -> Result<(), Refusal>
    ensures { result ≡ cond holds (Ok tt) (Err (Profile rule)) }
{
    if holds {
        Ok(())
    } else {
        Err(Refusal::Profile { rule })
    }
}

// Refused for the first of rules 2 to 8 that is broken.
#[tactic(auto, unfolding(crate::specs::Rules::told, crate::specs::Rules::rules2to8, crate::specs::Rules::rule2, crate::specs::Rules::rule3))]
pub(crate) fn rules_2_to_8(item: &[u8], l: Layout, r: Readings, own: Own) -> Result<(), Refusal>
    requires { own ≡ own_of paper item.now l.extensions }
    ensures { result ≡ told 2 (rules2to8 paper item.now l r) }
{
    rule(2, holds(item, l.version, b"\x01"))?;
    rule(3, twins(item, l.inner, l.outer))?;
    rule(4, country_good(r))?;
    rule(5, times_good(l, r))?;
    rule(6, list_filled(l))?;
    rule(7, extensions_good(own))?;
    rule(8, nothing_critical(l, own))
}

// 4: the issuer's country, once and as two letters.
#[tactic(auto, unfolding(crate::specs::Rules::rule4, crate::specs::Rules::two_letters))]
fn country_good(r: Readings) -> bool
    ensures { result ≡ rule4 r }
{
    r.country.is_some()
}

// 5: all times are times, this update not after next update.
#[tactic(auto, unfolding(crate::specs::Rules::rule5))]
fn times_good(l: Layout, r: Readings) -> bool
    ensures { result ≡ rule5 l r }
{
    in_order(r.current, r.coming) && l.timely
}

// 6: the entry list, if there, is not empty.
#[tactic(auto, unfolding(crate::specs::Rules::rule6))]
fn list_filled(l: Layout) -> bool
    ensures { result ≡ rule6 l }
{
    !l.listing.there || l.count != 0
}

// 7: no OID twice, authorityKeyIdentifier and cRLNumber there.
fn extensions_good(own: Own) -> bool
    ensures { (s : List ℕ) (l : Layout) → own ≡ own_of paper s l.extensions → result ≡ rule7 paper s l }
{
    !own.doubled && own.keyed && own.numbered
}

// 8: nothing critical, in entries either.
fn nothing_critical(l: Layout, own: Own) -> bool
    ensures { (s : List ℕ) → own ≡ own_of paper s l.extensions → result ≡ rule8 paper s l }
{
    !own.marked && l.calm
}
