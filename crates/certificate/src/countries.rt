// The issuer's country of an item, read without the walk and without anything behind the issuer.
ghost use Rattle.std.specs.Prelude.{◌≡◌};
ghost use Rattle.certificate.specs.Country.{issuer_of, country_of};

use elements::{Element, any_tagged, element_tagged};
use names::{Letters, country_in};

// The letters that a certificate which passes reports; of another item whatever stands there, if anything does.
#[tactic(auto, unfolding(crate::specs::Country::country_of, elements::specs::Elements::on_found))]
pub fn country(item: &[u8]) -> Option<Letters>
    ensures { result ≡ country_of item.now }
{
    let outermost = any_tagged(item, 0, item.len(), 0x30)?;
    let tbs = any_tagged(item, outermost.contents, outermost.end, 0x30)?;
    country_in(item, issuer_of(item, tbs)?)
}

// The fourth member of the tbs, after the version's A0, INTEGER and algorithm.
#[tactic(auto, unfolding(crate::specs::Country::issuer_of, elements::specs::Elements::on_found))]
fn issuer_of(item: &[u8], tbs: Element) -> Option<Element>
    ensures { result ≡ issuer_of item.now tbs }
{
    let end = tbs.end;
    let explicit = element_tagged(item, tbs.contents, end, 0xa0)?;
    let serial = element_tagged(item, explicit.end, end, 0x02)?;
    let inner = element_tagged(item, serial.end, end, 0x30)?;
    element_tagged(item, inner.end, end, 0x30)
}
