// The country of a name.
ghost use Rattle.std.specs.Prelude.{◌≡◌};
ghost use Rattle.der.specs.Forms.{paper};
ghost use Rattle.names.specs.Country.{begins, country_in};

use crate::{Letters, Seen, letters_of, name_of};
use elements::{Element, contents};
use octets::{part, same};

// The letters of a name that holds countryName once. Where the first SET is a countryName in its usual form, nothing is read behind it.
pub fn country_in(item: &[u8], e: Element) -> Option<Letters>
    ensures { result ≡ country_in paper item.now e }
{
    if begins_usual(contents(item, e)) {
        let at = e.contents;
        let value = Element {
            tag: 0x13,
            at: at + 9,
            contents: at + 11,
            end: at + 13,
        };
        return letters_of(item, Seen::Once(value));
    }
    letters_of(item, name_of(item, e)?)
}

// A SET of one countryName, a PrintableString of two octets.
#[tactic(auto, using(std::proofs::lemmas::Bool::Decides::nat_tests), unfolding(crate::specs::Country::begins))]
fn begins_usual(c: &[u8]) -> bool
    ensures { result ≡ begins c.now }
{
    c.len() >= 13
        && same(
            part(c, 0, 11),
            b"\x31\x0b\x30\x09\x06\x03\x55\x04\x06\x13\x02",
        )
}
