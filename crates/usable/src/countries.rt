// Whether an item is of a country.
ghost use Rattle.std.specs.Prelude.{◌≡◌, ℕ};
ghost use Rattle.usable.specs.Country.{country_of, is_of, home_of};

use names::Letters;

// Whether the issuer of an item of a kind has these two letters.
pub fn of_country(item: &[u8], kind: usize, first: usize, second: usize) -> bool
    ensures { (flags a b : ℕ) → result ≡ home_of first second (record { kind = kind; flags = flags; bytes = item.now; first = a; second = b }) }
{
    is_of(country_of(item, kind), first, second)
}

// The letters of the item's issuer.
fn country_of(item: &[u8], kind: usize) -> Option<Letters>
    ensures { (flags a b : ℕ) → result ≡ country_of (record { kind = kind; flags = flags; bytes = item.now; first = a; second = b }) }
{
    if kind == 4 {
        return crl::country(item);
    }
    certificate::country(item)
}

// Whether letters are those two.
fn is_of(letters: Option<Letters>, first: usize, second: usize) -> bool
    ensures { result ≡ is_of first second letters }
{
    let Some(
        Letters {
            first: a,
            second: b,
        },
    ) = letters
    else {
        return false;
    };
    a as usize == first && b as usize == second
}
