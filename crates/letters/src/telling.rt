// The true letters of an item.
ghost use Rattle.std.specs.Prelude.{◌≡◌};
ghost use Rattle.letters.specs.TrueLetters.{true_of, spells};

// The letters of an issuer's country, or two zeros.
#[derive(Clone, Copy, PartialEq, Eq)]
pub struct Country {
    pub first: u8,
    pub second: u8,
}

pub const NO_COUNTRY: Country = Country {
    first: 0,
    second: 0,
};

// Those that an item reports where it passes its profile for its kind, else two zeros.
pub fn true_letters(item: &[u8], kind: usize) -> Country
    ensures { result ≡ true_of kind item.now }
{
    if kind == 4 {
        crl::judge(item).map_or(
            NO_COUNTRY,
            |f| Country {
                first: f.first,
                second: f.second,
            },
        )
    } else {
        certificate::judge(item, kind as u64).map_or(
            NO_COUNTRY,
            |f| Country {
                first: f.first,
                second: f.second,
            },
        )
    }
}

// Whether two letters are a country's.
#[tactic(auto, unfolding(crate::specs::TrueLetters::spells))]
pub fn spell(first: u8, second: u8, country: Country) -> bool
    ensures { result ≡ spells first second country }
{
    Country { first, second } == country
}
