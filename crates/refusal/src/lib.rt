// The refusals of the rules paper: what a call answers when it does not pass.
#![tactic(auto)]

ghost use Rattle.std.specs.Prelude.{◌≡◌, Some};
ghost use Rattle.refusal.specs.Numbers.{number_of, detail_of};
ghost use Rattle.refusal.specs.Words.{words_of};

use std::fmt;

#[derive(Clone, Copy, Debug, PartialEq, Eq)]
pub enum Refusal {
    // An argument is outside its stated range.
    Argument,
    // A DER rule is broken by the element whose first octet stands at `at`.
    Der { at: usize },
    // A limit is passed, by the element at `at`; at 0 by the whole.
    Limit { at: usize },
    // A profile rule is broken; `rule` is the smallest.
    Profile { rule: u64 },
    // An image rule is broken; `rule` is the smallest.
    Image { rule: u64 },
    // The image's day is not the wanted day.
    Day,
    // No good chain exists.
    Chain,
    // An INTEGER asked for as a number has over 8 octets.
    Wide,
    // The lent output is shorter than the result.
    Short,
}

pub fn number(refusal: Refusal) -> u64
    ensures { result ≡ number_of refusal }
{
    match refusal {
        Refusal::Argument => 1,
        Refusal::Der { at: _ } => 2,
        Refusal::Limit { at: _ } => 3,
        Refusal::Profile { rule: _ } => 4,
        Refusal::Image { rule: _ } => 5,
        Refusal::Day => 6,
        Refusal::Chain => 7,
        Refusal::Wide => 8,
        Refusal::Short => 9,
    }
}

pub fn detail(refusal: Refusal) -> u64
    ensures { result ≡ detail_of refusal }
{
    match refusal {
        Refusal::Argument => 0,
        Refusal::Der { at } => at as u64,
        Refusal::Limit { at } => at as u64,
        Refusal::Profile { rule } => rule,
        Refusal::Image { rule } => rule,
        Refusal::Day => 0,
        Refusal::Chain => 0,
        Refusal::Wide => 0,
        Refusal::Short => 0,
    }
}

// The number, and the offset or the rule where the refusal has one.
impl fmt::Display for Refusal {
    ghost output = { λ refusal. Some (words_of refusal) };

    fn fmt<W: fmt::Write>(&self, f: &mut fmt::Formatter<W>) -> fmt::Result {
        let class = number(*self);
        let told = detail(*self);
        write!(f, "refused {class}")?;
        match self {
            Refusal::Der { at: _ } | Refusal::Limit { at: _ } => write!(f, " at {told}"),
            Refusal::Profile { rule: _ } | Refusal::Image { rule: _ } => write!(f, ", rule {told}"),
            _ => Ok(()),
        }
    }
}
