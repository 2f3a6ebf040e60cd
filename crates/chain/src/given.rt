// The test of a chain that is given, place by place and step by step.
ghost use Rattle.std.specs.Prelude.{◌≡◌, ◌≤◌, ◌<◌};
ghost use Rattle.usable.specs.Rows.{held_in};
ghost use Rattle.chain.specs.Given.{Decides, InRange, RolesFit, StepsFit, role_asked, joined};

use octets::octet;
use usable::matched;

// Each place before the last has the role that is asked of it.
pub(crate) fn roles_fit(roles: [u8; 96], places: &[u8]) -> bool
    requires { InRange 96 places.now }
    ensures { Decides (RolesFit roles places.now) result }
{
    let end = places.len() - 1;
    for i in 0..end {
        let place = places[i] as usize;
        if roles[place] != role_asked(i) {
            return false;
        }
    }
    true
}

// An anchor, then links.
fn role_asked(i: usize) -> u8
    ensures { result ≡ role_asked i }
{
    if i == 0 {
        return 1;
    }
    2
}

// Each place has a good step to the next, where their roles fit.
pub(crate) fn steps_fit(
    image: &[u8],
    table: &[u8],
    count: usize,
    rows: &[[usize; 17]; 96],
    places: &[u8],
) -> bool
    requires { (count ≤ 96) × InRange count places.now }
    ensures { Decides (StepsFit (held_in image.now) count table.now rows.now places.now) result }
{
    let last = places.len() - 1;
    for i in 0..last {
        let u = places[i] as usize;
        let v = places[i + 1] as usize;
        if !step_fits(image, table, count, rows, u, v) {
            return false;
        }
    }
    true
}

// Verdict 1, and the second place fits the first. That it is a link or the signer is asked of its role.
fn step_fits(
    image: &[u8],
    table: &[u8],
    count: usize,
    rows: &[[usize; 17]; 96],
    u: usize,
    v: usize,
) -> bool
    requires { (count ≤ 96) × (u < count) × (v < count) }
    ensures { result ≡ joined (held_in image.now) count table.now rows.now u v }
{
    octet(table, u * count + v) == 1 && matched(image, rows, u, v, 2)
}
