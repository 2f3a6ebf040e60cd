// Parts of a string of octets, whatever the offsets.
ghost use Rattle.std.specs.Prelude.{◌≡◌, ◌-◌, get_or, take, drop};

// As many octets as there are, from an offset on.
pub fn part(octets: &[u8], from: usize, size: usize) -> &[u8]
    ensures { result.now ≡ take size (drop from octets.now) }
{
    let rest = octets.get(from..).unwrap_or(&[]);
    rest.get(..size).unwrap_or(rest)
}

// How many octets stand from one offset to another.
pub fn between(at: usize, end: usize) -> usize
    ensures { result ≡ end - at }
{
    end.saturating_sub(at)
}

// An octet of a table, 0 beyond its end.
pub fn octet(table: &[u8], i: usize) -> u8
    ensures { result ≡ get_or table.now i 0 }
{
    table.get(i).copied().unwrap_or(0)
}
