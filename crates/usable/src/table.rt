// The verdict table.
ghost use Rattle.std.specs.Prelude.{◌≡◌, false, ◌≤◌, ◌<◌};
ghost use Rattle.usable.specs.Table.{bits, table_good};

// Octets for each pair of places, each 0 or 1; for more than 96 places none is good.
pub fn table_good(places: usize, table: &[u8]) -> bool
    ensures { (places ≤ 96 → result ≡ table_good places table.now) × (96 < places → result ≡ false) }
{
    if 96 < places {
        return false;
    }
    if table.len() != places * places {
        return false;
    }
    all_bits(table)
}

// By the largest, with no exit before the last octet.
fn all_bits(table: &[u8]) -> bool
    ensures { result ≡ bits table.now }
{
    let mut most = 0;
    for octet in table {
        most = most.max(*octet);
    }
    most <= 1
}
