// Equal strings of octets.
ghost use Rattle.std.specs.Prelude.{◌≡◌, length};
ghost use Rattle.octets.specs.Alike.{alike};

// Whether two strings of octets are equal. They are compared in blocks of 16, fewer than 16 in blocks of 8; the last two blocks
// may overlap.
pub fn same(a: &[u8], b: &[u8]) -> bool
    ensures { result ≡ alike a.now b.now }
{
    let n = a.len();
    if n != b.len() {
        return false;
    }
    if n < 16 {
        if n < 8 {
            return same_part(a, b);
        }
        return same_part(&a[..8], &b[..8]) && same_part(&a[n - 8..], &b[n - 8..]);
    }
    for block in 0..(n - 1) / 16 {
        let at = block * 16;
        if !same_part(&a[at..at + 16], &b[at..at + 16]) {
            return false;
        }
    }
    same_part(&a[n - 16..], &b[n - 16..])
}

// The same for two of one length, with no exit before the last octet.
fn same_part(a: &[u8], b: &[u8]) -> bool
    requires { length a.now ≡ length b.now }
    ensures { result ≡ alike a.now b.now }
{
    let mut equal = true;
    for i in 0..a.len() {
        equal &= a[i] == b[i];
    }
    equal
}
