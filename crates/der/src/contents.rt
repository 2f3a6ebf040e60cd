// The contents octets of the primitive universal types that are judged.
ghost use Rattle.std.specs.Prelude.{true, ◌≡◌};
ghost use Rattle.der.specs.Contents.{boolean_good, integer_good, bit_string_good, oid_good, contents_good};

pub(crate) fn contents_good(tag: usize, c: &[u8]) -> bool
    ensures { result ≡ contents_good tag c.now }
{
    match tag {
        1 => boolean_good(c),
        2 => integer_good(c),
        3 => bit_string_good(c),
        5 => c.len() == 0,
        6 => oid_good(c),
        _ => true,
    }
}

#[tactic(auto, unfolding(crate::specs::Contents::boolean_good))]
pub(crate) fn boolean_good(c: &[u8]) -> bool
    ensures { result ≡ boolean_good c.now }
{
    c.len() == 1 && (c[0] == 0 || c[0] == 0xff)
}

pub(crate) fn integer_good(c: &[u8]) -> bool
    ensures { result ≡ integer_good c.now }
{
    if c.len() < 2 {
        return c.len() == 1;
    }
    match c[0] {
        0 => 0x80 <= c[1],
        0xff => c[1] < 0x80,
        _ => true,
    }
}

pub(crate) fn bit_string_good(c: &[u8]) -> bool
    ensures { result ≡ bit_string_good c.now }
{
    if c.len() == 0 || 7 < c[0] {
        return false;
    }
    let unused = c[0];
    if c.len() == 1 {
        return unused == 0;
    }
    c[c.len() - 1] % (1 << unused) == 0
}

pub(crate) fn oid_good(c: &[u8]) -> bool
    ensures { result ≡ oid_good c.now }
{
    if c.len() == 0 {
        return false;
    }
    if three_low(c) {
        return true;
    }
    if c[0] == 0x80 {
        return false;
    }
    for i in 1..c.len() {
        if c[i] == 0x80 && c[i - 1] < 0x80 {
            return false;
        }
    }
    c[c.len() - 1] < 0x80
}

// Whether the contents are three octets below 80, an OID as most attributes and extensions have it.
fn three_low(c: &[u8]) -> bool
    ensures { result ≡ true → oid_good c.now ≡ true }
{
    if c.len() != 3 || 0x80 <= c[0] || 0x80 <= c[1] {
        return false;
    }
    c[2] < 0x80
}
