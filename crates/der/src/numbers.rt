// An item that is one INTEGER, as a signed 64-bit number.
ghost use Rattle.std.specs.Prelude.{◌≡◌, ◌≤◌, length};
ghost use Rattle.der.specs.Forms.{paper};
ghost use Rattle.octets.specs.Octets.{twos};
ghost use Rattle.der.specs.Integer.{integer_of};

use crate::heading::{Heading, header};
use crate::limits::PAPER;
use crate::walking::walk;
use refusal::Refusal;

pub fn integer(item: &[u8]) -> Result<i64, Refusal>
    ensures { result ≡ integer_of paper item.now }
{
    walk(item)?;
    let Heading { tag, skip, size } = header(PAPER, item).ok_or(Refusal::Argument)?;
    if tag != 2 {
        return Err(Refusal::Argument);
    }
    if 8 < size {
        return Err(Refusal::Wide);
    }
    let end = skip + size;
    Ok(signed(&item[skip..end]))
}

// The two's complement number of at most eight octets: `most` is the largest number that as many octets write.
fn signed(c: &[u8]) -> i64
    requires { length c.now ≤ 8 }
    ensures { result ≡ twos c.now }
{
    if c.len() == 0 {
        return 0;
    }
    let first = c[0];
    let mut value: u64 = 0;
    let mut most: u64 = 0;
    for &octet in c {
        value = value * 256 + octet as u64;
        most = most * 256 + 255;
    }
    if first < 128 {
        return value as i64;
    }
    -1 - (most - value) as i64
}
