// Copying octets.
ghost use Rattle.std.specs.Prelude.{◌≡◌, ◌++◌, ◌≤◌, length, drop};

// In blocks of 128, and what is left octet by octet. A local array of this size tells the compiler that nothing overlaps, and
// it copies a block by loads and stores. For parts of any length, or larger ones, it calls C's memmove, which may be absent.
pub(crate) fn copy(from: &[u8], out: &mut [u8])
    requires { length from.now ≤ length out.old }
    ensures { out.new ≡ from.now ++ drop (length from.now) out.old }
{
    let blocks = from.len() / 128;
    for block in 0..blocks {
        let at = 128 * block;
        let mut held = [0u8; 128];
        held.copy_from_slice(&from[at..at + 128]);
        out[at..at + 128].copy_from_slice(&held);
    }
    for i in 128 * blocks..from.len() {
        out[i] = from[i];
    }
}
