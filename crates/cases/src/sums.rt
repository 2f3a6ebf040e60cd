// A checksum, by which an answer shows many octets.

// Adler-32: one more than the sum of the octets, and the sum of those sums. A remainder before each addition too, so that
// no bound has to be carried through the loop.
pub(crate) fn adler(octets: &[u8]) -> u64 {
    let mut low: u64 = 1;
    let mut high: u64 = 0;
    let mut i = 0;
    while i < octets.len() {
        low = (low % 65521 + octets[i] as u64) % 65521;
        high = (high % 65521 + low % 65521) % 65521;
        i += 1;
    }
    high % 65521 * 65536 + low % 65521
}
