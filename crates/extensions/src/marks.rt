// The marks of OIDs: OIDs with other marks are not equal.
ghost use Rattle.std.specs.Prelude.{◌≡◌, ◌<◌};
ghost use Rattle.extensions.specs.Strange.{mark_of, own_oid};

use crate::Extension;
use elements::contents;

// The mark of an extension's OID, by its last octet and its length.
pub(crate) fn mark_of(item: &[u8], extension: Option<Extension>) -> usize
    ensures is { result ≡ mark_of (own_oid item.now extension) }
    ensures low { result < 64 }
{
    let Some(Extension { oid, .. }) = extension else {
        return 0;
    };
    let own = contents(item, oid);
    let n = own.len();
    if n == 0 {
        return 0;
    }
    (own[n - 1] as usize + n % 8 * 8) % 64
}
