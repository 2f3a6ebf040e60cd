// The slots of OIDs.
ghost use Rattle.std.specs.Prelude.{◌≡◌, [], ◌∷◌, ℕ, ◌<◌, eqb, length};
ghost use Rattle.octets.specs.Alike.{alike};
ghost use Rattle.extensions.specs.Extensions.{oid_of, Slotted};

use crate::Extension;
use elements::contents;
use octets::same;

// The slot of an extension's OID, 23 for one that has no slot, 24 for what is no extension.
pub(crate) fn slot_of(item: &[u8], extension: Option<Extension>) -> usize
    ensures { Slotted item.now extension result }
{
    let Some(Extension { oid, .. }) = extension else {
        return 24;
    };
    let own = contents(item, oid);
    if own.len() == 3 {
        return slot_by(own[0], own[1], own[2]);
    }
    slot_apart(own)
}

// The slot of an OID that has not three octets.
fn slot_apart(own: &[u8]) -> usize
    requires { length own.now ≡ 3 → ⊥ }
    ensures { (result < 24) × ((k : ℕ) → k < 23 → eqb result k ≡ alike own.now (oid_of k)) }
{
    if same(own, b"\x67\x81\x08\x01\x01\x06\x02") {
        return 22;
    }
    23
}

// The slot of an OID of three octets.
pub(crate) fn slot_by(a: u8, b: u8, c: u8) -> usize
    ensures { (result < 24) × ((k : ℕ) → k < 23 → eqb result k ≡ alike (a ∷ b ∷ c ∷ []) (oid_of k)) }
{
    if a != 0x55 {
        return 23;
    }
    if b != 0x1d {
        return 23;
    }
    if c < 14 {
        return 23;
    }
    if 35 < c {
        return 23;
    }
    c as usize - 14
}
