// What the rules ask of the CRL's own extensions, found in one pass where they are not the usual two.
ghost use Rattle.std.specs.Prelude.{◌≡◌};
ghost use Rattle.der.specs.Forms.{paper};
ghost use Rattle.crl.specs.Own.{own_of};

use crate::pair::usual_pair;
use elements::Element;
use extensions::one_pass;

// Whether each is an extension, whether one is critical, whether an OID stands twice, and whether
// authorityKeyIdentifier and cRLNumber are there.
#[derive(Clone, Copy)]
pub struct Own {
    pub shaped: bool,
    pub marked: bool,
    pub doubled: bool,
    pub keyed: bool,
    pub numbered: bool,
}

pub(crate) fn own_of(item: &[u8], extensions: Element) -> Own
    ensures { result ≡ own_of paper item.now extensions }
{
    if usual_pair(item, extensions) {
        return Own {
            shaped: true,
            marked: false,
            doubled: false,
            keyed: true,
            numbered: true,
        };
    }
    let seen = one_pass(item, extensions);
    Own {
        shaped: seen.shaped,
        marked: seen.marked,
        doubled: seen.doubled,
        keyed: seen.slots[21].is_some(),
        numbered: seen.slots[6].is_some(),
    }
}
