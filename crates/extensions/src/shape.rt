// The shape of an extension.
ghost use Rattle.std.specs.Prelude.{◌≡◌};
ghost use Rattle.der.specs.Forms.{paper};
ghost use Rattle.extensions.specs.Extensions.{holding_of, extension_of};

use crate::Extension;
use elements::{Element, element_at, element_tagged};

// SEQUENCE {OID, optional BOOLEAN which is then TRUE, OCTET STRING}.
pub(crate) fn any_extension(item: &[u8], e: Element) -> Option<Extension>
    ensures { result ≡ extension_of paper item.now e }
{
    if e.tag != 0x30 {
        return None;
    }
    let oid = element_tagged(item, e.contents, e.end, 0x06)?;
    let next = element_at(item, oid.end, e.end)?;
    if next.tag != 0x01 {
        return holding(e, oid, false, Some(next));
    }
    let flag = next.contents;
    if item.len() <= flag || item[flag] != 0xff {
        return None;
    }
    holding(e, oid, true, element_at(item, next.end, e.end))
}

// The OCTET STRING, which is the extension's last element.
fn holding(
    extension: Element,
    oid: Element,
    critical: bool,
    next: Option<Element>,
) -> Option<Extension>
    ensures { result ≡ holding_of extension oid critical next }
{
    let value = next?;
    if value.tag != 0x04 || value.end != extension.end {
        return None;
    }
    Some(Extension {
        oid,
        critical,
        value,
    })
}
