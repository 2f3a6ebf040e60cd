// The members of a list of extensions, one by one.
ghost use Rattle.extensions.specs.Fast.{Meets};

use crate::Extension;
use crate::fast::brief_at;
use crate::shape::any_extension;
use elements::element_at;

// A member of a list: the offset after it, and the extension that it is.
#[derive(Clone, Copy)]
pub struct Met {
    pub next: usize,
    pub own: Option<Extension>,
}

// The member that starts at an offset. Most are read by the fast path.
pub(crate) fn met_at(item: &[u8], at: usize, end: usize) -> Option<Met>
    ensures { Meets item.now at end result }
{
    match brief_at(item, at, end) {
        Some(own) => Some(Met {
            next: own.value.end,
            own: Some(own),
        }),
        None => any_at(item, at, end),
    }
}

// The same with headers of any kind.
fn any_at(item: &[u8], at: usize, end: usize) -> Option<Met>
    ensures { Meets item.now at end result }
{
    let e = element_at(item, at, end)?;
    Some(Met {
        next: e.end,
        own: any_extension(item, e),
    })
}
