// What is kept of an extension, and whether it is critical.
ghost use Rattle.std.specs.Prelude.{◌≡◌, true, false, List, ℕ};
ghost use Rattle.extensions.specs.Extensions.{present, refused_critical, held_of, Slotted};

use crate::{Extension, Held};

pub(crate) fn held_of(extension: Option<Extension>) -> Option<Held>
    ensures { result ≡ held_of extension }
{
    let own = extension?;
    Some(Held {
        critical: own.critical,
        start: own.value.contents,
        end: own.value.end,
    })
}

// Whether there is one.
pub fn is_there(extension: Option<Extension>) -> bool
    ensures { result ≡ present extension }
{
    extension.is_some()
}

// Whether an extension is critical.
pub(crate) fn is_critical(extension: Option<Extension>) -> bool
    ensures { (s : List ℕ) → result ≡ refused_critical s false extension }
{
    match extension {
        Some(own) => own.critical,
        None => false,
    }
}

// Whether an extension is critical and neither keyUsage nor basicConstraints, by its slot.
pub(crate) fn unusual(extension: Option<Extension>, slot: usize) -> bool
    ensures { (s : List ℕ) → Slotted s extension slot → result ≡ refused_critical s true extension }
{
    match extension {
        Some(own) => own.critical & (slot != 1) & (slot != 5),
        None => false,
    }
}
