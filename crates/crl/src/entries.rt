// Entries of a CRL, and what the rules ask of all of them, found in one pass.
ghost use Rattle.std.specs.Prelude.{◌≡◌};
ghost use Rattle.der.specs.Forms.{paper};
ghost use Rattle.crl.specs.Entries.{entry_of, survey_of};

use crate::stamps::{is_full, is_time, is_utc};
use crate::usual::usual_time;
use elements::{Element, element_at, element_tagged};
use extensions::outline_of;
use times::time_at;

// An entry's serial and time, and whether one of its extensions is critical.
#[derive(Clone, Copy)]
pub struct Entry {
    pub serial: Element,
    pub time: Element,
    pub marked: bool,
}

// The number of entries, whether each has a time that is one, and whether none has a critical extension.
#[derive(Clone, Copy)]
pub struct Survey {
    pub count: usize,
    pub timely: bool,
    pub calm: bool,
}

// Most entries are taken by the fast path, with a UTCTime or a GeneralizedTime.
pub(crate) fn survey_of(item: &[u8], from: usize, end: usize) -> Option<Survey>
    ensures { result ≡ survey_of paper item.now from end }
{
    let mut count = 0;
    let mut timely = true;
    let mut calm = true;
    let mut at = from;
    loop {
        if let Some(utc) = usual_time(item, at, end, 0x17, 13) {
            if !is_utc(item, utc) {
                timely = false;
            }
            count += 1;
            at = at + 2 + item[at + 1] as usize;
            continue;
        }
        if let Some(full) = usual_time(item, at, end, 0x18, 15) {
            timely = timely & is_full(item, full);
            count += 1;
            at = at + 2 + item[at + 1] as usize;
            continue;
        }
        let Some(e) = element_at(item, at, end) else {
            return Some(Survey {
                count,
                timely,
                calm,
            });
        };
        let entry = entry_of(item, e)?;
        timely = timely & is_time(item, entry.time);
        calm = calm & !entry.marked;
        count += 1;
        at = e.end;
    }
}

// SEQUENCE {INTEGER, time, optional SEQUENCE of extensions}.
#[tactic(auto, unfolding(crate::specs::Entries::entry_of, crate::specs::Entries::extended, elements::specs::Elements::on_found))]
fn entry_of(item: &[u8], e: Element) -> Option<Entry>
    ensures { result ≡ entry_of paper item.now e }
{
    if e.tag != 0x30 {
        return None;
    }
    let serial = element_tagged(item, e.contents, e.end, 0x02)?;
    let time = time_at(item, serial.end, e.end)?;
    if time.end == e.end {
        return Some(Entry {
            serial,
            time,
            marked: false,
        });
    }
    let extensions = element_tagged(item, time.end, e.end, 0x30)?;
    if extensions.end != e.end {
        return None;
    }
    let seen = outline_of(item, extensions);
    seen.shaped.then_some(Entry {
        serial,
        time,
        marked: seen.marked,
    })
}
