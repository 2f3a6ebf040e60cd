// OIDs without a slot that stand twice.
ghost use Rattle.std.specs.Prelude.{◌≡◌};
ghost use Rattle.der.specs.Forms.{paper};
ghost use Rattle.elements.specs.Elements.{inside};
ghost use Rattle.extensions.specs.Strange.{strange_oids, twice_in, Compared};

use crate::rows::{VACANT, equal_rows, row_of};
use crate::stranger::{Stranger, stranger_from};
use elements::Element;

// Whether one stands twice: round by round, until none is left.
pub(crate) fn doubled(item: &[u8], extensions: Element) -> bool
    ensures { result ≡ twice_in (strange_oids paper item.now (inside paper item.now extensions)) }
{
    let end = extensions.end;
    let mut round = compared(item, extensions.contents, end);
    while round.rest < end {
        round = compared(item, round.rest, end);
    }
    round.twice
}

// Of a round: whether an OID stands twice, and the offset of the first extension that the table had no room for.
#[derive(Clone, Copy)]
pub struct Round {
    pub twice: bool,
    pub rest: usize,
}

// Each OID is compared with those in the table, by a number of its octets first. The table takes the first 64 of them.
fn compared(item: &[u8], from: usize, end: usize) -> Round
    ensures { Compared paper item.now from end result }
{
    let mut table = [VACANT; 64];
    let mut count = 0;
    let mut rest = end;
    let mut twice = false;
    let mut at = from;
    'each: loop {
        let Some(Stranger { place, next, oid }) = stranger_from(item, at, end) else {
            break 'each;
        };
        let own = row_of(item, oid);
        for i in 0..count {
            let other = table[i];
            if other.last == own.last {
                if equal_rows(item, own, other) {
                    twice = true;
                    rest = end;
                    break 'each;
                }
            }
        }
        if count < 64 {
            table[count] = own;
            count += 1;
        } else if rest == end {
            rest = place;
        }
        at = next;
    }
    Round { twice, rest }
}
