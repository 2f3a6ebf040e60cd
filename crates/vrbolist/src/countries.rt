// The anchors of a country.
ghost use Rattle.std.specs.Prelude.{◌≡◌};
ghost use Rattle.anchors.specs.Listing.{anchors_of, anchors_by_index};
ghost use Rattle.vrbolist.specs.Anchors.{anchors_told};

use anchors::Listing;
use refusal::Refusal;

// In a refusal count 0 and all slots 255.
#[repr(C)]
#[derive(Clone, Copy)]
pub struct AnchorsAnswer {
    pub number: u64,
    pub detail: u64,
    pub count: u64,
    pub places: [u8; 96],
}

#[unsafe(no_mangle)]
pub extern "C" fn vrbolist_anchors(image: &[u8], first: u64, second: u64) -> AnchorsAnswer
    ensures { result ≡ anchors_told (anchors_of image.now first second) }
{
    anchors_told(anchors::anchors_of(image, first, second))
}

// The same from the index alone.
#[unsafe(no_mangle)]
pub extern "C" fn vrbolist_anchors_by_index(image: &[u8], first: u64, second: u64) -> AnchorsAnswer
    ensures { result ≡ anchors_told (anchors_by_index image.now first second) }
{
    anchors_told(anchors::anchors_by_index(image, first, second))
}

fn anchors_told(listing: Result<Listing, Refusal>) -> AnchorsAnswer
    ensures { result ≡ anchors_told listing }
{
    match listing {
        Ok(found) => {
            let places = found.places;
            AnchorsAnswer {
                number: 0,
                detail: 0,
                count: found.count as u64,
                places,
            }
        }
        Err(refusal) => AnchorsAnswer {
            number: refusal::number(refusal),
            detail: refusal::detail(refusal),
            count: 0,
            places: [255; 96],
        },
    }
}
