// An image that was read.
ghost use Rattle.std.specs.Prelude.{◌≡◌, ℕ, ◌<◌, ◌≤◌, Ok, Err, IfOk, IfErr, List, length, get_or};
ghost use Rattle.image.specs.Index.{entry_count, version_in, day_in, entry_in, item_at};
ghost use Rattle.image.specs.Answer.{trailer_in, opened_of, opened_as, opened_within};
ghost use Rattle.image.specs.Reading.{Read};

use crate::{IndexEntry, Opened, entry_of, kinds_in, open_within};
use octets::part;
use refusal::Refusal;
use std::marker::Model;

// A good image with what its trailer tells. A contract sees its octets alone.
#[derive(Drop)]
pub struct Reading<'a> {
    octets: &'a [u8],
    entries: usize,
    day: u64,
    version: usize,
}

impl<'a> Model for Reading<'a> {
    ghost Value = { List ℕ };

    ghost view = { λ r. r.octets.now };

    ghost invariant = { λ r. Read r.octets.now r.entries r.day r.version };
}

// Reads trailer and index, as `open` does.
pub fn read(image: &[u8]) -> Result<Reading<'_>, Refusal>
    ensures ok { IfOk result (λ r. (r ≡ image.now) × (opened_of image.now ≡ Ok (trailer_in image.now))) }
    ensures err { IfErr result (λ e. opened_of image.now ≡ Err e) }
{
    read_within(image, 1, 2)
}

// The same for an image of one version, as `open_as` does.
pub fn read_as(image: &[u8], version: usize) -> Result<Reading<'_>, Refusal>
    ensures ok { IfOk result (λ r. (r ≡ image.now) × (opened_as version image.now ≡ Ok (trailer_in image.now))) }
    ensures err { IfErr result (λ e. opened_as version image.now ≡ Err e) }
{
    read_within(image, version, version)
}

fn read_within(image: &[u8], least: usize, most: usize) -> Result<Reading<'_>, Refusal>
    ensures ok { IfOk result (λ r. (r ≡ image.now) × (opened_within least most image.now ≡ Ok (trailer_in image.now))) }
    ensures err { IfErr result (λ e. opened_within least most image.now ≡ Err e) }
{
    let Opened {
        entries,
        day,
        version,
    } = open_within(image, least, most)?;
    Ok(Reading {
        octets: image,
        entries,
        day,
        version,
    })
}

impl<'a> Reading<'a> {
    pub fn octets(&self) -> &'a [u8]
        ensures same { result.now ≡ self.now }
        ensures small { length self.now ≤ 262144 }
    {
        self.octets
    }

    pub fn entries(&self) -> usize
        ensures count { result ≡ entry_count self.now }
        ensures few { result ≤ 96 }
    {
        self.entries
    }

    pub fn day(&self) -> u64
        ensures { result ≡ day_in self.now }
    {
        self.day
    }

    pub fn version(&self) -> usize
        ensures { result ≡ version_in self.now }
    {
        self.version
    }

    // The entry of a place; octets beyond the end are not there.
    pub fn entry(&self, place: usize) -> IndexEntry
        ensures own { result ≡ entry_in self.now place }
        ensures octets { (result.kind < 256) × (result.flags < 256) }
    {
        entry_of(self.version, self.octets, place)
    }

    // The octets that an entry tells, as many as there are.
    pub fn item(&self, place: usize) -> &'a [u8]
        ensures { result.now ≡ (item_at self.now (entry_in self.now place)).bytes }
    {
        let e = self.entry(place);
        part(self.octets, e.offset, e.length)
    }

    // The kinds in the entries of 96 places; 0 where the octet is not there.
    pub fn kinds(&self) -> [u8; 96]
        ensures { (place : ℕ) → place < 96 → get_or result place 0 ≡ (entry_in self.now place).kind }
    {
        kinds_in(self.version, self.octets)
    }
}
