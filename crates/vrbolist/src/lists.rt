// Revocation lists.
ghost use Rattle.std.specs.Prelude.{◌≡◌};
ghost use Rattle.der.specs.Forms.{paper};
ghost use Rattle.crl.specs.Answer.{judged_of};
ghost use Rattle.vrbolist.specs.Told.{crl_passed, crl_told};

use crl::Fields;

#[repr(C)]
#[derive(Clone, Copy)]
pub struct CrlAnswer {
    pub number: u64,
    pub detail: u64,
    pub this_update: u64,
    pub next_update: u64,
    pub entries: u64,
    pub issuer_at: u64,
    pub issuer_len: u64,
    pub country: [u8; 2],
}

#[unsafe(no_mangle)]
pub extern "C" fn vrbolist_crl(item: &[u8]) -> CrlAnswer
    ensures { result ≡ crl_told (judged_of paper item.now) }
{
    match crl::judge(item) {
        Ok(fields) => passed(fields),
        Err(refusal) => CrlAnswer {
            number: refusal::number(refusal),
            detail: refusal::detail(refusal),
            this_update: 0,
            next_update: 0,
            entries: 0,
            issuer_at: 0,
            issuer_len: 0,
            country: [0; 2],
        },
    }
}

fn passed(fields: Fields) -> CrlAnswer
    ensures { result ≡ crl_passed fields }
{
    CrlAnswer {
        number: 0,
        detail: 0,
        this_update: fields.this_update,
        next_update: fields.next_update,
        entries: fields.entries as u64,
        issuer_at: fields.issuer_at as u64,
        issuer_len: fields.issuer_len as u64,
        country: [fields.first, fields.second],
    }
}
