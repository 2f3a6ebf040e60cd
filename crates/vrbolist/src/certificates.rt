// Certificates.
ghost use Rattle.std.specs.Prelude.{◌≡◌};
ghost use Rattle.certificate.specs.Answer.{judged_of};
ghost use Rattle.vrbolist.specs.Told.{certificate_passed, certificate_told};

use certificate::Fields;

#[repr(C)]
#[derive(Clone, Copy)]
pub struct CertificateAnswer {
    pub number: u64,
    pub detail: u64,
    pub start: u64,
    pub end: u64,
    pub issuer_at: u64,
    pub issuer_len: u64,
    pub subject_at: u64,
    pub subject_len: u64,
    pub key_at: u64,
    pub key_len: u64,
    pub serial_at: u64,
    pub serial_len: u64,
    pub subject_key_id_at: u64,
    pub subject_key_id_len: u64,
    pub authority_key_id_at: u64,
    pub authority_key_id_len: u64,
    pub country: [u8; 2],
}

#[unsafe(no_mangle)]
pub extern "C" fn vrbolist_certificate(item: &[u8], role: u64) -> CertificateAnswer
    ensures { result ≡ certificate_told (judged_of item.now role) }
{
    match certificate::judge(item, role) {
        Ok(fields) => passed(fields),
        Err(refusal) => CertificateAnswer {
            number: refusal::number(refusal),
            detail: refusal::detail(refusal),
            start: 0,
            end: 0,
            issuer_at: 0,
            issuer_len: 0,
            subject_at: 0,
            subject_len: 0,
            key_at: 0,
            key_len: 0,
            serial_at: 0,
            serial_len: 0,
            subject_key_id_at: 0,
            subject_key_id_len: 0,
            authority_key_id_at: 0,
            authority_key_id_len: 0,
            country: [0; 2],
        },
    }
}

fn passed(fields: Fields) -> CertificateAnswer
    ensures { result ≡ certificate_passed fields }
{
    CertificateAnswer {
        number: 0,
        detail: 0,
        start: fields.start,
        end: fields.end,
        issuer_at: fields.issuer_at as u64,
        issuer_len: fields.issuer_len as u64,
        subject_at: fields.subject_at as u64,
        subject_len: fields.subject_len as u64,
        key_at: fields.key_at as u64,
        key_len: fields.key_len as u64,
        serial_at: fields.serial_at as u64,
        serial_len: fields.serial_len as u64,
        subject_key_id_at: fields.subject_key_at as u64,
        subject_key_id_len: fields.subject_key_len as u64,
        authority_key_id_at: fields.authority_key_at as u64,
        authority_key_id_len: fields.authority_key_len as u64,
        country: [fields.first, fields.second],
    }
}
