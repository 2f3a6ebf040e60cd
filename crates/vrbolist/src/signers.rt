// Every signer of an image in one call.
ghost use Rattle.vrbolist.specs.Signers.{AllForwarded};

#[repr(C)]
#[derive(Clone, Copy)]
pub struct SignersAnswer {
    pub number: u64,
    pub detail: u64,
    pub length: u64,
}

#[unsafe(no_mangle)]
pub extern "C" fn vrbolist_all_signers(
    image: &[u8],
    table: &[u8],
    moment: u64,
    out: &mut [u8],
) -> SignersAnswer
    ensures { AllForwarded image.now table.now moment out.old out.new result }
{
    match chain::all_signers(image, table, moment, out) {
        Ok(length) => SignersAnswer {
            number: 0,
            detail: 0,
            length: length as u64,
        },
        Err(refusal) => SignersAnswer {
            number: refusal::number(refusal),
            detail: refusal::detail(refusal),
            length: 0,
        },
    }
}
