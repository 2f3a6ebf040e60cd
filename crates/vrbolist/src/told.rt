// An answer of number and detail alone.
#[repr(C)]
#[derive(Clone, Copy)]
pub struct ToldAnswer {
    pub number: u64,
    pub detail: u64,
}
