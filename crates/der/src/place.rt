// How far a list is read.
// All before `at`, where `left` levels of depth are left, with `count` elements read.
#[derive(Clone, Copy)]
pub struct Place {
    pub at: usize,
    pub left: usize,
    pub count: usize,
}
