// The limits and forms that a walk goes by, the same at every call of it.
ghost use Rattle.std.specs.Prelude.{◌^◌, ◌≤◌, ◌<◌};

// `digits` is the most octets that a length in the long form may have after its first, `wide` tells whether a tag may have two octets,
// and `most` is the limit of elements.
#[derive(Clone, Copy)]
pub struct Limits {
    pub digits: usize,
    pub wide: bool,
    pub most: usize,
    ghost short: { digits ≤ 3 },
    ghost few: { most < 2 ^ 32 },
}

// Those of the rules paper.
pub(crate) const PAPER: Limits = Limits {
    digits: 2,
    wide: false,
    most: 4096,
};
