// The head of a record: the kind of the question, the sizes of its label and of its bytes, and its numbers.
ghost use Rattle.std.specs.Prelude.{◌≤◌, length};

#[derive(Clone, Copy)]
pub(crate) struct Question {
    pub kind: u8,
    pub label: usize,
    pub size: usize,
    pub first: u64,
    pub second: u64,
    pub third: u64,
}

pub(crate) fn read_head(head: &[u8]) -> Question
    requires { 32 ≤ length head.now }
{
    Question {
        kind: head[0],
        label: number(&head[1..2]) as usize,
        size: number(&head[4..8]) as usize,
        first: number(&head[8..16]),
        second: number(&head[16..24]),
        third: number(&head[24..32]),
    }
}

// The big-endian number of some octets. The remainder by 2 to the power of 56 leaves room for one octet more.
pub(crate) fn number(octets: &[u8]) -> u64 {
    let mut value: u64 = 0;
    let mut i = 0;
    while i < octets.len() {
        value = value % 72057594037927936 * 256 + octets[i] as u64;
        i += 1;
    }
    value
}
