// Elements with a header of two octets, found without reading more.
ghost use Rattle.std.specs.Prelude.{◌≡◌, true, Some};
ghost use Rattle.elements.specs.Short.{short_end};

// Where the element at `from` ends, before `end`, if it has the tag and a length in the short form.
#[inline(always)]
pub fn short_end(item: &[u8], from: usize, end: usize, tag: usize) -> Option<usize>
    ensures { result ≡ short_end item.now from end tag }
{
    let left = end.saturating_sub(from);
    if item.len() < end || left < 2 || item[from] as usize != tag {
        return None;
    }
    let size = item[from + 1] as usize;
    if 128 <= size || left - 2 < size {
        return None;
    }
    Some(from + 2 + size)
}

// Whether that element ends at `end`.
pub fn fills(item: &[u8], from: usize, end: usize, tag: usize) -> bool
    ensures whole { result ≡ true → short_end item.now from end tag ≡ Some end }
    ensures only { short_end item.now from end tag ≡ Some end → result ≡ true }
{
    match short_end(item, from, end, tag) {
        Some(last) => last == end,
        None => false,
    }
}
