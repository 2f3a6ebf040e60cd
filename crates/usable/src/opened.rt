// What is kept of an item that was opened.
ghost use Rattle.std.specs.Prelude.{◌≡◌, ◌<◌};
ghost use Rattle.usable.specs.Rows.{row_at};

// Standing: 1 a usable anchor, 2 a link, 3 a signer and 4 a CRL that pass and are within their times, else 0. Then the letters,
// where the item stands in the octets of all items, and where its parts stand in the item: the issuer, the stretch of a CRL's
// entries, and those of a certificate. A table of rows holds the numbers of each, in this order; an item that cannot stand in a chain has 0s.
#[derive(Clone, Copy)]
pub struct Row {
    pub standing: usize,
    pub first: usize,
    pub second: usize,
    pub at: usize,
    pub size: usize,
    pub issuer_at: usize,
    pub issuer_len: usize,
    pub from: usize,
    pub end: usize,
    pub subject_at: usize,
    pub subject_len: usize,
    pub serial_at: usize,
    pub serial_len: usize,
    pub own_at: usize,
    pub own_len: usize,
    pub authority_at: usize,
    pub authority_len: usize,
}

// The row of a place in a table of them.
pub(crate) fn row_at(rows: &[[usize; 17]; 96], place: usize) -> Row
    requires { place < 96 }
    ensures { result ≡ row_at rows.now place }
{
    let cells = rows[place];
    Row {
        standing: cells[0],
        first: cells[1],
        second: cells[2],
        at: cells[3],
        size: cells[4],
        issuer_at: cells[5],
        issuer_len: cells[6],
        from: cells[7],
        end: cells[8],
        subject_at: cells[9],
        subject_len: cells[10],
        serial_at: cells[11],
        serial_len: cells[12],
        own_at: cells[13],
        own_len: cells[14],
        authority_at: cells[15],
        authority_len: cells[16],
    }
}

// Its standing alone.
pub(crate) fn standing_at(rows: &[[usize; 17]; 96], place: usize) -> usize
    requires { place < 96 }
    ensures { result ≡ (row_at rows.now place).standing }
{
    rows[place][0]
}
