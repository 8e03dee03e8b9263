// Where the parts of a commit stand, and the records of its extra headers (docs/FORMAT.md, "Commits").
#![tactic(auto)]

ghost use Rattle.std.specs.Prelude.{◌≡◌};
ghost use Rattle.header.specs.Record.{header_at, put_header, well_formed};

// How many numbers a header record has.
pub const HEADER_WIDTH: usize = 5;

// An extra header: its name, its value (through the last LF where it is folded), and the mark, 1 for folded and 0 for one line: five of the numbers
// that C lends, and any other mark is refused, so it is no `bool`.
#[derive(Clone, Copy)]
pub struct HeaderRecord {
    pub name_start: usize,
    pub name_end: usize,
    pub value_start: usize,
    pub value_end: usize,
    pub mark: usize,
}

// Where the parts of a commit stand: the tree's first hex digit, then ranges. The encoding's mark is 1 where there is one: ten of the numbers that C
// lends, so the encoding is no `Option`, and a range is two fields.
#[derive(Clone, Copy)]
pub struct CommitParts {
    pub tree: usize,
    pub author_start: usize,
    pub author_end: usize,
    pub committer_start: usize,
    pub committer_end: usize,
    pub encoding: usize,
    pub encoding_start: usize,
    pub encoding_end: usize,
    pub message_start: usize,
    pub message_end: usize,
}

// Record i of the flat numbers; zeros where there is none.
pub fn header_at(headers: &[usize], i: usize) -> HeaderRecord
    ensures { result ≡ header_at headers.now i }
{
    if headers.len() / HEADER_WIDTH <= i {
        return HeaderRecord {
            name_start: 0,
            name_end: 0,
            value_start: 0,
            value_end: 0,
            mark: 0,
        };
    }
    let at = i * HEADER_WIDTH;
    HeaderRecord {
        name_start: headers[at],
        name_end: headers[at + 1],
        value_start: headers[at + 2],
        value_end: headers[at + 3],
        mark: headers[at + 4],
    }
}

// Record i stored in the flat numbers, where it fits.
pub fn put_header(headers: &mut [usize], i: usize, x: HeaderRecord)
    ensures { headers.new ≡ put_header headers.old i x }
{
    if headers.len() / HEADER_WIDTH <= i {
        return;
    }
    let at = i * HEADER_WIDTH;
    headers[at..at + HEADER_WIDTH].copy_from_slice(&[
        x.name_start,
        x.name_end,
        x.value_start,
        x.value_end,
        x.mark,
    ]);
}

// Whether both ranges run forward inside so many bytes, and the mark is 0 or 1.
#[tactic(auto, unfolding(crate::specs::Record::well_formed))]
pub fn well_formed(x: HeaderRecord, len: usize) -> bool
    ensures { result ≡ well_formed x len }
{
    x.name_start <= x.name_end
        && x.name_end <= len
        && x.value_start <= x.value_end
        && x.value_end <= len
        && x.mark <= 1
}
