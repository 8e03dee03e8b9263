// The fields of a case, as the list has them (oracle/README.md, "The list format"). What a case is given and what is wanted lies in two lists: the
// bytes `s`, with a window of the file first, and the numbers `g`. What stands where is said by the constants.
ghost use Rattle.std.specs.Prelude.{◌≤◌, length};

// Every case is shorter than a window. Behind it in `s` stand the bytes a, b and c, and those that are to be left.
pub const WINDOW: usize = 40960;

const BYTES_A: usize = WINDOW;

const BYTES_B: usize = BYTES_A + BYTES;

const BYTES_C: usize = BYTES_B + BYTES;

const BYTES_LEFT: usize = BYTES_C + BYTES;

// The most bytes, and the most numbers, of a field and of what is lent.
pub const BYTES: usize = 16384;

pub const NUMBERS: usize = 1025;

pub const ALL_BYTES: usize = BYTES_LEFT + BYTES;

// In `g`: how long those bytes are, and the lists, each with its length before it: the numbers that a case is given, the
// answer that is wanted, and the lists x and y, which what is to be left takes the place of.
const LONG_A: usize = 0;

const LONG_B: usize = 1;

const LONG_C: usize = 2;

const LONG_LEFT: usize = 3;

pub const GIVEN: usize = 32;

pub const WANTED: usize = 64;

pub const X: usize = 96;

pub const Y: usize = X + 1280;

pub const ALL_NUMBERS: usize = Y + 1280;

// The numbers of a case: its three rooms (bytes lent, numbers of the first list lent, of the second), then those of the call. The first of these is
// the length of ids, the second often a rule set or a mark.
pub const H: usize = 3;

pub const SECOND: usize = 4;

pub const THIRD: usize = 5;

// No answer has more numbers.
pub const ANSWERS: usize = 16;

// A field: the bit that says that a case has it, 0 where each has it; whether it may begin and end as the bytes a or the list in its place do; where it
// stands in `s` or in `g`; and for bytes where their length stands, none for a list.
#[derive(Clone, Copy)]
struct Field {
    bit: u8,
    derived: bool,
    place: usize,
    long: Option<usize>,
}

const ALWAYS: u8 = 0;

const HAS_GIVEN: u8 = 1;

const HAS_A: u8 = 2;

const HAS_B: u8 = 4;

const HAS_C: u8 = 8;

const HAS_X: u8 = 16;

const HAS_Y: u8 = 32;

const HAS_LEFT: u8 = 64;

const HAS_LISTS: u8 = 128;

// The fields by their places in a case: the bytes b and c, and those that are to be left. So many say what a case is given, the others what is wanted.
pub const B: usize = 2;

pub const C: usize = 3;

pub const TAKEN: usize = 6;

pub const LEFT: usize = 7;

pub const FIELDS: usize = 10;

fn list_field(bit: u8, derived: bool, place: usize) -> Field {
    Field {
        bit,
        derived,
        place,
        long: None,
    }
}

fn bytes_field(bit: u8, derived: bool, place: usize, long: usize) -> Field {
    Field {
        bit,
        derived,
        place,
        long: Some(long),
    }
}

// The fields in the order of the list.
fn field_of(i: usize) -> Field {
    match i {
        0 => list_field(HAS_GIVEN, false, GIVEN),
        1 => bytes_field(HAS_A, true, BYTES_A, LONG_A),
        B => bytes_field(HAS_B, false, BYTES_B, LONG_B),
        C => bytes_field(HAS_C, false, BYTES_C, LONG_C),
        4 => list_field(HAS_X, true, X),
        5 => list_field(HAS_Y, true, Y),
        6 => list_field(ALWAYS, false, WANTED),
        LEFT => bytes_field(HAS_LEFT, true, BYTES_LEFT, LONG_LEFT),
        8 => list_field(HAS_LISTS, true, X),
        _ => list_field(HAS_LISTS, true, Y),
    }
}

// The element at a place, 0 where there is none.
pub fn given<T: Copy + Default>(s: &[T], i: usize) -> T {
    if i < s.len() { s[i] } else { T::default() }
}

// Stores an element, where there is such a place.
pub fn set<T: Copy>(s: &mut [T], i: usize, x: T) {
    if i < s.len() {
        s[i] = x;
    }
}

// The elements from a place on, n or as many as there are.
pub fn piece<T>(s: &[T], from: usize, n: usize) -> &[T]
    ensures { length result.now ≤ n }
{
    let rest = s.get(from..).unwrap_or_default();
    &rest[..n.min(rest.len())]
}

// n elements from one place to another, as far as both have them, in an order in which none is lost where the places overlap.
fn slide<T: Copy + Default>(s: &mut [T], from: usize, to: usize, n: usize) {
    let count = n.min(s.len());
    for i in 0..count {
        let k = if from < to { count - 1 - i } else { i };
        let x = given(s, from.wrapping_add(k));
        set(s, to.wrapping_add(k), x);
    }
}

// Whether a case has a field.
fn there(s: &[u8], bit: u8) -> bool {
    bit == ALWAYS || given(s, 1) & bit != 0
}

// The place after a number: its bytes but the last have the high bit set.
fn past_number(s: &[u8], at: usize) -> usize {
    for i in at..s.len() {
        if s[i] < 128 {
            return i + 1;
        }
    }
    at.max(s.len())
}

// A number, seven bits a byte, the least significant first; and the place after it.
fn number_at(s: &[u8], at: usize) -> (usize, usize) {
    let next = past_number(s, at);
    let mut value: usize = 0;
    for b in s.get(at..next).unwrap_or_default().iter().rev() {
        value = value % 144115188075855872 * 128 + usize::from(*b % 128);
    }
    (value, next)
}

// A number that only a derived field has, else 0.
fn shared_at(s: &[u8], at: usize, derived: bool) -> (usize, usize) {
    if derived { number_at(s, at) } else { (0, at) }
}

// n numbers of the list, stored from a place on; the place after them.
fn numbers_at(s: &[u8], mut at: usize, n: usize, g: &mut [usize], to: usize) -> usize {
    for i in 0..n.min(s.len()) {
        let (value, next) = number_at(s, at);
        set(g, to.wrapping_add(i), value);
        at = next;
    }
    at
}

// What a field is made of: how many are new, where they stand in the case, and where they go; how many of the others stand behind them, where these
// stand, and where they go; and how many there are in all.
#[derive(Clone, Copy)]
struct Made {
    new: usize,
    at: usize,
    to: usize,
    behind: usize,
    last: usize,
    then: usize,
    long: usize,
}

// Of a field that goes to a place, where as many of the others stand.
fn made_of(s: &[u8], at: usize, derived: bool, place: usize, others: usize) -> Made {
    let (new, at) = number_at(s, at);
    let (ahead, at) = shared_at(s, at, derived);
    let (behind, at) = shared_at(s, at, derived);
    let to = place.wrapping_add(ahead);
    let then = to.wrapping_add(new);
    Made {
        new,
        at,
        to,
        behind,
        last: place.wrapping_add(others).wrapping_sub(behind),
        then,
        long: then.wrapping_add(behind).wrapping_sub(place),
    }
}

// Bytes to their place, which begin and end as the bytes a do; the place after them in the case.
fn take_bytes(s: &mut [u8], g: &mut [usize], f: Field, long: usize, at: usize) -> usize {
    let others = given(g, LONG_A);
    let m = made_of(s, at, f.derived, f.place, others);
    slide(s, BYTES_A, f.place, others);
    slide(s, m.last, m.then, m.behind);
    slide(s, m.at, m.to, m.new);
    set(g, long, m.long);
    m.at.wrapping_add(m.new)
}

// A list to its place, the same.
fn take_list(s: &[u8], g: &mut [usize], f: Field, at: usize) -> usize {
    let others = given(g, f.place);
    let m = made_of(s, at, f.derived, f.place.wrapping_add(1), others);
    slide(g, m.last, m.then, m.behind);
    set(g, f.place, m.long);
    numbers_at(s, m.at, m.new, g, m.to)
}

// A field that is not there is as in the case before, or is not looked at.
fn take_field(s: &mut [u8], g: &mut [usize], f: Field, at: usize) -> usize {
    if !there(s, f.bit) {
        return at;
    }
    match f.long {
        Some(long) => take_bytes(s, g, f, long, at),
        None => take_list(s, g, f, at),
    }
}

// The fields from one to another; the place after them in the case.
pub fn take(s: &mut [u8], g: &mut [usize], from: usize, to: usize, mut at: usize) -> usize {
    for i in from..to {
        at = take_field(s, g, field_of(i), at);
    }
    at
}

// A case that was taken: what a call is given, and what is wanted of it.
#[derive(Clone, Copy)]
pub struct Case<'a> {
    pub s: &'a [u8],
    pub g: &'a [usize],
}

impl<'a> Case<'a> {
    // The bytes a.
    pub fn a(self) -> &'a [u8] {
        piece(self.s, BYTES_A, given(self.g, LONG_A))
    }

    // Those of another field, none where the case has it not.
    pub fn bytes(self, i: usize) -> &'a [u8] {
        let f = field_of(i);
        match f.long {
            Some(long) if there(self.s, f.bit) => piece(self.s, f.place, given(self.g, long)),
            _ => &[],
        }
    }

    pub fn list(self, place: usize) -> &'a [usize] {
        piece(self.g, place.wrapping_add(1), given(self.g, place))
    }

    // A number of the case; 0 where it is left out.
    pub fn number(self, i: usize) -> usize {
        given(self.list(GIVEN), i)
    }

    pub fn rules(self) -> u16 {
        (self.number(SECOND) % 65536) as u16
    }

    // The first list that is to be left, or the second, which has taken its place.
    pub fn left_list(self, place: usize) -> &'a [usize] {
        if there(self.s, HAS_LISTS) {
            self.list(place)
        } else {
            &[]
        }
    }
}
