ghost use Rattle.std.specs.Prelude.{◌≡◌, replicate, None};
ghost use Rattle.byte_text.specs.Parts.{parted, within};
ghost use Rattle.entries.specs.Reading.{signed_of, clock_of, item_of, bounds_from, DraftSays};

use bounds::bound::Bound;
use byte_text::numerals::number_to;
use byte_text::parts::{Part, Parts};

// What was read of an entry's line; only the bounds that the line has.
#[derive(Clone, Copy)]
pub struct Draft {
    pub position: usize,
    pub round: u64,
    pub bounds: [Option<Bound>; 81],
}

// A number with `-` before it or not, of which those beyond 4,000,001 on either side are read as that.
fn read_number(bytes: &[u8]) -> Option<i32>
    ensures { result ≡ signed_of bytes.now }
{
    match bytes.strip_prefix(b"-") {
        Some(digits) => number_to(digits, 4_000_001).map(|n| 0 - n as i32),
        None => number_to(bytes, 4_000_001).map(|n| n as i32),
    }
}

// The clock that a digit names, 0 to 8.
fn read_clock(byte: u8) -> Option<usize>
    ensures { result ≡ clock_of byte }
{
    match byte {
        b'0'..=b'8' => Some((byte - b'0') as usize),
        _ => None,
    }
}

// A place and its bound, from `i-j<c` or `i-j<=c`.
fn read_item(bytes: &[u8]) -> Option<(usize, Bound)>
    ensures { result ≡ item_of bytes.now }
{
    let [i, _, j, _, rest @ ..] = bytes else {
        return None;
    };
    let place = 9 * read_clock(*i)? + read_clock(*j)?;
    let after_equals = rest.strip_prefix(b"=");
    let number = read_number(after_equals.unwrap_or(rest))?;
    let closed = after_equals.is_some();
    Some((place, Bound { number, closed }))
}

// The bounds that the items between commas give, each at its place.
fn read_bounds(part: Part) -> [Option<Bound>; 81]
    ensures { result ≡ bounds_from (parted 44 (within part.entry.at part.entry.bytes.now) part.entry.bytes.now) (replicate 81 None) }
{
    let mut bounds = [None; 81];
    for item in Parts::new(part, b',') {
        if let Some((place, bound)) = read_item(item.bytes) {
            bounds[place] = Some(bound);
        }
    }
    bounds
}

// What a line says, without its end, field by field.
pub fn read_draft(body: &[u8]) -> Option<Draft>
    ensures { DraftSays body.now result }
{
    let mut fields = Parts::new(Part { bytes: body, at: 0 }, b'\t');
    let _letter = fields.next()?;
    let position = fields.next()?;
    let round = fields.next()?;
    let bounds = fields.next()?;
    let p = number_to(position.bytes, 64)?;
    let r = number_to(round.bytes, u64::MAX)?;
    Some(Draft {
        position: p as usize,
        round: r,
        bounds: read_bounds(bounds),
    })
}
