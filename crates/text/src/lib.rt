// Text that is put together in a lent list d. A function takes the place where the text goes, and answers the place after it.
// What has no room in d is left out, so that nothing here can fail. The module `input` reads into a lent list.
// d and the place are two parameters and no struct, since a clause says what d is before and after as d.old and d.new.
#![tactic(auto)]

ghost use Rattle.std.specs.Prelude.{◌≡◌, ◌++◌};
ghost use Rattle.text.specs.Text.{put, after, decimal, filled, joined, line};
ghost use Rattle.text.specs.Row.{values};

use itoa::Buffer;

pub mod input;

// A text as it is.
pub fn text(d: &mut [u8], at: usize, s: &[u8]) -> usize
    ensures { (result ≡ after d.old at s.now) × (d.new ≡ put d.old at s.now) }
{
    if d.len() <= at {
        return at;
    }
    let end = at + s.len().min(d.len() - at);
    d[at..end].copy_from_slice(&s[..end - at]);
    end
}

// A number's decimal digits.
fn number(d: &mut [u8], at: usize, n: usize) -> usize
    ensures { (result ≡ after d.old at (decimal n)) × (d.new ≡ put d.old at (decimal n)) }
{
    let mut digits = Buffer::new();
    text(d, at, digits.format(n).as_bytes())
}

// The byte of a shape that is replaced by a number.
const MARK: u8 = b'#';

// A shape in which each # is replaced by the next of the numbers; where none is left, # is kept.
pub fn fill(d: &mut [u8], at: usize, shape: &[u8], numbers: &[usize]) -> usize
    ensures { (result ≡ after d.old at (filled shape.now numbers.now)) × (d.new ≡ put d.old at (filled shape.now numbers.now)) }
{
    let mut k = at;
    let mut left = numbers;
    for b in shape {
        k = match left {
            [n, others @ ..] if *b == MARK => {
                left = others;
                number(d, k, *n)
            }
            _ => text(d, k, &[*b]),
        };
    }
    k
}

// Numbers, with a text between two.
pub fn join(d: &mut [u8], at: usize, between: &[u8], numbers: &[u32]) -> usize
    ensures { (result ≡ after d.old at (joined between.now numbers.now)) × (d.new ≡ put d.old at (joined between.now numbers.now)) }
{
    let mut k = at;
    let mut before: &[u8] = b"";
    for n in numbers {
        k = item(d, k, before, *n);
        before = between;
    }
    k
}

// The values of a palette's row, a column each, with a text between two. The depths are those of the columns, and c starts with the row.
pub fn row(d: &mut [u8], at: usize, between: &[u8], depths: &[u8], c: &[u8]) -> usize
    ensures { (result ≡ after d.old at (joined between.now (values depths.now c.now))) × (d.new ≡ put d.old at (joined between.now (values depths.now c.now))) }
{
    let mut k = at;
    let mut before: &[u8] = b"";
    let mut rest = c;
    for depth in depths {
        let size = read_palette::entry_bytes(*depth);
        k = item(d, k, before, box_number::opj_read_bytes(rest, 0, size));
        before = between;
        rest = &rest[size.min(rest.len())..];
    }
    k
}

// A number with a text before it.
fn item(d: &mut [u8], at: usize, before: &[u8], n: u32) -> usize
    ensures { (result ≡ after d.old at (before.now ++ decimal n)) × (d.new ≡ put d.old at (before.now ++ decimal n)) }
{
    let k = text(d, at, before);
    number(d, k, n as usize)
}

// Line n, from 0, of lines that each end in a byte, as in a newline; empty where it is not there.
pub fn line(lines: &[u8], end: u8, n: usize) -> &[u8]
    ensures { result.now ≡ line end n lines.now }
{
    lines.split(|b| *b == end).nth(n).unwrap_or(b"")
}
