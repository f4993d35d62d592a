// The parts of a picture in the list. Each function is given the list from a picture on, and what it gives goes on to the list's end where nothing else is said.
// A number past the end is 0.
ghost use Rattle.std.specs.Prelude.{◌≤◌, ◌≡◌, length};
ghost use Rattle.replay_picture.specs.Private.Listed.{number_at, numbers_of, behind_numbers, file_of, flag_of, components_of, samples_of, rooms_of, answer_number, records_of, planes_of};

use test_lines::say;

// The bytes of a component's 13 numbers.
const RECORD_BYTES: usize = 52;

// The bytes of the two lengths and the five numbers of the answer.
const ROOMS_BYTES: usize = 28;

// Number i of those in front.
pub(crate) fn number(s: &[u8], i: usize) -> u32
    ensures { result ≡ number_at s.now i }
{
    if i < s.len() / 4 {
        box_number::read_u32(s, i * 4)
    } else {
        0
    }
}

// The same as the length of a list. One that is longer than most is cut, and that is printed.
pub fn length(rt: &impl Print, s: &[u8], i: usize, most: usize) -> usize
    ensures { result ≤ most }
{
    let n = number(s, i) as usize;
    if n <= most {
        return n;
    }
    say(rt, b"no room for a list of #\n", &[n]);
    most
}

// The numbers of a list that begins with its length, and no more.
pub(crate) fn numbers(s: &[u8]) -> &[u8]
    ensures { result.now ≡ numbers_of s.now }
{
    box_number::part(s, 4, number(s, 0) as usize * 4 + 4)
}

fn behind_numbers(s: &[u8]) -> &[u8]
    ensures { result.now ≡ behind_numbers s.now }
{
    box_number::part(s, number(s, 0) as usize * 4 + 4, s.len())
}

// The file, and no more.
pub(crate) fn file(picture: &[u8]) -> &[u8]
    ensures { result.now ≡ file_of picture.now }
{
    box_number::part(picture, 4, number(picture, 0) as usize + 4)
}

// The ignore flag and the number of components.
pub(crate) fn flag(picture: &[u8]) -> &[u8]
    ensures { result.now ≡ flag_of picture.now }
{
    box_number::part(picture, number(picture, 0) as usize + 4, picture.len())
}

pub(crate) fn components(picture: &[u8]) -> &[u8]
    ensures { result.now ≡ components_of picture.now }
{
    let s = flag(picture);
    box_number::part(s, 8, s.len())
}

pub(crate) fn samples(picture: &[u8]) -> &[u8]
    ensures { result.now ≡ samples_of picture.now }
{
    behind_numbers(components(picture))
}

// The lengths of both destinations, then the answer: kind, number, the place's high and low word, the number of planes.
pub(crate) fn rooms(picture: &[u8]) -> &[u8]
    ensures { result.now ≡ rooms_of picture.now }
{
    behind_numbers(samples(picture))
}

// Number k of the answer, whose place has two words.
pub(crate) fn answer_number(picture: &[u8], k: usize) -> u64
    ensures { result ≡ answer_number picture.now k }
{
    let s = rooms(picture);
    match k {
        0 => u64::from(number(s, 2)),
        1 => u64::from(number(s, 3)),
        2 => u64::from(number(s, 4)) * 4294967296 + u64::from(number(s, 5)),
        _ => u64::from(number(s, 6)),
    }
}

// The finished records, and no more.
pub(crate) fn records(picture: &[u8]) -> &[u8]
    ensures { result.now ≡ records_of picture.now }
{
    let s = rooms(picture);
    box_number::part(
        s,
        ROOMS_BYTES,
        number(s, 6) as usize * RECORD_BYTES + ROOMS_BYTES,
    )
}

// The finished samples.
pub(crate) fn planes(picture: &[u8]) -> &[u8]
    ensures { result.now ≡ planes_of picture.now }
{
    let s = rooms(picture);
    box_number::part(
        s,
        number(s, 6) as usize * RECORD_BYTES + ROOMS_BYTES,
        s.len(),
    )
}

// The bytes of the picture.
pub fn bytes(picture: &[u8]) -> usize
    ensures { result ≤ length picture.now }
{
    let left = behind_numbers(planes(picture)).len();
    if left < picture.len() {
        picture.len() - left
    } else {
        picture.len()
    }
}
