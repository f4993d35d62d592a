// Compares a picture's answer and destinations with the list. Prints the first difference.
ghost use Rattle.std.specs.Prelude.{◌≡◌, ◌<◌, None, length};
ghost use Rattle.box_number.specs.Table.{holds};
ghost use Rattle.replay_picture.specs.Private.Compared.{first, answer_differs, element_differs, answer_length, count_of, slot_of};

use crate::list;
use crate::put::{self, Element};
use test_lines::{at, say};

// How many numbers an answer has, and the position of document 01's.
const ANSWER_LENGTH: usize = 4;

const ANSWER_NUMBER: usize = 1;

// The count of the tally for pictures that differ from the list.
pub const DIFFERING: usize = 31;

// The count of the tally for an outcome.
pub(crate) fn slot(outcome: Option<usize>) -> usize
    ensures { result ≡ slot_of outcome }
{
    outcome.unwrap_or(DIFFERING)
}

// The count of the tally for picture i: 0 or the number of the refusal, and none where it differs or the list has ended.
pub(crate) fn outcome(
    rt: &impl Print,
    i: u32,
    picture: &[u8],
    answer: &[u64],
    records: &[u32],
    planes: &[i32],
) -> Option<usize>
    ensures { result ≡ count_of picture.now answer.now records.now planes.now }
{
    if picture.is_empty() {
        return differs(rt, b"case #: the list has ended\n", i, 0);
    }
    if let Some(k) = first_number(picture, answer) {
        return differs(rt, b"case #: the answer differs at #\n", i, k);
    }
    if let Some(k) = first_element(list::records(picture), records) {
        return differs(rt, b"case #: the records differ at #\n", i, k);
    }
    if let Some(k) = first_element(list::numbers(list::planes(picture)), planes) {
        return differs(rt, b"case #: the samples differ at #\n", i, k);
    }
    Some(at(answer, ANSWER_NUMBER) as usize)
}

fn differs(rt: &impl Print, shape: &[u8], i: u32, k: usize) -> Option<usize>
    ensures { result ≡ None }
{
    say(rt, shape, &[i as usize, k]);
    None
}

// The first number of the answer that differs.
fn first_number(picture: &[u8], answer: &[u64]) -> Option<usize>
    ensures { result ≡ first (answer_differs picture.now answer.now) answer_length }
{
    (0..ANSWER_LENGTH).find(|k| at(answer, *k) != list::answer_number(picture, *k))
}

// The first record or sample that differs, of those behind the picture too.
fn first_element<T: Element>(listed: &[u8], found: &[T]) -> Option<usize>
    ensures { result ≡ first (element_differs T.bits listed.now found.now) (length found.now) }
{
    (0..found.len()).find(|k| differs_at(listed, found, *k))
}

fn differs_at<T: Element>(listed: &[u8], found: &[T], k: usize) -> bool
    requires { k < length found.now }
    ensures { result ≡ holds (element_differs T.bits listed.now found.now k) }
{
    found[k].to_bits() != put::expected(listed, k)
}
