// Reads each file of a list and compares all 44 numbers of its reading with those in the list, which are the crate's answers.
// The list, whose numbers have 4 bytes each: how many cases there are; then for each case the file's length, the file, and the 44 numbers.
// It is made of three pictures and the seed 1 (oracle/README.md, "The replay list").
#![tactic(auto)]

ghost use Rattle.std.specs.Prelude.{◌<◌, ◌≤◌, length, IfSome};

use test_lines::{at, count, say};
use text::input;

// How many numbers a reading has.
const READING_LENGTH: usize = 44;

// The bytes of a case beside its file: its length and the numbers, of 4 bytes each.
const BESIDE_FILE: usize = 180;

// The counts of the tally: 0 for a codestream, n for the refusal n, then these two.
const ENDED: usize = 25;

const DIFFERING: usize = 26;

fn main(rt: HostRuntime) {
    // the list has to fit in
    let mut list: [u8; 1500000] = input::room(0);
    let n = input::read_full(&mut rt.stdin(), &mut list);
    let mut tally = [0usize; 27];
    let cases = each_case(&rt, &list[..n], &mut tally);
    say(&rt, b"cases: #\n", &[cases as usize]);
    say(&rt, b"codestream: #\n", &[tally[0]]);
    for number in 1..ENDED {
        say(&rt, b"refused #: #\n", &[number, tally[number]]);
    }
    say(&rt, b"ended: #\n", &[tally[ENDED]]);
    say(&rt, b"differing: #\n", &[tally[DIFFERING]]);
}

// How many cases there are.
fn each_case(rt: &impl Print, list: &[u8], tally: &mut [usize]) -> u32 {
    let cases = box_number::read_u32(list, 0);
    let mut rest = box_number::part(list, 4, list.len());
    // The loop of each replay program. What it calls is all that differs, so a shared one would take two closures and be no plainer.
    for i in 0..cases {
        let taken = case_length(rest);
        count(tally, case(rt, i, rest).unwrap_or(DIFFERING));
        rest = &rest[taken..];
    }
    cases
}

// The bytes of the first case of the rest.
fn case_length(rest: &[u8]) -> usize
    ensures { result ≤ length rest.now }
{
    (box_number::read_u32(rest, 0) as usize + BESIDE_FILE).min(rest.len())
}

// Reads file i. Gives the count of the tally for its reading, and none where the reading differs from the list.
fn case(rt: &impl Print, i: u32, rest: &[u8]) -> Option<usize> {
    let end = box_number::read_u32(rest, 0) as usize + 4;
    let mut numbers = [0u64; READING_LENGTH];
    cuzhantir::cuzhantir_read(box_number::part(rest, 4, end), &mut numbers);
    let listed = box_number::part(rest, end, rest.len());
    if let Some(k) = first_difference(listed, &numbers) {
        say(
            rt,
            b"case #, number #: #, and not #\n",
            &[
                i as usize,
                k,
                at(&numbers, k) as usize,
                box_number::read_u32(listed, k * 4) as usize,
            ],
        );
        return None;
    }
    Some(match at(&numbers, 0) {
        0 => 0,
        1 => ENDED,
        _ => at(&numbers, 1) as usize,
    })
}

// The first of the 44 numbers that differs.
fn first_difference(listed: &[u8], numbers: &[u64]) -> Option<usize>
    ensures { IfSome result (λ k. k < READING_LENGTH) }
{
    (0..READING_LENGTH).find(|k| u64::from(box_number::read_u32(listed, *k * 4)) != at(numbers, *k))
}
