// Finishes each picture of two lists, one behind the other, and compares the answer and every number of both destinations with those in the list. Those of the first list are the crate's answers, those of the second are told for edition 2.
// The lists are made of the seed 1; oracle/README.md has their form ("The replay list").
#![tactic(auto)]

use compare::DIFFERING;
use test_lines::{count, say};
use text::input;

mod compare;
mod list;
mod put;

// The editions of the camera rules; the crate's answers are those of edition 1.
const EDITION_1: u32 = 0;

const EDITION_2: u32 = 1;

// The most elements of a given list, and of a destination for records.
const MOST: usize = 128;

fn main(rt: HostRuntime) {
    // the list has to fit in, and the longest destination for samples
    let mut list: [u8; 1500000] = input::room(0);
    let n = input::read_full(&mut rt.stdin(), &mut list);
    let mut room: [i32; 261120] = input::room(0);
    let second = replay(&rt, EDITION_1, &list[..n], &mut room);
    say(&rt, b"In edition 2:\n", &[]);
    let behind = replay(&rt, EDITION_2, second, &mut room);
    say(&rt, b"bytes behind the lists: #\n", &[behind.len()]);
}

// Replays the list in front in an edition, prints how its pictures came out, and gives what is behind it.
// The tally counts finished pictures at 0, the refusal n at n, and pictures that differ from the list at DIFFERING.
fn replay<'a>(rt: &impl Print, edition2: u32, list: &'a [u8], room: &mut [i32]) -> &'a [u8] {
    let mut tally = [0usize; 32];
    let cases = list::number(list, 0);
    let mut rest = box_number::part(list, 4, list.len());
    // The loop of each replay program. What it calls is all that differs, so a shared one would take two closures and be no plainer.
    for i in 0..cases {
        let taken = list::bytes(rest);
        count(&mut tally, compare::slot(case(rt, edition2, i, rest, room)));
        rest = &rest[taken..];
    }
    say(rt, b"cases: #\n", &[cases as usize]);
    say(rt, b"finished: #\n", &[tally[0]]);
    for number in 1..DIFFERING {
        say(rt, b"refused #: #\n", &[number, tally[number]]);
    }
    say(rt, b"differing: #\n", &[tally[DIFFERING]]);
    rest
}

// The count of the tally for picture i, and none where it differs from the list. Its lists are laid out first. No answer is 9 9 9 9.
fn case(rt: &impl Print, edition2: u32, i: u32, picture: &[u8], room: &mut [i32]) -> Option<usize> {
    let mut comps = [0u32; MOST];
    let mut samples = [0i32; MOST];
    let mut records = [0u32; MOST];
    let mut answer = [9u64; 4];
    let flag = list::flag(picture);
    let listed_comps = list::components(picture);
    let comps_length = list::length(rt, listed_comps, 0, MOST);
    put::fill(listed_comps, &mut comps);
    let listed_samples = list::samples(picture);
    let samples_length = list::length(rt, listed_samples, 0, MOST);
    put::fill(listed_samples, &mut samples);
    let rooms = list::rooms(picture);
    let records = &mut records[..list::length(rt, rooms, 0, MOST)];
    put::fill(b"", records);
    let planes_length = list::length(rt, rooms, 1, room.len());
    let planes = &mut room[..planes_length];
    put::fill(b"", planes);
    cuzhantir::cuzhantir_picture(
        list::file(picture),
        list::number(flag, 0),
        edition2,
        &comps[..comps_length],
        list::number(flag, 1),
        &samples[..samples_length],
        records,
        planes,
        &mut answer,
    );
    compare::outcome(rt, i, picture, &answer, records, planes)
}
