// Writes each request of a list and compares the four numbers of the answer and every byte of the destination with those in the list, which are the crate's answers.
// The list, whose numbers have 4 bytes each: how many cases there are; then for each case
//   0 to 6    the length of the list of components, the count, x0, y0, x1, y1, the colour space
//   7 to 10   the length of the profile, of the codestream (high word, low word), of the destination
//   11 to 14  the answer: kind, number, index or needed length, how many bytes were written
// and after these 15 numbers the list of components, the profile and the written bytes.
// It is made of the seed 1 (oracle/README.md, "The replay list").
#![tactic(auto)]

ghost use Rattle.std.specs.Prelude.{◌<◌, ◌≤◌, length, IfSome};

use test_lines::{at, count, say};
use text::input;

// The numbers of a case: the lengths of the components, the profile, the codestream's high and low word, the destination; then the answer.
const COMPS: usize = 0;

const PROFILE: usize = 7;

const CODESTREAM_HIGH: usize = 8;

const CODESTREAM_LOW: usize = 9;

const DESTINATION: usize = 10;

const ANSWER: usize = 11;

const WRITTEN: usize = 14;

// The bytes of the 15 numbers.
const NUMBERS_BYTES: usize = 60;

// How many numbers an answer has, and the position of document 01's.
const ANSWER_LENGTH: usize = 4;

const ANSWER_NUMBER: usize = 1;

// The most numbers of a list of components, and bytes of a destination.
const MOST: usize = 4096;

// The tally counts written requests at 0, the refusal n at n, and those that differ from the list at DIFFERING.
const DIFFERING: usize = 35;

fn main(rt: HostRuntime) {
    // the list has to fit in
    let mut list: [u8; 1000000] = input::room(0);
    let n = input::read_full(&mut rt.stdin(), &mut list);
    let mut tally = [0usize; 36];
    let cases = each_case(&rt, &list[..n], &mut tally);
    say(&rt, b"cases: #\n", &[cases as usize]);
    say(&rt, b"written: #\n", &[tally[0]]);
    for number in 29..DIFFERING {
        say(&rt, b"refused #: #\n", &[number, tally[number]]);
    }
    say(&rt, b"differing: #\n", &[tally[DIFFERING]]);
}

// How many cases there are.
fn each_case(rt: &impl Print, list: &[u8], tally: &mut [usize]) -> u32 {
    let cases = box_number::read_u32(list, 0);
    let mut rest = box_number::part(list, 4, list.len());
    // The rooms of all cases: each fills them anew.
    let mut comps = [0u32; MOST];
    let mut d = [0u8; MOST];
    // The loop of each replay program. What it calls is all that differs, so a shared one would take two closures and be no plainer.
    for i in 0..cases {
        let request = Request { i, rest };
        let taken = request.end().min(rest.len());
        count(
            tally,
            case(rt, request, &mut comps, &mut d).unwrap_or(DIFFERING),
        );
        rest = &rest[taken..];
    }
    cases
}

// Writes a request. Gives the count of the tally for the answer, and none where it or the destination differs from the list.
fn case(rt: &impl Print, request: Request, comps: &mut [u32], d: &mut [u8]) -> Option<usize> {
    let listed = request.components();
    for (k, n) in comps.iter_mut().enumerate() {
        *n = box_number::read_u32(listed, k * 4);
    }
    for (k, b) in d.iter_mut().enumerate() {
        *b = pattern(k);
    }
    let mut answer = [0u64; ANSWER_LENGTH];
    request.write(comps, d, &mut answer);
    if let Some(k) = request.first_number(&answer) {
        say(
            rt,
            b"case #, number #: #, and not #\n",
            &[
                request.i as usize,
                k,
                at(&answer, k) as usize,
                request.number(k + ANSWER) as usize,
            ],
        );
        return None;
    }
    let written = request.written();
    if let Some(k) = first_byte(written, d) {
        say(
            rt,
            b"case #, byte #: #, and not #\n",
            &[
                request.i as usize,
                k,
                usize::from(box_number::read_u8(d, k)),
                usize::from(wanted(written, k)),
            ],
        );
        return None;
    }
    Some(at(&answer, ANSWER_NUMBER) as usize)
}

// A request of the list: which it is, and the list from there on.
#[derive(Clone, Copy)]
struct Request<'a> {
    i: u32,
    rest: &'a [u8],
}

impl<'a> Request<'a> {
    // Number k of the 15.
    fn number(self, k: usize) -> u32
        requires { k ≤ 14 }
    {
        box_number::read_u32(self.rest, k * 4)
    }

    // The components, and what is behind them.
    fn components(self) -> &'a [u8] {
        box_number::part(self.rest, NUMBERS_BYTES, self.rest.len())
    }

    // Where the profile starts.
    fn profile_start(self) -> usize
        ensures { result ≤ 17179869240 }
    {
        self.number(COMPS) as usize * 4 + NUMBERS_BYTES
    }

    // Where the profile ends and the written bytes start.
    fn profile_end(self) -> usize
        ensures { result ≤ 21474836535 }
    {
        self.profile_start() + self.number(PROFILE) as usize
    }

    // Where the written bytes and the case end.
    fn end(self) -> usize {
        self.profile_end() + self.number(WRITTEN) as usize
    }

    fn profile(self) -> &'a [u8] {
        box_number::part(self.rest, self.profile_start(), self.profile_end())
    }

    fn written(self) -> &'a [u8] {
        box_number::part(self.rest, self.profile_end(), self.end())
    }

    fn codestream(self) -> u64 {
        u64::from(self.number(CODESTREAM_HIGH)) * 4294967296
            + u64::from(self.number(CODESTREAM_LOW))
    }

    // Lists that do not fit in give no answer.
    fn write(self, comps: &[u32], d: &mut [u8], answer: &mut [u64]) {
        let Some(comps) = comps.get(..self.number(COMPS) as usize) else {
            return;
        };
        let Some(d) = d.get_mut(..self.number(DESTINATION) as usize) else {
            return;
        };
        cuzhantir::cuzhantir_write(
            comps,
            self.number(1),
            self.number(2),
            self.number(3),
            self.number(4),
            self.number(5),
            self.number(6),
            self.profile(),
            self.codestream(),
            d,
            answer,
        );
    }

    // The first of the four numbers that differs.
    fn first_number(self, answer: &[u64]) -> Option<usize>
        ensures { IfSome result (λ k. k < ANSWER_LENGTH) }
    {
        (0..ANSWER_LENGTH).find(|k| u64::from(self.number(*k + ANSWER)) != at(answer, *k))
    }
}

// The first byte that differs, of those that are written or of those behind them.
fn first_byte(written: &[u8], d: &[u8]) -> Option<usize> {
    let n = written.len().min(d.len());
    (0..n)
        .find(|k| d[*k] != written[*k])
        .or_else(|| (n..d.len()).find(|k| d[*k] != pattern(*k)))
}

// The content that place i of the destination has to have: a written byte, or the one before writing.
fn wanted(written: &[u8], i: usize) -> u8 {
    written.get(i).copied().unwrap_or(pattern(i))
}

// The content at place i of the destination before writing.
fn pattern(i: usize) -> u8 {
    255 - (i % 251) as u8
}
