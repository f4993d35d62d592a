// Edge cases of numbers of 1 to 4 bytes and of parts of a slice, a line each: the call = its result.
#![tactic(auto)]

use test_lines::{bytes, say};

// The last place that a usize can name.
const FAR: usize = 0xffff_ffff_ffff_ffff;

fn main(rt: HostRuntime) {
    // the values next to which a number needs another byte, or another bit
    each_limit(
        &rt,
        &[
            0, 1, 0x7f, 0x80, 0xff, 0x100, 0xffff, 0x10000, 0xffffff, 0x1000000, 0xffffffff,
        ],
    );
    // every place of four bytes, the end, and places past it: a byte past the end counts as 0
    each_place(
        &rt,
        b"\xff\x80\x01\x7f",
        &[0, 1, 2, 3, 4, 5, 0x1_0000_0000, FAR],
    );
    each_place(&rt, b"", &[0]);
    odd_widths(&rt, b"\x01\x02\x03\x04\x05\x06");
    parts(&rt, b"\xff\x80\x01\x7f");
    rooms(&rt);
}

fn each_limit(rt: &impl Print, limits: &[u32]) {
    for limit in limits {
        there_and_back(rt, *limit);
    }
}

// A number is written between other bytes and read back, in each width.
fn there_and_back(rt: &impl Print, value: u32) {
    in_width(rt, value, 0);
    in_width(rt, value, 1);
    in_width(rt, value, 2);
    in_width(rt, value, 3);
    in_width(rt, value, 5);
    let mut d = [0xaau8; 6];
    write(rt, &mut d, 1, value, 4);
    read_bytes(rt, &d, 1, 4);
    read_numbers(rt, &d, 4, 3, 1);
}

fn in_width(rt: &impl Print, value: u32, nb: usize) {
    let mut d = [0xaau8; 6];
    write(rt, &mut d, 1, value, nb);
    read_bytes(rt, &d, 1, nb);
}

fn each_place(rt: &impl Print, s: &[u8], places: &[usize]) {
    for place in places {
        reads(rt, s, *place);
    }
}

fn reads(rt: &impl Print, s: &[u8], at: usize) {
    read_numbers(rt, s, at, at, at);
    read_bytes(rt, s, at, 1);
    read_bytes(rt, s, at, 2);
    read_bytes(rt, s, at, 3);
    read_bytes(rt, s, at, 4);
}

// A number of no bytes is 0; of more than four bytes the first four count.
fn odd_widths(rt: &impl Print, s: &[u8]) {
    read_bytes(rt, s, 0, 0);
    read_bytes(rt, s, 0, 5);
    read_bytes(rt, s, 2, 6);
    read_bytes(rt, s, 3, FAR);
    read_bytes(rt, s, FAR, FAR);
}

fn parts(rt: &impl Print, s: &[u8]) {
    part(rt, s, 0, 0);
    part(rt, s, 0, 1);
    part(rt, s, 0, 4);
    part(rt, s, 0, 5);
    part(rt, s, 1, 3);
    part(rt, s, 2, 2);
    part(rt, s, 3, 1);
    part(rt, s, 3, 4);
    part(rt, s, 3, FAR);
    part(rt, s, 4, 4);
    part(rt, s, 4, 5);
    part(rt, s, 5, 6);
    part(rt, s, FAR, 0);
    part(rt, s, FAR, FAR);
}

// With and without room: the last place, one past it, no bytes, and widths that no number has.
fn rooms(rt: &impl Print) {
    in_room(rt, 0, 0, 0);
    in_room(rt, 0, 0, 1);
    in_room(rt, 3, 0, 3);
    in_room(rt, 3, 0, 4);
    in_room(rt, 3, 1, 2);
    in_room(rt, 3, 1, 3);
    in_room(rt, 3, 2, 1);
    in_room(rt, 3, 3, 1);
    in_room(rt, 3, 3, 0);
    in_room(rt, 3, 4, 0);
    in_room(rt, 3, FAR, 1);
    in_room(rt, 8, 0, 5);
    in_room(rt, 8, 0, 8);
    in_room(rt, 8, 0, FAR);
    in_room(rt, 8, 4, 4);
    in_room(rt, 8, 5, 4);
    in_room(rt, 8, FAR, 4);
}

// Only the first bytes of d are lent, as many as there is to be room for.
fn in_room(rt: &impl Print, room: usize, at: usize, nb: usize) {
    let mut d = [0xaau8; 8];
    if let Some(d) = d.get_mut(..room) {
        write(rt, d, at, 0x01020304, nb);
    }
}

// A call with its numbers, the bytes that it reads, and its result.
fn came(rt: &impl Print, call: &[u8], numbers: &[usize], s: &[u8], n: usize) {
    say(rt, call, numbers);
    bytes(rt, s);
    say(rt, b" = #\n", &[n]);
}

// A number of one byte, of two and of four, each at a place of its own.
fn read_numbers(rt: &impl Print, s: &[u8], one: usize, two: usize, four: usize) {
    let n = usize::from(box_number::read_u8(s, one));
    came(rt, b"read_u8 at # of ", &[one], s, n);
    let n = usize::from(box_number::read_u16(s, two));
    came(rt, b"read_u16 at # of ", &[two], s, n);
    let n = box_number::read_u32(s, four) as usize;
    came(rt, b"read_u32 at # of ", &[four], s, n);
}

fn read_bytes(rt: &impl Print, s: &[u8], at: usize, nb: usize) {
    let n = box_number::opj_read_bytes(s, at, nb) as usize;
    came(rt, b"opj_read_bytes, width # at # of ", &[nb, at], s, n);
}

// The list and the place are those of `opj_write_bytes`, which is tried here.
fn write(rt: &impl Print, d: &mut [u8], at: usize, value: u32, nb: usize) {
    let fitted = box_number::opj_write_bytes(d, at, value, nb);
    say(
        rt,
        b"opj_write_bytes #, width # at # of # bytes = #, ",
        &[value as usize, nb, at, d.len(), usize::from(fitted)],
    );
    bytes(rt, d);
    say(rt, b"\n", &[]);
}

fn part(rt: &impl Print, s: &[u8], start: usize, end: usize) {
    say(rt, b"part from # to # of ", &[start, end]);
    bytes(rt, s);
    say(rt, b" = ", &[]);
    bytes(rt, box_number::part(s, start, end));
    say(rt, b"\n", &[]);
}
