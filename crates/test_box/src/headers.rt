// Box headers, in the file and inside jp2h.
use crate::kinds::{self, hex};
use box_header::{Jp2BoxHeader, NoHeader};
use box_kind::Jp2BoxType;
use test_lines::{bytes, say};

const MOST: u32 = 0xffffffff;

// The last place that a usize can name.
const FAR: usize = 0xffff_ffff_ffff_ffff;

pub(crate) fn all(rt: &impl Print) {
    // a cut header is answered before a high word, and before a length of 0 inside jp2h
    each_beginning(rt, b"\x00\x00\x00\x01jp2c\x00\x00\x00\x01\x00\x00\x00\x10");
    each_beginning(rt, b"\x00\x00\x00\x00jp2c");
    contents(rt);
    new(rt, Jp2BoxType::JP2H);
    new(rt, Jp2BoxType::Unknown(0x75756964));
    new(rt, Jp2BoxType::None);
    content_lengths(rt);
    nexts(rt);
    writes(rt);
}

fn each_beginning(rt: &impl Print, s: &[u8]) {
    for n in 0..=s.len() {
        read(rt, &s[..n]);
    }
}

// Lengths of 4 bytes, then of 8.
fn contents(rt: &impl Print) {
    each_content(
        rt,
        b"\x00\x00\x00\x00jp2c\xff\x4f\
          \x00\x00\x00\x02jP  \
          \x00\x00\x00\x03ftyp\
          \x00\x00\x00\x04jp2h\
          \x00\x00\x00\x05ihdr\
          \x00\x00\x00\x06colr\
          \x00\x00\x00\x07uuid\
          \x00\x00\x00\x08\x75\x75\x69\x94\
          \x00\x00\x00\x0cjP  \x0d\x0a\x87\x0a\
          \x00\x00\x00\x10cdef\x00\x00\x00\x01\x00\x00\x00\x10\
          \x01\x00\x00\x00pclr\
          \x80\x00\x00\x00cmap\
          \xff\xff\xff\xff\xff\xff\xff\xff",
        &[10, 18, 26, 34, 42, 50, 58, 66, 78, 94, 102, 110, 118],
    );
    each_content(
        rt,
        b"\x00\x00\x00\x01bpcc\x00\x00\x00\x00\x00\x00\x00\x00\
          \x00\x00\x00\x01bpcc\x00\x00\x00\x00\x00\x00\x00\x01\
          \x00\x00\x00\x01bpcc\x00\x00\x00\x00\x00\x00\x00\x0f\
          \x00\x00\x00\x01bpcc\x00\x00\x00\x00\x00\x00\x00\x10\
          \x00\x00\x00\x01bpcc\x00\x00\x00\x00\xff\xff\xff\xff\
          \x00\x00\x00\x01bpcc\x00\x00\x00\x01\x00\x00\x00\x00\
          \x00\x00\x00\x01bpcc\x01\x00\x00\x00\x00\x00\x00\x10\
          \x00\x00\x00\x01bpcc\xff\xff\xff\xff\xff\xff\xff\xff\
          \x00\x00\x00\x01bpcc\x00\x00\x00\x00\x00\x00\x00\x11\x07",
        &[16, 32, 48, 64, 80, 96, 112, 128, 145],
    );
}

// Contents one after the other, of which each ends where it is said.
fn each_content(rt: &impl Print, contents: &[u8], ends: &[usize]) {
    let mut start = 0;
    for end in ends {
        read(rt, box_number::part(contents, start, *end));
        start = *end;
    }
}

fn content_lengths(rt: &impl Print) {
    content_length(rt, 0, 8);
    content_length(rt, 7, 8);
    content_length(rt, 8, 8);
    content_length(rt, 9, 8);
    content_length(rt, 15, 16);
    content_length(rt, 16, 16);
    content_length(rt, 17, 16);
    content_length(rt, MOST, 8);
    content_length(rt, MOST, 16);
    content_length(rt, MOST, 0);
    content_length(rt, 0, MOST);
    content_length(rt, MOST, MOST);
}

fn nexts(rt: &impl Print) {
    next(rt, 0, 0);
    next(rt, 0, 85);
    next(rt, 12, 0);
    next(rt, 45, 32);
    next(rt, MOST, 0);
    next(rt, 1, MOST);
    next(rt, MOST, MOST);
}

// The header of 8 bytes in rooms of 0 to 10 bytes: the last place, one past it, and far away.
fn writes(rt: &impl Print) {
    write(rt, 12, Jp2BoxType::JP, 0, 0);
    write(rt, 12, Jp2BoxType::JP, 7, 0);
    write(rt, 12, Jp2BoxType::JP, 8, 0);
    write(rt, 12, Jp2BoxType::JP, 8, 1);
    write(rt, 0, Jp2BoxType::JP2C, 10, 0);
    write(rt, 1, Jp2BoxType::UUID, 10, 1);
    write(rt, MOST, Jp2BoxType::Unknown(0x01020304), 10, 2);
    write(rt, MOST, Jp2BoxType::Unknown(0x01020304), 10, 3);
    write(rt, 0x01020304, Jp2BoxType::None, 10, 2);
    write(rt, 8, Jp2BoxType::XML, 10, FAR);
}

fn read(rt: &impl Print, c: &[u8]) {
    say(rt, b"from_stream of ", &[]);
    bytes(rt, c);
    came(rt, Jp2BoxHeader::from_stream(c));
    say(rt, b"read of ", &[]);
    bytes(rt, c);
    came(rt, Jp2BoxHeader::read(c));
}

fn came(rt: &impl Print, r: Result<Jp2BoxHeader, NoHeader>) {
    let _ = print!(rt; " = ");
    let _ = match r {
        Ok(h) => {
            header(rt, h);
            println!(rt; "")
        }
        Err(e) => println!(rt; "{e:?}"),
    };
}

fn header(rt: &impl Print, h: Jp2BoxHeader) {
    let ty = h.ty;
    say(rt, b"Header ", &[]);
    kinds::name(rt, ty);
    say(
        rt,
        b", length #, header_length #",
        &[h.length as usize, h.header_length as usize],
    );
}

fn new(rt: &impl Print, ty: Jp2BoxType) {
    let h = Jp2BoxHeader::new(ty);
    say(rt, b"new ", &[]);
    header(rt, h);
    say(rt, b", ty_u32 ", &[]);
    hex(rt, h.ty_u32());
    say(rt, b"\n", &[]);
}

fn content_length(rt: &impl Print, length: u32, header_length: u32) {
    let h = Jp2BoxHeader {
        length,
        ty: Jp2BoxType::COLR,
        header_length,
    };
    say(
        rt,
        b"content_length of Header COLR, length #, header_length # = #\n",
        &[
            length as usize,
            header_length as usize,
            h.content_length() as usize,
        ],
    );
}

fn next(rt: &impl Print, length: u32, at: u32) {
    let h = Jp2BoxHeader {
        length,
        ty: Jp2BoxType::COLR,
        header_length: 8,
    };
    say(
        rt,
        b"next at # of Header COLR, length #, header_length 8 = #\n",
        &[at as usize, length as usize, h.next(at) as usize],
    );
}

// Only the first bytes of d are lent, as many as there is to be room for.
fn write(rt: &impl Print, length: u32, ty: Jp2BoxType, room: usize, at: usize) {
    let mut d = [0xaau8; 10];
    let h = Jp2BoxHeader {
        length,
        ty,
        header_length: 8,
    };
    if let Some(d) = d.get_mut(..room) {
        write_in(rt, h, d, at);
    }
}

// The list and the place are those of `write`, which is tried here.
fn write_in(rt: &impl Print, h: Jp2BoxHeader, d: &mut [u8], at: usize) {
    say(rt, b"write ", &[]);
    header(rt, h);
    let fitted = h.write(d, at);
    say(
        rt,
        b" at # of # bytes = #, ",
        &[at, d.len(), usize::from(fitted)],
    );
    bytes(rt, d);
    say(rt, b"\n", &[]);
}
