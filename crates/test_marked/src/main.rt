// Document 01's marked cases on reading, a line each: the case = the answer.
#![tactic(auto)]

mod files;
mod say;

fn main(rt: HostRuntime) {
    say::came(&rt, "empty file", b"");
    image(&rt, "grey, 2 by 3, 8 bits", 22, 1);
    image(&rt, "ihdr 13 bytes", 21, 1);
    image(&rt, "count 16384", 22, 16384);
    image(&rt, "count 16385", 22, 16385);
    palettes(&rt);
    child_length_0(&rt);
    child_extended(&rt, "child extended 15", files::FREE, 15);
    child_before_ihdr(&rt);
    child_extended(&rt, "ihdr extended 16: empty content", files::IHDR, 16);
    unknown_box(&rt);
}

fn palettes(rt: &impl Print) {
    palette(rt, "pclr 1024 entries", 1024, 0x07, 1024);
    palette(rt, "pclr 1025 entries", 1025, 0x07, 1025);
    palette(rt, "width byte 0x07, 1 byte", 1, 0x07, 1);
    palette(rt, "width byte 0x07, 0 bytes", 1, 0x07, 0);
    palette(rt, "width byte 0x08, 2 bytes", 1, 0x08, 2);
    palette(rt, "width byte 0x08, 1 byte", 1, 0x08, 1);
    palette(rt, "width byte 0x25, 4 bytes", 1, 0x25, 4);
    palette(rt, "width byte 0x25, 3 bytes", 1, 0x25, 3);
}

// jp2h has an ihdr of the given length, and a colr.
fn image(rt: &impl Print, case: &str, size: u8, count: u32) {
    picture(rt, case, 23 + size as u32, |d| {
        files::ihdr(d, 40, size as u32, count);
        files::colr(d, 40 + size as u32);
    });
}

// jp2h has an ihdr, and a palette of one column whose entries have `bytes` bytes in all.
fn palette(rt: &impl Print, case: &str, entries: u32, width: u32, bytes: u16) {
    picture(rt, case, 42 + bytes as u32, |d| {
        files::ihdr(d, 40, 22, 1);
        files::pclr(d, 12 + bytes as u32, entries, width);
    });
}

// jp2h has an ihdr whose length is 0.
fn child_length_0(rt: &impl Print) {
    picture(
        rt,
        "child length 0",
        16,
        |d| files::head(d, 40, 0, files::IHDR),
    );
}

// jp2h has a box of an extended length, which has no content.
fn child_extended(rt: &impl Print, case: &str, ty: u32, length: u32) {
    picture(rt, case, 24, |d| files::extended(d, 40, ty, length));
}

// The same, and an ihdr after it.
fn child_before_ihdr(rt: &impl Print) {
    picture(rt, "child extended 16: empty content", 46, |d| {
        files::extended(d, 40, files::FREE, 16);
        files::ihdr(d, 56, 22, 1);
    });
}

// A picture's file with a jp2h of a length, whose boxes are written from 40 on.
fn picture<F: FnOnce(&mut [u8])>(rt: &impl Print, case: &str, length: u32, boxes: F)
    requires { F.IsAlwaysCallable boxes }
{
    let mut d = [0u8; 1107];
    let n = files::picture(&mut d, length);
    boxes(&mut d);
    say::came(rt, case, box_number::part(&d, 0, n));
}

// No jp2h.
fn unknown_box(rt: &impl Print) {
    let mut d = [0u8; 1107];
    files::start(&mut d);
    files::head(&mut d, 32, 8, files::FREE);
    files::head(&mut d, 40, 8, files::JP2C);
    say::came(
        rt,
        "signature, ftyp (20 bytes), empty unknown box, codestream",
        // the file ends before the list does; with &d[..48] the bound is not proved, since `head` says nothing of the length
        box_number::part(&d, 0, 48),
    );
}
