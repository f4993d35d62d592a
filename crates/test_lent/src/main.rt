// The readers over a lent record, one after the other on the record that the one before left, a line each. Before each content that is read comes one that is refused, and leaves the record.
#![tactic(auto)]

use read_record::Jp2;

mod lend;
mod say;

fn main(rt: HostRuntime) {
    let mut j = read_record::opj_jp2_create();
    before_jp2h(&rt, &mut j);
    // The record after jp2h is not read on.
    let mut k = j;
    jp2h(&rt, &mut k);
    image_and_colour(&rt, &mut j);
    lists(&rt, &mut j);
}

fn before_jp2h(rt: &impl Print, j: &mut Jp2) {
    let _ = lend::lend_jp(
        rt,
        0,
        ("jP, another number", b"\x0d\x0a\x87\x0b"),
        ("jP", b"\x0d\x0a\x87\x0a"),
        j,
    );
    // A brand, a version and a list of one.
    let _ = lend::lend_ftyp(
        rt,
        12,
        ("ftyp of 7 bytes", b"jp2 \0\0\0"),
        ("ftyp", b"jp2 \0\0\0\0jp2 "),
        j,
    );
}

// An ihdr, of 13 bytes and of 14.
fn jp2h(rt: &impl Print, j: &mut Jp2) {
    let _ = lend::lend_jp2h(
        rt,
        32,
        (
            "jp2h with an ihdr of 13 bytes",
            b"\0\0\0\x15ihdr\0\0\0\x03\0\0\0\x05\0\x01\0\0\0",
        ),
        ("jp2h", b"\0\0\0\x16ihdr\0\0\0\x03\0\0\0\x05\0\x01\0\0\0\0"),
        j,
    );
}

fn image_and_colour(rt: &impl Print, j: &mut Jp2) {
    // Height 3, width 2, one component of 8 bits.
    let _ = lend::lend_ihdr(
        rt,
        40,
        ("ihdr of 13 bytes", b"\0\0\0\x03\0\0\0\x02\0\x01\x07\x07\0"),
        ("ihdr", b"\0\0\0\x03\0\0\0\x02\0\x01\x07\x07\0\0"),
        j,
    );
    let _ = lend::lend_bpcc(
        rt,
        62,
        ("bpcc of 2 bytes", b"\x07\x07"),
        ("bpcc", b"\x07"),
        j,
    );
    // Method 1, and the colour space grey.
    let _ = lend::lend_colr(
        rt,
        71,
        ("colr of 2 bytes", b"\x01\0"),
        ("colr", b"\x01\0\0\0\0\0\x11"),
        j,
    );
}

fn lists(rt: &impl Print, j: &mut Jp2) {
    let _ = lend::lend_pclr(
        rt,
        86,
        ("pclr of 1025 entries", &palette::<1029>(1025)),
        ("pclr of 1024 entries", &palette::<1028>(1024)),
        j,
    );
    // Component 0 through column 0.
    let _ = lend::lend_cmap(
        rt,
        1122,
        ("cmap of 3 bytes", b"\0\0\x01"),
        ("cmap", b"\0\0\x01\0"),
        j,
    );
    // One definition: channel 0 is colour 1.
    let _ = lend::lend_cdef(
        rt,
        1134,
        ("cdef of no definitions", b"\0\0\0\0\0\0\0\x01"),
        ("cdef", b"\0\x01\0\0\0\0\0\x01"),
        j,
    );
}

// The content of a pclr of one column of 8 bits, in N bytes; all entries are 0.
fn palette<const N: usize>(entries: u32) -> [u8; N] {
    let mut c = [0u8; N];
    box_number::opj_write_bytes(&mut c, 0, entries, 2);
    box_number::opj_write_bytes(&mut c, 2, 1, 1);
    box_number::opj_write_bytes(&mut c, 3, 7, 1);
    c
}
