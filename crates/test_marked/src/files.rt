// The boxes of the marked cases, written into a lent list of zeros. A list and a place are two parameters, as in `opj_write_bytes`.
ghost use Rattle.std.specs.Prelude.{◌+◌, ◌≡◌};
ghost use Rattle.test_marked.specs.Private.Boxes.{with_head, with_extended, with_start, with_picture, with_ihdr, with_colr, with_pclr};

// the kinds as the standard writes them, and not by the table that the code has
pub const IHDR: u32 = 0x69686472;

pub const JP2C: u32 = 0x6a703263;

// 'free', a type that no reader knows.
pub const FREE: u32 = 0x66726565;

// LBox and TBox.
pub(crate) fn head(d: &mut [u8], at: u32, length: u32, ty: u32)
    ensures { d.new ≡ with_head d.old at length ty }
{
    box_number::opj_write_bytes(d, at as usize, length, 4);
    box_number::opj_write_bytes(d, at as usize + 4, ty, 4);
}

// LBox 1, TBox and XLBox.
pub(crate) fn extended(d: &mut [u8], at: u32, ty: u32, length: u32)
    ensures { d.new ≡ with_extended d.old at ty length }
{
    head(d, at, 1, ty);
    box_number::opj_write_bytes(d, at as usize + 12, length, 4);
}

// The signature, and ftyp with one entry in its list.
pub(crate) fn start(d: &mut [u8])
    ensures { d.new ≡ with_start d.old }
{
    text::text(
        d,
        0,
        b"\0\0\0\x0cjP  \x0d\x0a\x87\x0a\0\0\0\x14ftypjp2 \0\0\0\0jp2 ",
    );
}

// All but the content of jp2h, a box of a length, which begins at 40. Gives the file's length.
pub(crate) fn picture(d: &mut [u8], length: u32) -> usize
    ensures { (result ≡ length + 40) × (d.new ≡ with_picture d.old length) }
{
    start(d);
    head(d, 32, length, 0x6a703268);
    text::text(d, length as usize + 32, b"\0\0\0\x08jp2c");
    length as usize + 40
}

// Height 3, width 2, the count, 8 bits.
pub(crate) fn ihdr(d: &mut [u8], at: u32, length: u32, count: u32)
    ensures { d.new ≡ with_ihdr d.old at length count }
{
    head(d, at, length, IHDR);
    text::text(d, at as usize + 8, b"\0\0\0\x03\0\0\0\x02\0\0\x07\x07");
    box_number::opj_write_bytes(d, at as usize + 16, count, 2);
}

// Method 1, and the colour space grey.
pub(crate) fn colr(d: &mut [u8], at: u32)
    ensures { d.new ≡ with_colr d.old at }
{
    text::text(d, at as usize, b"\0\0\0\x0fcolr\x01\0\0\0\0\0\x11");
}

// One column of a width byte, after an ihdr; all entries are 0.
pub(crate) fn pclr(d: &mut [u8], length: u32, entries: u32, width: u32)
    ensures { d.new ≡ with_pclr d.old length entries width }
{
    head(d, 62, length, 0x70636c72);
    box_number::opj_write_bytes(d, 70, entries, 2);
    box_number::opj_write_bytes(d, 72, 1, 1);
    box_number::opj_write_bytes(d, 73, width, 1);
}
