// The header of a box (`Jp2BoxHeader` of jp2.rs).
#![tactic(auto)]

ghost use Rattle.std.specs.Prelude.{◌+◌, ◌-◌, ◌≤◌, ◌≡◌, length};
ghost use Rattle.box_kind.specs.Kind.{number_of};
ghost use Rattle.box_header.specs.Box.{LBox, header, child_header, new_header, fits_header, with_header};

use box_kind::Jp2BoxType;

// The largest length that 32 bits hold.
pub const LARGEST: usize = 4294967295;

#[derive(Clone, Copy)]
pub struct Jp2BoxHeader {
    pub length: u32,
    pub ty: Jp2BoxType,
    pub header_length: u32,
}

// The ways in which a header is missing.
#[derive(Clone, Copy, Debug, PartialEq, Eq)]
pub enum NoHeader {
    NoBytes,
    Cut,
    HighWord,
    LengthZero,
}

impl Jp2BoxHeader {
    // The header of a box without content.
    pub fn new(ty: Jp2BoxType) -> Self
        ensures { result ≡ new_header ty }
    {
        Jp2BoxHeader {
            length: 8,
            ty,
            header_length: 8,
        }
    }

    // The header of a box of the file: c is the file's bytes from the box's first to the last. A part of its caller, since a call takes a fifth of a turn of the walk.
    #[inline(always)]
    pub fn from_stream(c: &[u8]) -> Result<Self, NoHeader>
        ensures { result ≡ header c.now }
    {
        if c.len() == 0 {
            return Err(NoHeader::NoBytes);
        }
        if c.len() < 8 {
            return Err(NoHeader::Cut);
        }
        Self::with_lbox(c, box_number::read_u32(c, 0))
    }

    // The same, of 8 bytes or more, whose LBox was read.
    #[inline(always)]
    fn with_lbox(c: &[u8], stated: u32) -> Result<Self, NoHeader>
        requires { (8 ≤ length c.now) × (stated ≡ LBox c.now) }
        ensures { result ≡ header c.now }
    {
        let ty = Jp2BoxType::from(box_number::read_u32(c, 4));
        if stated == 0 {
            if LARGEST < c.len() {
                return Err(NoHeader::HighWord);
            }
            return Ok(Jp2BoxHeader {
                length: c.len() as u32,
                ty,
                header_length: 8,
            });
        }
        if stated == 1 {
            if c.len() < 16 {
                return Err(NoHeader::Cut);
            }
            let high = box_number::read_u32(c, 8);
            let low = box_number::read_u32(c, 12);
            if high != 0 {
                return Err(NoHeader::HighWord);
            }
            return Ok(Jp2BoxHeader {
                length: low,
                ty,
                header_length: 16,
            });
        }
        Ok(Jp2BoxHeader {
            length: stated,
            ty,
            header_length: 8,
        })
    }

    // The header of a box inside jp2h: c is jp2h's content from the box's first byte to the last. A length of 0 has no meaning there.
    pub fn read(c: &[u8]) -> Result<Self, NoHeader>
        ensures { result ≡ child_header c.now }
    {
        if c.len() < 8 {
            return Jp2BoxHeader::from_stream(c);
        }
        let lbox = box_number::read_u32(c, 0);
        if lbox == 0 {
            return Err(NoHeader::LengthZero);
        }
        Self::with_lbox(c, lbox)
    }

    // Length and kind, 8 bytes, to a place of d; whether they had room there. The list and the place are two parameters, as in `opj_write_bytes`.
    pub fn write(self, d: &mut [u8], at: usize) -> bool
        ensures { (result ≡ fits_header d.old at) × (d.new ≡ with_header d.old at self) }
    {
        if box_number::lies_outside(d.len(), at, 8) {
            return false;
        }
        box_number::opj_write_bytes(d, at, self.length, 4);
        box_number::opj_write_bytes(d, at + 4, self.ty_u32(), 4)
    }

    pub fn ty_u32(self) -> u32
        ensures { result ≡ number_of self.ty }
    {
        u32::from(self.ty)
    }

    // The bytes after the header; none where the length is below the header's own.
    pub fn content_length(self) -> u32
        ensures { result ≡ self.length - self.header_length }
    {
        self.length.saturating_sub(self.header_length)
    }

    // Where the box after this one starts.
    pub fn next(self, at: u32) -> usize
        ensures { result ≡ at + self.length }
    {
        at as usize + self.length as usize
    }
}
