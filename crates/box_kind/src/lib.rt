// The kinds of box (consts.rs).
#![tactic(auto)]

ghost use Rattle.std.specs.Prelude.{◌≡◌};
ghost use Rattle.box_number.specs.Table.{holds};
ghost use Rattle.box_kind.specs.Kind.{kind_of, number_of, is_file_header, is_image_header};

#[derive(Clone, Copy, Debug, PartialEq, Eq)]
pub enum Jp2BoxType {
    None,
    JPIP,
    JP,
    FTYP,
    JP2H,
    IHDR,
    COLR,
    JP2C,
    URL,
    PCLR,
    CMAP,
    CDEF,
    DTBL,
    BPCC,
    JP2,
    RES,
    JP2I,
    XML,
    UUID,
    UINF,
    Unknown(u32),
}

// Each number stands in both directions: a table would name each once more.
impl From<u32> for Jp2BoxType {
    ghost from_gives = { λ n k. k ≡ kind_of n };

    // Inlined: a call takes a fifth of the instructions for a box that is skipped outside jp2h.
    #[inline(always)]
    fn from(value: u32) -> Self {
        match value {
            0x6a706970 => Jp2BoxType::JPIP,
            0x6a502020 => Jp2BoxType::JP,
            0x66747970 => Jp2BoxType::FTYP,
            0x6a703268 => Jp2BoxType::JP2H,
            0x69686472 => Jp2BoxType::IHDR,
            0x636f6c72 => Jp2BoxType::COLR,
            0x6a703263 => Jp2BoxType::JP2C,
            0x75726c20 => Jp2BoxType::URL,
            0x70636c72 => Jp2BoxType::PCLR,
            0x636d6170 => Jp2BoxType::CMAP,
            0x63646566 => Jp2BoxType::CDEF,
            0x6474626c => Jp2BoxType::DTBL,
            0x62706363 => Jp2BoxType::BPCC,
            0x6a703220 => Jp2BoxType::JP2,
            0x72657320 => Jp2BoxType::RES,
            0x6a703269 => Jp2BoxType::JP2I,
            0x786d6c20 => Jp2BoxType::XML,
            0x75756994 => Jp2BoxType::UUID,
            0x75696e66 => Jp2BoxType::UINF,
            _ => Jp2BoxType::Unknown(value),
        }
    }
}

// The number of a kind; None, which no file has, is 0.
impl From<Jp2BoxType> for u32 {
    ghost from_gives = { λ k n. n ≡ number_of k };

    fn from(kind: Jp2BoxType) -> u32 {
        match kind {
            Jp2BoxType::None => 0,
            Jp2BoxType::JPIP => 0x6a706970,
            Jp2BoxType::JP => 0x6a502020,
            Jp2BoxType::FTYP => 0x66747970,
            Jp2BoxType::JP2H => 0x6a703268,
            Jp2BoxType::IHDR => 0x69686472,
            Jp2BoxType::COLR => 0x636f6c72,
            Jp2BoxType::JP2C => 0x6a703263,
            Jp2BoxType::URL => 0x75726c20,
            Jp2BoxType::PCLR => 0x70636c72,
            Jp2BoxType::CMAP => 0x636d6170,
            Jp2BoxType::CDEF => 0x63646566,
            Jp2BoxType::DTBL => 0x6474626c,
            Jp2BoxType::BPCC => 0x62706363,
            Jp2BoxType::JP2 => 0x6a703220,
            Jp2BoxType::RES => 0x72657320,
            Jp2BoxType::JP2I => 0x6a703269,
            Jp2BoxType::XML => 0x786d6c20,
            Jp2BoxType::UUID => 0x75756994,
            Jp2BoxType::UINF => 0x75696e66,
            Jp2BoxType::Unknown(value) => value,
        }
    }
}

impl Jp2BoxType {
    // A box of the file itself: jP, ftyp or jp2h.
    pub fn is_file_header(self) -> bool
        ensures { result ≡ holds (is_file_header self) }
    {
        matches!(self, Jp2BoxType::JP | Jp2BoxType::FTYP | Jp2BoxType::JP2H)
    }

    // A box that is read inside jp2h.
    pub fn is_image_header(self) -> bool
        ensures { result ≡ holds (is_image_header self) }
    {
        matches!(
            self,
            Jp2BoxType::IHDR
                | Jp2BoxType::COLR
                | Jp2BoxType::BPCC
                | Jp2BoxType::PCLR
                | Jp2BoxType::CMAP
                | Jp2BoxType::CDEF
        )
    }
}
