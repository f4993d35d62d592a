// The header record (`opj_jp2` of types.rs and the structs inside it), by value and in parts, and where a box is.
#![tactic(auto)]

ghost use Rattle.std.specs.Prelude.{◌≡◌, ◌+◌, ◌*◌, get_or};
ghost use Rattle.read_record.specs.Component.{numbers_each};
ghost use Rattle.read_record.specs.Record.{blank, status};
ghost use Rattle.read_record.specs.State.{weight, bit, with_bit, unknown};
ghost use Rattle.box_number.specs.Table.{◌≠?◌, holds};

use box_refusal::{Cause, Refusal};

// ihdr. numcomps is the length of the crate's `comps`, and 0 until an ihdr is read.
#[derive(Clone, Copy, Default)]
pub struct Image {
    pub h: u32,
    pub w: u32,
    pub numcomps: u32,
    pub bpc: u32,
    pub c: u32,
    pub unkc: u32,
    pub ipr: u32,
}

// CIELab: the first `count` of the numbers count, 8 or 9; 0 where the colour is another.
// An array with its count, since the core has no heap: the numbers are passed by value.
#[derive(Clone, Copy, Default)]
pub struct Lab {
    pub numbers: [u32; 9],
    pub count: u32,
}

// No numbers of CIELab.
pub const NO_LAB: Lab = Lab {
    numbers: [0; 9],
    count: 0,
};

// colr. held is the crate's `jp2_has_colr`: a number, as are the flags of `Status`, since callers hand in records of their own and C has them as numbers. Any but 0 is on,
// so that a bool would ask more of callers.
#[derive(Clone, Copy, Default)]
pub struct Colour {
    pub meth: u32,
    pub precedence: u32,
    pub approx: u32,
    pub enumcs: u32,
    pub lab: Lab,
    pub held: u32,
}

// ftyp, without its list.
#[derive(Clone, Copy, Default)]
pub struct FileType {
    pub brand: u32,
    pub minversion: u32,
}

// A list that stays in the file: where it starts, and how many it has. A list that is not there has none, as an empty slice has; an Option would be a second way to say so.
#[derive(Clone, Copy, Default)]
pub struct Span {
    pub place: usize,
    pub count: usize,
}

// A list that is not there.
pub const NO_LIST: Span = Span { place: 0, count: 0 };

// A palette that stays in the file: where its columns' widths start, and how many entries and columns it has. No columns: no palette, as with a list.
#[derive(Clone, Copy, Default)]
pub struct Palette {
    pub place: usize,
    pub entries: u32,
    pub columns: u32,
}

// A palette that is not there.
pub const NO_PALETTE: Palette = Palette {
    place: 0,
    entries: 0,
    columns: 0,
};

// The lists of the record; a count of 0 where there is none.
#[derive(Clone, Copy, Default)]
pub struct Lists {
    pub cl: Span,
    pub bpcc: Span,
    pub icc: Span,
    pub pclr: Palette,
    pub cmap: Span,
    pub cdef: Span,
}

// jp2_state, jp2_img_state, has_jp2h and has_ihdr.
#[derive(Clone, Copy, Default)]
pub struct Status {
    pub state: u32,
    pub imgstate: u32,
    pub hasjp2h: u32,
    pub hasihdr: u32,
}

// The bits of jp2_state, with their weights.
#[derive(Clone, Copy, Debug, PartialEq, Eq)]
pub enum Bit {
    Signature = 1,
    FileType = 2,
    Header = 4,
    Codestream = 8,
}

impl Status {
    // Whether a bit of jp2_state is set.
    pub fn has(self, b: Bit) -> bool
        ensures { result ≡ holds (bit (weight b) self.state ≠? 0) }
    {
        self.state / b as u32 % 2 != 0
    }

    // The status with a bit of jp2_state.
    pub fn with(self, b: Bit) -> Self
        ensures { result ≡ status (with_bit (weight b) self.state) self.imgstate self.hasjp2h self.hasihdr }
    {
        let mut s = self;
        if !self.has(b) {
            s.state += b as u32;
        }
        s
    }
}

// jp2_state or jp2_img_state once a box was skipped: all 31 low bits are set, and bit 31 stays.
pub fn unknown(state: u32) -> u32
    ensures { result ≡ unknown state }
{
    state / HIGH * HIGH + (HIGH - 1)
}

// The bit of a state above the 31 low ones.
const HIGH: u32 = 2147483648;

#[derive(Clone, Copy, Default)]
pub struct Jp2 {
    pub image: Image,
    pub colour: Colour,
    pub filetype: FileType,
    pub lists: Lists,
    pub status: Status,
}

// Where a box is in the file: the place of its header, and the place where its content starts.
#[derive(Clone, Copy, Debug, PartialEq, Eq)]
pub struct At {
    pub place: u32,
    pub start: u32,
}

impl At {
    // A refusal of the box.
    pub fn refused(self, cause: Cause) -> Refusal<u32>
        ensures { result ≡ record { cause = cause; place = self.place } }
    {
        Refusal {
            cause,
            place: self.place,
        }
    }
}

// The record before any box.
pub fn opj_jp2_create() -> Jp2
    ensures { result ≡ blank }
{
    Jp2::default()
}

// The numbers of a component (`opj_image_comp` of image.rs), in the order of its fields. They are indices into the lists of thirteen numbers that C lends.
pub const DX: u32 = 0;

pub const DY: u32 = 1;

pub const W: u32 = 2;

pub const H: u32 = 3;

pub const X0: u32 = 4;

pub const Y0: u32 = 5;

pub const PREC: u32 = 6;

pub const BPP: u32 = 7;

pub const SGND: u32 = 8;

pub const RESNO_DECODED: u32 = 9;

pub const FACTOR: u32 = 10;

pub const DATA: u32 = 11;

pub const ALPHA: u32 = 12;

// The most components that a picture can have.
pub const MOST_COMPONENTS: u32 = 16384;

// How many numbers a component has, and the value of `data` for a component without samples: a number, as C has it in its lists.
pub const COMPONENT_NUMBERS: usize = 13;

pub const NO_DATA: u32 = 4294967295;

// Number k of component c in a list of thirteen numbers each (`opj_image_comp` of image.rs); 0 past the end of the list.
pub fn component(comps: &[u32], c: u32, k: u32) -> u32
    ensures { result ≡ get_or comps.now (numbers_each * c + k) 0 }
{
    let at = COMPONENT_NUMBERS * c as usize + k as usize;
    comps.get(at).copied().unwrap_or(0)
}
