// Writing (`opj_jp2_setup_encoder`, `opj_jp2_default_validation` and the writers of jp2.rs): its definitions, and that what is written is read back. A request is set up to fields, and
// the fields are written as bytes.
#![tactic(auto)]

// The value of bpc where the components have not the same number of bits: a bpcc follows.
pub const VARIES: u32 = 255;

// Methods: an enumerated colour space, a profile.
pub const ENUMERATED: u32 = 1;

pub const PROFILE: u32 = 2;

// The corners of a picture's area.
#[derive(Clone, Copy)]
pub struct Area {
    pub x0: u32,
    pub y0: u32,
    pub x1: u32,
    pub y1: u32,
}

// What is asked of writing: comps holds count components of 13 numbers each, space is the crate's number of a colour space, an empty profile is none, and codestream is the length
// of the codestream. The count stands beside the list, as in the C interface: whether the list has as many is a rule of writing (29).
#[derive(Clone, Copy)]
pub struct Request<'a> {
    pub comps: &'a [u32],
    pub count: u32,
    pub area: Area,
    pub space: u32,
    pub profile: &'a [u8],
    pub codestream: u64,
}

// The fields of the boxes that are not the same in every file, as numbers: they are the bytes of the boxes, VARIES and METH's 1 and 2 among them. colours is the count of colours of
// the colour space, 0 where no component is known to be one; definitions is the count of definitions in cdef, and with 0 there is no cdef.
#[derive(Clone, Copy)]
pub struct Fields {
    pub h: u32,
    pub w: u32,
    pub numcomps: u32,
    pub bpc: u32,
    pub meth: u32,
    pub enumcs: u32,
    pub colours: u32,
    pub definitions: u32,
}
