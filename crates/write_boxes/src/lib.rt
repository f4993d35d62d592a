// The boxes of a file before its codestream (the writers of jp2.rs), one after the other into a lent list of bytes. All tests come first.
#![tactic(auto)]

ghost use Rattle.std.specs.Prelude.{ℕ, ◌+◌, ◌*◌, ◌≤◌, ◌<◌, ◌≡◌, false, length, IsTrue};
ghost use Rattle.box_number.specs.Number.{placed};
ghost use Rattle.box_number.specs.Table.{◌≠?◌, ◌and◌, holds, Says};
ghost use Rattle.box_refusal.specs.Told.{told};
ghost use Rattle.write_rules.specs.Request.{asked};
ghost use Rattle.read_record.specs.Component.{most_components};
ghost use Rattle.write_rules.specs.Setup.{written_definition, ill};
ghost use Rattle.write_rules.specs.Box.{box_header};
ghost use Rattle.write_rules.specs.Signature.{signature};
ghost use Rattle.write_rules.specs.FileType.{file_type};
ghost use Rattle.write_rules.specs.Ihdr.{ihdr};
ghost use Rattle.write_rules.specs.Bpcc.{bpcc_content, bpcc};
ghost use Rattle.write_rules.specs.Colr.{specification, colr};
ghost use Rattle.write_rules.specs.Cdef.{cdef_entry, cdef_entries, cdef};
ghost use Rattle.write_rules.specs.Jp2h.{jp2h};
ghost use Rattle.write_rules.specs.Writing.{front, most_profile, most_codestream, write, destination};
ghost use Rattle.write_boxes.specs.Answers.{answered};
ghost use Rattle.write_boxes.specs.Private.Lengths.{bpcc_length, colr_length, cdef_length, jp2h_length, length_of_front};
ghost use Rattle.write_boxes.specs.Private.Numbers.{narrow, width, joined};
ghost use Rattle.write_boxes.specs.Private.Writing.{HasRoom, Puts};

use box_header::Jp2BoxHeader;
use box_kind::Jp2BoxType;
use box_refusal::{Cause, Refusal};
use read_record::ALPHA;
use write_rules::{ENUMERATED, Fields, Request, VARIES};

// The content of the signature box; the brand 'jp2 ', and the version of the file type.
const SIGNATURE: u32 = 0x0d0a_870a;

const BRAND: u32 = 0x6a70_3220;

const VERSION: u32 = 0;

// ihdr: C, UnkC and IPR are the same in every file.
const JPEG_2000: u32 = 7;

const SPACE_KNOWN: u32 = 0;

const NO_RIGHTS: u32 = 0;

// colr: PREC and APPROX are the same in every file.
const PRECEDENCE: u32 = 0;

const APPROXIMATION: u32 = 0;

// cdef: Typ of a colour and of an opacity, Asoc of the whole picture; Typ and Asoc of a channel of which nothing is said.
const COLOUR: u32 = 0;

const OPACITY: u32 = 1;

const WHOLE_PICTURE: u32 = 0;

const UNSPECIFIED: u32 = 65535;

// The longest profile and the longest codestream.
const MOST_PROFILE: usize = 16777215;

const MOST_CODESTREAM: u64 = 4261412863;

// A lent list of bytes, and the place up to which it is written. That there is room is a premise of each method and no fact of the type: each asks for a number of bytes of its own.
#[derive(Drop)]
struct Writer<'a> {
    d: &'a mut [u8],
    at: usize,
}

impl Writer<'_> {
    // Puts numbers one after the other, each in its own count of bytes.
    fn put(&mut self, numbers: &[(usize, u32)])
        requires at_most_4 { IsTrue (narrow numbers.now) }
        requires room { HasRoom self.old (width numbers.now) }
        ensures { Puts self.old self.new (joined numbers.now) (width numbers.now) }
    {
        for (nb, value) in numbers {
            box_number::opj_write_bytes(self.d, self.at, *value, *nb);
            self.at += *nb;
        }
    }

    // Puts the header of a box whose content has the given length.
    fn put_header(&mut self, kind: Jp2BoxType, content: u32)
        requires { (content ≤ 4294967287) × HasRoom self.old 8 }
        ensures { Puts self.old self.new (box_header kind content) 8 }
    {
        let mut header = Jp2BoxHeader::new(kind);
        header.length += content;
        header.write(self.d, self.at);
        self.at += 8;
    }

    fn put_bytes(&mut self, src: &[u8])
        requires { HasRoom self.old (length src.now) }
        ensures { Puts self.old self.new src.now (length src.now) }
    {
        copy(src, self.d, self.at);
        self.at += src.len();
    }
}

// Copies src to a place of d. A loop: `copy_from_slice` is a call of memmove, which a caller without a C library would have to bring (docs/DECISIONS.md, 103).
fn copy(src: &[u8], d: &mut [u8], at: usize)
    requires { at + length src.now ≤ length d.old }
    ensures { d.new ≡ placed d.old at src.now }
{
    for k in 0..src.len() {
        d[at + k] = src[k];
    }
}

fn opj_jp2_write_jp(out: &mut Writer<'_>)
    requires { HasRoom out.old 12 }
    ensures { Puts out.old out.new signature 12 }
{
    out.put_header(Jp2BoxType::JP, 4);
    out.put(&[(4, SIGNATURE)]);
}

fn opj_jp2_write_ftyp(out: &mut Writer<'_>)
    requires { HasRoom out.old 20 }
    ensures { Puts out.old out.new file_type 20 }
{
    out.put_header(Jp2BoxType::FTYP, 12);
    out.put(&[(4, BRAND), (4, VERSION), (4, BRAND)]);
}

// What the boxes before a codestream are made of. All tests have passed, but for the room.
#[derive(Drop)]
struct Boxes<'a> {
    comps: &'a [u32],
    profile: &'a [u8],
    fields: Fields,
    codestream: u32,
    ghost few: { fields.numcomps ≤ most_components },
    ghost well: { (c : ℕ) → c < fields.numcomps → Says false (ill comps.now c) },
    ghost defined: { fields.definitions ≤ most_components },
    ghost short: { length profile.now ≤ most_profile },
    ghost fits: { codestream ≤ most_codestream },
}

impl Boxes<'_> {
    fn opj_jp2_write_ihdr(&self, out: &mut Writer<'_>)
        requires { HasRoom out.old 22 }
        ensures { Puts out.old out.new (ihdr self.now.fields) 22 }
    {
        let s = self.fields;
        out.put_header(Jp2BoxType::IHDR, 14);
        out.put(&[
            (4, s.h),
            (4, s.w),
            (2, s.numcomps),
            (1, s.bpc),
            (1, JPEG_2000),
            (1, SPACE_KNOWN),
            (1, NO_RIGHTS),
        ]);
    }

    // The lengths of bpcc, colr and cdef stay three functions: each has a test and a sum of its own.
    #[tactic(auto, unfolding(crate::specs::Private::Lengths::bpcc_length, box_number::specs::Table::table))]
    fn bpcc_length(&self) -> u32
        ensures { result ≡ bpcc_length self.now.fields }
    {
        if self.fields.bpc == VARIES {
            8 + self.fields.numcomps
        } else {
            0
        }
    }

    // A byte for each of the components. This and put_definitions are two loops, since what a turn needs of its component and the bytes that it puts are not the same.
    fn put_depths(&self, out: &mut Writer<'_>)
        requires { HasRoom out.old self.now.fields.numcomps }
        ensures { Puts out.old out.new (bpcc_content self.now.comps.now self.now.fields.numcomps) self.now.fields.numcomps }
    {
        for c in 0..self.fields.numcomps {
            out.put(&[(1, write_setup::component_bits(self.comps, c) as u32)]);
        }
    }

    // bpcc, where the components have not the same number of bits.
    #[tactic(auto, unfolding(crate::specs::Private::Lengths::bpcc_length, box_number::specs::Table::table))]
    fn opj_jp2_write_bpcc(&self, out: &mut Writer<'_>)
        requires { HasRoom out.old (bpcc_length self.now.fields) }
        ensures { Puts out.old out.new (bpcc self.now.comps.now self.now.fields) (bpcc_length self.now.fields) }
    {
        let s = self.fields;
        if s.bpc == VARIES {
            out.put_header(Jp2BoxType::BPCC, s.numcomps);
            self.put_depths(out);
        }
    }

    // What the method asks for: the enumerated colour space, or the profile.
    #[tactic(auto, unfolding(write_rules::specs::Colr::specification, box_number::specs::Table::table))]
    fn put_specification(&self, out: &mut Writer<'_>)
        requires { HasRoom out.old (length (specification self.now.fields self.now.profile.now)) }
        ensures { let xs = specification self.now.fields self.now.profile.now in Puts out.old out.new xs (length xs) }
    {
        if self.fields.meth == ENUMERATED {
            out.put(&[(4, self.fields.enumcs)]);
        } else {
            out.put_bytes(self.profile);
        }
    }

    #[tactic(auto, unfolding(crate::specs::Private::Lengths::colr_length, box_number::specs::Table::table))]
    fn colr_length(&self) -> u32
        ensures { result ≡ colr_length self.now.fields (length self.now.profile.now) }
    {
        if self.fields.meth == ENUMERATED {
            15
        } else {
            11 + self.profile.len() as u32
        }
    }

    fn opj_jp2_write_colr(&self, out: &mut Writer<'_>)
        requires { HasRoom out.old (colr_length self.now.fields (length self.now.profile.now)) }
        ensures { Puts out.old out.new (colr self.now.fields self.now.profile.now) (colr_length self.now.fields (length self.now.profile.now)) }
    {
        out.put_header(Jp2BoxType::COLR, self.colr_length() - 8);
        out.put(&[(1, self.fields.meth), (1, PRECEDENCE), (1, APPROXIMATION)]);
        self.put_specification(out);
    }

    #[tactic(auto, unfolding(crate::specs::Private::Lengths::cdef_length, box_number::specs::Table::table))]
    fn cdef_length(&self) -> u32
        ensures { result ≡ cdef_length self.now.fields }
    {
        if self.fields.definitions == 0 {
            0
        } else {
            10 + 6 * self.fields.definitions
        }
    }

    // The definition of channel c: a colour, the opacity, or a channel of which nothing is said.
    fn define(&self, out: &mut Writer<'_>, c: u32)
        requires { HasRoom out.old 6 × (c < most_components) }
        ensures { Puts out.old out.new (cdef_entry (written_definition self.now.comps.now self.now.fields.colours c)) 6 }
    {
        let (typ, asoc) = if c < self.fields.colours {
            (COLOUR, c + 1)
        } else if read_record::component(self.comps, c, ALPHA) != 0 {
            (OPACITY, WHOLE_PICTURE)
        } else {
            (UNSPECIFIED, UNSPECIFIED)
        };
        out.put(&[(2, c), (2, typ), (2, asoc)]);
    }

    fn put_definitions(&self, out: &mut Writer<'_>)
        requires { HasRoom out.old (6 * self.now.fields.definitions) }
        ensures { Puts out.old out.new (cdef_entries self.now.comps.now self.now.fields.colours self.now.fields.definitions) (6 * self.now.fields.definitions) }
    {
        for c in 0..self.fields.definitions {
            self.define(out, c);
        }
    }

    // cdef, where there are definitions.
    #[tactic(auto, unfolding(crate::specs::Private::Lengths::cdef_length, box_number::specs::Table::table))]
    fn opj_jp2_write_cdef(&self, out: &mut Writer<'_>)
        requires { HasRoom out.old (cdef_length self.now.fields) }
        ensures { Puts out.old out.new (cdef self.now.comps.now self.now.fields) (cdef_length self.now.fields) }
    {
        let n = self.fields.definitions;
        if n != 0 {
            out.put_header(Jp2BoxType::CDEF, 2 + 6 * n);
            out.put(&[(2, n)]);
            self.put_definitions(out);
        }
    }

    // The length of the content of jp2h.
    #[tactic(auto, unfolding(crate::specs::Private::Lengths::bpcc_length, crate::specs::Private::Lengths::colr_length, crate::specs::Private::Lengths::cdef_length, box_number::specs::Table::table))]
    fn jp2h_length(&self) -> u32
        ensures { (result ≡ jp2h_length self.now.fields (length self.now.profile.now)) × (result ≤ 16975000) }
    {
        22 + self.bpcc_length() + self.colr_length() + self.cdef_length()
    }

    // jp2h: ihdr, bpcc, colr and cdef.
    fn opj_jp2_write_jp2h(&self, out: &mut Writer<'_>)
        requires { HasRoom out.old (8 + jp2h_length self.now.fields (length self.now.profile.now)) }
        ensures { Puts out.old out.new (jp2h self.now.comps.now self.now.fields self.now.profile.now) (8 + jp2h_length self.now.fields (length self.now.profile.now)) }
    {
        out.put_header(Jp2BoxType::JP2H, self.jp2h_length());
        self.opj_jp2_write_ihdr(out);
        self.opj_jp2_write_bpcc(out);
        self.opj_jp2_write_colr(out);
        self.opj_jp2_write_cdef(out);
    }

    // All boxes and the header of the codestream's box.
    fn write_front(&self, out: &mut Writer<'_>)
        requires { HasRoom out.old (length_of_front self.now.fields (length self.now.profile.now)) }
        ensures { Puts out.old out.new (front self.now.comps.now self.now.fields self.now.profile.now self.now.codestream) (length_of_front self.now.fields (length self.now.profile.now)) }
    {
        opj_jp2_write_jp(out);
        opj_jp2_write_ftyp(out);
        self.opj_jp2_write_jp2h(out);
        out.put_header(Jp2BoxType::JP2C, self.codestream);
    }
}

// Whether the picture has a height and a width.
fn opj_jp2_default_validation(s: Fields) -> bool
    ensures { result ≡ holds (s.h ≠? 0 and s.w ≠? 0) }
{
    s.h != 0 && s.w != 0
}

// Writes all boxes before a codestream of the given length, and the header of its box, from the start of d on: the count of bytes written, which is where the codestream goes.
pub fn write_boxes(r: &Request<'_>, d: &mut [u8]) -> Result<u32, Refusal<u64>>
    ensures value { told result ≡ answered (write (asked r.now (length d.old))) }
    ensures d_after { d.new ≡ destination d.old (write (asked r.now (length d.old))) }
{
    let fields = write_setup::opj_jp2_setup_encoder(r)?;
    if !opj_jp2_default_validation(fields) {
        return Err(Refusal {
            cause: Cause::EmptyPicture,
            place: 0,
        });
    }
    if MOST_PROFILE < r.profile.len() || MOST_CODESTREAM < r.codestream {
        return Err(Refusal {
            cause: Cause::TooLongToWrite,
            place: 0,
        });
    }
    let boxes = Boxes {
        comps: r.comps,
        profile: r.profile,
        fields,
        codestream: r.codestream as u32,
    };
    let needed = 48 + boxes.jp2h_length();
    if d.len() < needed as usize {
        return Err(Refusal {
            cause: Cause::DestinationTooShort,
            place: u64::from(needed),
        });
    }
    boxes.write_front(&mut Writer { d, at: 0 });
    Ok(needed)
}
