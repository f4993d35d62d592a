// The colour specification box (I.5.3.3).
// Every reader of a box has this signature: the box's content, where the box and its content start, and the record before it.
#![tactic(auto)]

ghost use Rattle.std.specs.Prelude.{◌≡◌};
ghost use Rattle.read_record.specs.Answer.{told};
ghost use Rattle.read_colour.specs.Colr.{lab, colr};

use box_refusal::{Cause, Refusal};
use read_record::{At, Jp2, Lab, NO_LAB, NO_LIST, Span};

// METH: an enumerated colour space, an ICC profile.
const ENUMERATED: u32 = 1;

const PROFILE: u32 = 2;

// METH, PREC and APPROX take a byte each, EnumCS takes four more, and CIELab's seven parameters 28 more.
const FIELDS_BYTES: usize = 3;

const ENUMERATED_BYTES: usize = 7;

const LAB_BYTES: usize = 35;

// EnumCS of CIELab, its standard illuminant D50, and the crate's sign that ranges and offsets are the defaults.
const CIELAB: u32 = 14;

const D50: u32 = 0x443530;

const DEFAULTS: u32 = 0x44454600;

// The numbers of CIELab, from the content of a colr box.
fn read_lab(c: &[u8]) -> Lab
    ensures { result ≡ lab c.now }
{
    if c.len() == ENUMERATED_BYTES {
        return Lab {
            numbers: [CIELAB, 0, 0, 0, 0, 0, 0, D50, 0],
            count: 8,
        };
    }
    if c.len() == LAB_BYTES {
        let rl = box_number::read_u32(c, 7);
        let ol = box_number::read_u32(c, 11);
        let ra = box_number::read_u32(c, 15);
        let oa = box_number::read_u32(c, 19);
        let rb = box_number::read_u32(c, 23);
        let ob = box_number::read_u32(c, 27);
        let il = box_number::read_u32(c, 31);
        return Lab {
            numbers: [CIELAB, 0, rl, ol, ra, oa, rb, ob, il],
            count: 9,
        };
    }
    Lab {
        numbers: [CIELAB, DEFAULTS, 0, 0, 0, 0, 0, 0, D50],
        count: 9,
    }
}

// The crate has one slot for CIELab and the profile, so that each clears the other.
pub fn opj_jp2_read_colr(c: &[u8], at: At, j: Jp2) -> Result<Jp2, Refusal<u32>>
    ensures { told result ≡ colr at.place at.start c.now j }
{
    let n = c.len();
    if n < FIELDS_BYTES {
        return Err(at.refused(Cause::ColourTooShort));
    }
    if j.colour.held != 0 {
        return Ok(j);
    }
    let mut k = j;
    k.colour.meth = box_number::read_u8(c, 0) as u32;
    k.colour.precedence = box_number::read_u8(c, 1) as u32;
    k.colour.approx = box_number::read_u8(c, 2) as u32;
    match k.colour.meth {
        ENUMERATED => {
            if n < ENUMERATED_BYTES {
                return Err(at.refused(Cause::ColourTooShort));
            }
            k.colour.enumcs = box_number::read_u32(c, 3);
            k.colour.held = 1;
            if k.colour.enumcs == CIELAB {
                k.colour.lab = read_lab(c);
                k.lists.icc = NO_LIST;
                return Ok(k);
            }
            Ok(k)
        }
        PROFILE => {
            k.colour.lab = NO_LAB;
            k.colour.held = 1;
            k.lists.icc = Span {
                place: at.start as usize + FIELDS_BYTES,
                count: n - FIELDS_BYTES,
            };
            Ok(k)
        }
        // METH 0 or above 2: the three fields, and no colour is held.
        _ => Ok(k),
    }
}
