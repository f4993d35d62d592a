// The image header box (I.5.3.1) and the bits per component box (I.5.3.2).
// Every reader of a box has this signature: the box's content, where the box and its content start, and the record before it.
#![tactic(auto)]

ghost use Rattle.std.specs.Prelude.{◌≡◌};
ghost use Rattle.read_record.specs.Answer.{told};
ghost use Rattle.read_image.specs.Ihdr.{ihdr};
ghost use Rattle.read_image.specs.Bpcc.{bpcc};

use box_refusal::{Cause, Refusal};
use read_record::{At, Image, Jp2, MOST_COMPONENTS, Span};

// The content of an image header box.
const IHDR_BYTES: usize = 14;

pub fn opj_jp2_read_ihdr(c: &[u8], at: At, j: Jp2) -> Result<Jp2, Refusal<u32>>
    ensures { told result ≡ ihdr at.place at.start c.now j }
{
    if j.image.numcomps != 0 {
        return Ok(j);
    }
    if c.len() != IHDR_BYTES {
        return Err(at.refused(Cause::ImageHeaderLength));
    }
    let h = box_number::read_u32(c, 0);
    let w = box_number::read_u32(c, 4);
    let numcomps = box_number::read_u16(c, 8) as u32;
    if h == 0 {
        return Err(at.refused(Cause::ZeroSize));
    }
    if w == 0 {
        return Err(at.refused(Cause::ZeroSize));
    }
    if numcomps == 0 {
        return Err(at.refused(Cause::ZeroSize));
    }
    if MOST_COMPONENTS < numcomps {
        return Err(at.refused(Cause::TooManyComponents));
    }
    let image = Image {
        h,
        w,
        numcomps,
        bpc: box_number::read_u8(c, 10) as u32,
        c: box_number::read_u8(c, 11) as u32,
        unkc: box_number::read_u8(c, 12) as u32,
        ipr: box_number::read_u8(c, 13) as u32,
    };
    let mut k = j;
    k.image = image;
    k.status.hasihdr = 1;
    Ok(k)
}

pub fn opj_jp2_read_bpcc(c: &[u8], at: At, j: Jp2) -> Result<Jp2, Refusal<u32>>
    ensures { told result ≡ bpcc at.place at.start c.now j }
{
    if c.len() != j.image.numcomps as usize {
        return Err(at.refused(Cause::BitsLength));
    }
    let mut k = j;
    k.lists.bpcc = Span {
        place: at.start as usize,
        count: c.len(),
    };
    Ok(k)
}
