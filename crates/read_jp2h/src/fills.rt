// The boxes inside jp2h, each by its reader. Of the record that a reader answers only what its box fills is put back, since the rest is as it was: to copy the whole record takes longer than to read a small box (docs/DECISIONS.md, 69).
ghost use Rattle.std.specs.Prelude.{◌≡◌};
ghost use Rattle.read_record.specs.Lent.{leaves};
ghost use Rattle.read_image.specs.Ihdr.{ihdr};
ghost use Rattle.read_image.specs.Bpcc.{bpcc};
ghost use Rattle.read_colour.specs.Colr.{colr};
ghost use Rattle.read_palette.specs.Pclr.{pclr};
ghost use Rattle.read_channels.specs.Cmap.{cmap};
ghost use Rattle.read_channels.specs.Cdef.{cdef};

use box_refusal::Refusal;
use read_record::{At, Jp2};

pub(crate) fn fill_ihdr(c: &[u8], at: At, k: &mut Jp2) -> Result<(), Refusal<u32>>
    ensures { leaves result k.new ≡ ihdr at.place at.start c.now k.old }
{
    let m = read_image::opj_jp2_read_ihdr(c, at, *k)?;
    k.image = m.image;
    k.status.hasihdr = m.status.hasihdr;
    Ok(())
}

pub(crate) fn fill_bpcc(c: &[u8], at: At, k: &mut Jp2) -> Result<(), Refusal<u32>>
    ensures { leaves result k.new ≡ bpcc at.place at.start c.now k.old }
{
    let m = read_image::opj_jp2_read_bpcc(c, at, *k)?;
    k.lists.bpcc = m.lists.bpcc;
    Ok(())
}

pub(crate) fn fill_colr(c: &[u8], at: At, k: &mut Jp2) -> Result<(), Refusal<u32>>
    ensures { leaves result k.new ≡ colr at.place at.start c.now k.old }
{
    let m = read_colour::opj_jp2_read_colr(c, at, *k)?;
    // A colour that is held stays.
    if k.colour.held == 0 {
        k.colour = m.colour;
        k.lists.icc = m.lists.icc;
    }
    Ok(())
}

pub(crate) fn fill_pclr(c: &[u8], at: At, k: &mut Jp2) -> Result<(), Refusal<u32>>
    ensures { leaves result k.new ≡ pclr at.place at.start c.now k.old }
{
    let m = read_palette::opj_jp2_read_pclr(c, at, *k)?;
    k.lists.pclr = m.lists.pclr;
    Ok(())
}

pub(crate) fn fill_cmap(c: &[u8], at: At, k: &mut Jp2) -> Result<(), Refusal<u32>>
    ensures { leaves result k.new ≡ cmap at.place at.start c.now k.old }
{
    let m = read_channels::opj_jp2_read_cmap(c, at, *k)?;
    k.lists.cmap = m.lists.cmap;
    Ok(())
}

pub(crate) fn fill_cdef(c: &[u8], at: At, k: &mut Jp2) -> Result<(), Refusal<u32>>
    ensures { leaves result k.new ≡ cdef at.place at.start c.now k.old }
{
    let m = read_channels::opj_jp2_read_cdef(c, at, *k)?;
    k.lists.cdef = m.lists.cdef;
    Ok(())
}
