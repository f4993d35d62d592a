// The readers of boxes over a header record that is lent: each takes the record out, calls the reader by value, stores the record back and answers.
// `Lent result j.old j.new ..`: the answer and the record at exit are together what the reader's definition says of the record at entry, and a refusal leaves the record as it was.
#![tactic(auto)]

ghost use Rattle.std.specs.Prelude.{◌≡◌, OnErr};
ghost use Rattle.box_refusal.specs.Told.{told};
ghost use Rattle.read_record.specs.Lent.{Lent};
ghost use Rattle.read_signature.specs.Signature.{signature};
ghost use Rattle.read_signature.specs.FileType.{file_type};
ghost use Rattle.read_image.specs.Ihdr.{ihdr};
ghost use Rattle.read_image.specs.Bpcc.{bpcc};
ghost use Rattle.read_colour.specs.Colr.{colr};
ghost use Rattle.read_palette.specs.Pclr.{pclr};
ghost use Rattle.read_channels.specs.Cmap.{cmap};
ghost use Rattle.read_channels.specs.Cdef.{cdef};
ghost use Rattle.read_jp2h.specs.Jp2h.{jp2h_alone};
ghost use Rattle.read_rules.specs.CutTransfers.{FileRead};
ghost use Rattle.read_lent.specs.LentFile.{leaves_file};

use box_refusal::Refusal;
use read_record::{At, Jp2};
use read_rules::FileEnd;

// What the readers share; r is what the reader by value answers.
fn lend<F: FnOnce(&[u8], At, Jp2) -> Result<Jp2, Refusal<u32>>>(
    read: F,
    c: &[u8],
    at: At,
    j: &mut Jp2,
) -> Result<(), Refusal<u32>>
    requires { F.IsAlwaysCallable read }
    ensures { (r : _) × F.post read c.entry at j.old r × Lent result j.old j.new (told r) }
{
    *j = read(c, at, *j)?;
    Ok(())
}

// The signature box and the file type box.

pub fn opj_jp2_read_jp(c: &[u8], at: At, j: &mut Jp2) -> Result<(), Refusal<u32>>
    ensures { Lent result j.old j.new (signature at.place at.start c.now j.old) }
{
    lend(read_signature::opj_jp2_read_jp, c, at, j)
}

pub fn opj_jp2_read_ftyp(c: &[u8], at: At, j: &mut Jp2) -> Result<(), Refusal<u32>>
    ensures { Lent result j.old j.new (file_type at.place at.start c.now j.old) }
{
    lend(read_signature::opj_jp2_read_ftyp, c, at, j)
}

// The boxes of jp2h, and jp2h itself.

pub fn opj_jp2_read_ihdr(c: &[u8], at: At, j: &mut Jp2) -> Result<(), Refusal<u32>>
    ensures { Lent result j.old j.new (ihdr at.place at.start c.now j.old) }
{
    lend(read_image::opj_jp2_read_ihdr, c, at, j)
}

pub fn opj_jp2_read_bpcc(c: &[u8], at: At, j: &mut Jp2) -> Result<(), Refusal<u32>>
    ensures { Lent result j.old j.new (bpcc at.place at.start c.now j.old) }
{
    lend(read_image::opj_jp2_read_bpcc, c, at, j)
}

pub fn opj_jp2_read_colr(c: &[u8], at: At, j: &mut Jp2) -> Result<(), Refusal<u32>>
    ensures { Lent result j.old j.new (colr at.place at.start c.now j.old) }
{
    lend(read_colour::opj_jp2_read_colr, c, at, j)
}

pub fn opj_jp2_read_pclr(c: &[u8], at: At, j: &mut Jp2) -> Result<(), Refusal<u32>>
    ensures { Lent result j.old j.new (pclr at.place at.start c.now j.old) }
{
    lend(read_palette::opj_jp2_read_pclr, c, at, j)
}

pub fn opj_jp2_read_cmap(c: &[u8], at: At, j: &mut Jp2) -> Result<(), Refusal<u32>>
    ensures { Lent result j.old j.new (cmap at.place at.start c.now j.old) }
{
    lend(read_channels::opj_jp2_read_cmap, c, at, j)
}

pub fn opj_jp2_read_cdef(c: &[u8], at: At, j: &mut Jp2) -> Result<(), Refusal<u32>>
    ensures { Lent result j.old j.new (cdef at.place at.start c.now j.old) }
{
    lend(read_channels::opj_jp2_read_cdef, c, at, j)
}

pub fn opj_jp2_read_jp2h(c: &[u8], at: At, j: &mut Jp2) -> Result<(), Refusal<u32>>
    ensures { Lent result j.old j.new (jp2h_alone at.place at.start c.now j.old) }
{
    lend(read_jp2h::opj_jp2_read_jp2h, c, at, j)
}

// A file over a header record that is lent, in the same way. Not by `lend`, since a file has no place, and the answer has where it ended.
pub fn opj_jp2_read_header_procedure(s: &[u8], j: &mut Jp2) -> Result<FileEnd, Refusal<u32>>
    ensures left { FileRead s.now j.old (leaves_file result j.new) }
    ensures kept { OnErr result (j.new ≡ j.old) }
{
    let r = read_file::opj_jp2_read_header_procedure(s, *j)?;
    *j = r.jp2;
    Ok(r.end)
}
