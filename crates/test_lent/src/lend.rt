// The readers over a lent record, a function each. Its contents are one that is refused, and one that is read. It prints a line for each, and gives both answers.
ghost use Rattle.std.specs.Prelude.{◌≡◌, ◌+◌};
ghost use Rattle.read_record.specs.declared.At.{At};
ghost use Rattle.read_signature.specs.Signature.{signature};
ghost use Rattle.read_signature.specs.FileType.{file_type};
ghost use Rattle.read_image.specs.Ihdr.{ihdr};
ghost use Rattle.read_image.specs.Bpcc.{bpcc};
ghost use Rattle.read_colour.specs.Colr.{colr};
ghost use Rattle.read_palette.specs.Pclr.{pclr};
ghost use Rattle.read_channels.specs.Cmap.{cmap};
ghost use Rattle.read_channels.specs.Cdef.{cdef};
ghost use Rattle.read_jp2h.specs.Jp2h.{jp2h_alone};
ghost use Rattle.test_lent.specs.Private.Twice.{ReadTwice};

use crate::say::came;
use box_refusal::Refusal;
use read_record::{At, Jp2};

type Answer = Result<(), Refusal<u32>>;

// What they share. The box has a header of 8 bytes. The lent record is p at the first call and q when it returns, and s and t at the second.
fn both<F: Fn(&[u8], At, &mut Jp2) -> Result<(), Refusal<u32>>>(
    rt: &impl Print,
    read: F,
    place: u16,
    refused: (&str, &[u8]),
    taken: (&str, &[u8]),
    j: &mut Jp2,
) -> (Answer, Answer)
    requires { F.IsAlwaysCallable read }
    ensures { (at : At) × (p : _) × (q : _) × (s : _) × (t : _) × (at.place ≡ place) × (at.start ≡ place + 8) × (p.now ≡ j.old) × (s.now ≡ q.now) × (t.now ≡ j.new) × F.post read refused.entry.1 at p result.0 q × F.post read taken.entry.1 at s result.1 t }
{
    let place = place as u32;
    let at = At {
        place,
        start: place + 8,
    };
    let first = read(refused.1, at, j);
    came(rt, refused.0, first, j);
    let second = read(taken.1, at, j);
    came(rt, taken.0, second, j);
    (first, second)
}

// The signature box and the file type box.

pub(crate) fn lend_jp(
    rt: &impl Print,
    place: u16,
    refused: (&str, &[u8]),
    taken: (&str, &[u8]),
    j: &mut Jp2,
) -> (Answer, Answer)
    ensures { ReadTwice (signature place (place + 8)) refused.entry.1.now taken.entry.1.now j.old j.new result }
{
    both(rt, read_lent::opj_jp2_read_jp, place, refused, taken, j)
}

pub(crate) fn lend_ftyp(
    rt: &impl Print,
    place: u16,
    refused: (&str, &[u8]),
    taken: (&str, &[u8]),
    j: &mut Jp2,
) -> (Answer, Answer)
    ensures { ReadTwice (file_type place (place + 8)) refused.entry.1.now taken.entry.1.now j.old j.new result }
{
    both(rt, read_lent::opj_jp2_read_ftyp, place, refused, taken, j)
}

// `jp2h`, and the boxes in it.

pub(crate) fn lend_jp2h(
    rt: &impl Print,
    place: u16,
    refused: (&str, &[u8]),
    taken: (&str, &[u8]),
    j: &mut Jp2,
) -> (Answer, Answer)
    ensures { ReadTwice (jp2h_alone place (place + 8)) refused.entry.1.now taken.entry.1.now j.old j.new result }
{
    both(rt, read_lent::opj_jp2_read_jp2h, place, refused, taken, j)
}

pub(crate) fn lend_ihdr(
    rt: &impl Print,
    place: u16,
    refused: (&str, &[u8]),
    taken: (&str, &[u8]),
    j: &mut Jp2,
) -> (Answer, Answer)
    ensures { ReadTwice (ihdr place (place + 8)) refused.entry.1.now taken.entry.1.now j.old j.new result }
{
    both(rt, read_lent::opj_jp2_read_ihdr, place, refused, taken, j)
}

pub(crate) fn lend_bpcc(
    rt: &impl Print,
    place: u16,
    refused: (&str, &[u8]),
    taken: (&str, &[u8]),
    j: &mut Jp2,
) -> (Answer, Answer)
    ensures { ReadTwice (bpcc place (place + 8)) refused.entry.1.now taken.entry.1.now j.old j.new result }
{
    both(rt, read_lent::opj_jp2_read_bpcc, place, refused, taken, j)
}

pub(crate) fn lend_colr(
    rt: &impl Print,
    place: u16,
    refused: (&str, &[u8]),
    taken: (&str, &[u8]),
    j: &mut Jp2,
) -> (Answer, Answer)
    ensures { ReadTwice (colr place (place + 8)) refused.entry.1.now taken.entry.1.now j.old j.new result }
{
    both(rt, read_lent::opj_jp2_read_colr, place, refused, taken, j)
}

pub(crate) fn lend_pclr(
    rt: &impl Print,
    place: u16,
    refused: (&str, &[u8]),
    taken: (&str, &[u8]),
    j: &mut Jp2,
) -> (Answer, Answer)
    ensures { ReadTwice (pclr place (place + 8)) refused.entry.1.now taken.entry.1.now j.old j.new result }
{
    both(rt, read_lent::opj_jp2_read_pclr, place, refused, taken, j)
}

pub(crate) fn lend_cmap(
    rt: &impl Print,
    place: u16,
    refused: (&str, &[u8]),
    taken: (&str, &[u8]),
    j: &mut Jp2,
) -> (Answer, Answer)
    ensures { ReadTwice (cmap place (place + 8)) refused.entry.1.now taken.entry.1.now j.old j.new result }
{
    both(rt, read_lent::opj_jp2_read_cmap, place, refused, taken, j)
}

pub(crate) fn lend_cdef(
    rt: &impl Print,
    place: u16,
    refused: (&str, &[u8]),
    taken: (&str, &[u8]),
    j: &mut Jp2,
) -> (Answer, Answer)
    ensures { ReadTwice (cdef place (place + 8)) refused.entry.1.now taken.entry.1.now j.old j.new result }
{
    both(rt, read_lent::opj_jp2_read_cdef, place, refused, taken, j)
}
