// The JP2 Header box (I.5.3): its boxes, one after the other.
#![tactic(auto)]

ghost use Rattle.std.specs.Prelude.{◌+◌, ◌≤◌, ◌≡◌, not, ◌&&◌, length};
ghost use Rattle.box_number.specs.Table.{holds};
ghost use Rattle.box_refusal.specs.Told.{told};
ghost use Rattle.box_kind.specs.Kind.{◌is◌};
ghost use Rattle.box_kind.specs.declared.Jp2BoxType.TheVariants.{IHDR, JP2H};
ghost use Rattle.box_header.specs.Box.{largest};
ghost use Rattle.read_record.specs.Lent.{leaves, Lent};
ghost use Rattle.read_jp2h.specs.Child.{reader};
ghost use Rattle.read_jp2h.specs.Jp2h.{jp2h_alone};
ghost use Rattle.read_jp2h.specs.HeaderBox.{header_box};
ghost use Rattle.read_jp2h.specs.Private.Step.{next_child, next, read_item, admitted, opened, closed};

mod fills;

use box_header::{Jp2BoxHeader, LARGEST};
use box_kind::Jp2BoxType;
use box_refusal::{Cause, Refusal};
use read_record::{At, Bit, Jp2, Status};

// Reads the content of a box inside jp2h by the reader of its kind. A box of another kind is skipped. The record is altered in place, here and in read_item (docs/DECISIONS.md, 69).
fn read_content(ty: Jp2BoxType, c: &[u8], at: At, k: &mut Jp2) -> Result<(), Refusal<u32>>
    ensures { leaves result k.new ≡ reader ty at.place at.start c.now k.old }
{
    match ty {
        Jp2BoxType::IHDR => fills::fill_ihdr(c, at, k),
        Jp2BoxType::BPCC => fills::fill_bpcc(c, at, k),
        Jp2BoxType::COLR => fills::fill_colr(c, at, k),
        Jp2BoxType::PCLR => fills::fill_pclr(c, at, k),
        Jp2BoxType::CMAP => fills::fill_cmap(c, at, k),
        Jp2BoxType::CDEF => fills::fill_cdef(c, at, k),
        _ => {
            k.status.imgstate = read_record::unknown(k.status.imgstate);
            Ok(())
        }
    }
}

// A box to read: its place in the file, and its header. A box outside jp2h is read from its content alone, and has a header of no bytes here.
#[derive(Clone, Copy)]
struct Item {
    pub place: u32,
    pub header: Jp2BoxHeader,
}

// The child that starts at the first byte of c, which is at a place of the file; none where no bytes are left.
fn find_child(c: &[u8], place: u32) -> Result<Option<Item>, Refusal<u32>>
    ensures { told result ≡ next_child place c.now }
{
    if c.len() == 0 {
        return Ok(None);
    }
    let Ok(header) = Jp2BoxHeader::read(c) else {
        return Err(Refusal {
            cause: Cause::ChildHeader,
            place,
        });
    };
    if header.length < header.header_length || c.len() < header.next(0) {
        return Err(Refusal {
            cause: Cause::ChildLength,
            place,
        });
    }
    Ok(Some(Item { place, header }))
}

// The box that is read next, or none. Where a box outside jp2h, at a place of the file, is still to be read, it comes next, and all of c is its content.
fn find_next(
    lone: bool,
    ty: Jp2BoxType,
    place: u32,
    c: &[u8],
    at: u32,
) -> Result<Option<Item>, Refusal<u32>>
    requires { at + length c.now ≤ largest }
    ensures { told result ≡ next lone ty place at c.now }
{
    if !lone {
        return find_child(c, at);
    }
    Ok(Some(Item {
        place,
        header: Jp2BoxHeader {
            length: c.len() as u32,
            ty,
            header_length: 0,
        },
    }))
}

// Reads the box, which lies in the bytes c that are left.
fn read_item(b: Item, c: &[u8], at: u32, k: &mut Jp2) -> Result<(), Refusal<u32>>
    requires { (b.header.header_length ≤ b.header.length) × (b.header.length ≤ length c.now) × (at + b.header.header_length ≤ largest) }
    ensures { leaves result k.new ≡ read_item b at c.now k.old }
{
    let h = b.header;
    let content = &c[h.header_length as usize..(h.header_length + h.content_length()) as usize];
    let at = At {
        place: b.place,
        start: at + h.header_length,
    };
    read_content(h.ty, content, at, k)
}

// Whether jp2h still lacks an ihdr after a box.
fn still_lacks(b: Item, lacks: bool) -> bool
    ensures { result ≡ (not (holds (b.header.ty is IHDR)) && lacks) }
{
    !matches!(b.header.ty, Jp2BoxType::IHDR) && lacks
}

// The tests of a box before its content is read.
fn admit(alone: bool, c: &[u8], at: At, status: Status) -> Result<(), Refusal<u32>>
    ensures { told result ≡ admitted alone at.place at.start c.now status.state }
{
    if LARGEST - (at.start as usize) < c.len() {
        return Err(at.refused(Cause::PastTheFile));
    }
    if !alone && !status.has(Bit::FileType) {
        return Err(at.refused(Cause::HeaderTooEarly));
    }
    Ok(())
}

// The status before the first box of jp2h is read; a box that is alone leaves it.
fn opened(alone: bool, status: Status) -> Status
    ensures { result ≡ opened alone status }
{
    let mut s = status;
    if !alone {
        s.imgstate = 0;
    }
    s
}

// The status after the last box of jp2h.
fn closed(alone: bool, status: Status) -> Status
    ensures { result ≡ closed alone status }
{
    if alone {
        return status;
    }
    let mut s = status.with(Bit::Header);
    s.hasjp2h = 1;
    s
}

// Whether a box is read alone: one of any kind but jp2h.
fn is_alone(ty: Jp2BoxType) -> bool
    ensures { result ≡ not (holds (ty is JP2H)) }
{
    !matches!(ty, Jp2BoxType::JP2H)
}

// Reads jp2h, or a box of another kind outside jp2h as a list of one. One loop serves both, so that the readers are chosen and called at one place.
// With a second such call the compiler would keep the readers out of the loop, and copy the record for each box; to copy it takes longer than to read a small box (docs/DECISIONS.md, 69).
fn read_boxes(ty: Jp2BoxType, c: &[u8], at: At, k: &mut Jp2) -> Result<(), Refusal<u32>>
    ensures { leaves result k.new ≡ header_box ty at.place at.start c.now k.old }
{
    let alone = is_alone(ty);
    admit(alone, c, at, k.status)?;
    k.status = opened(alone, k.status);
    // No index: each turn takes a box off the front of what is left.
    // `lone` says whether a box that is read alone is still to be read.
    let mut lone = alone;
    let mut rest = c;
    let mut place = at.start;
    let mut lacks = !alone;
    while let Some(b) = find_next(lone, ty, at.place, rest, place)? {
        read_item(b, rest, place, k)?;
        let size = b.header.next(0);
        rest = &rest[size..];
        place = b.header.next(place) as u32;
        lacks = still_lacks(b, lacks);
        lone = false;
    }
    if lacks {
        return Err(at.refused(Cause::NoImageHeader));
    }
    k.status = closed(alone, k.status);
    Ok(())
}

// The same, and a refusal leaves the record as it was. Where the caller drops the record after a refusal, as the walk through a file does, the compiler keeps no copy.
pub fn take_header_box(ty: Jp2BoxType, c: &[u8], at: At, k: &mut Jp2) -> Result<(), Refusal<u32>>
    ensures { Lent result k.old k.new (header_box ty at.place at.start c.now k.old) }
{
    let j = *k;
    let r = read_boxes(ty, c, at, k);
    if r.is_err() {
        *k = j;
    }
    r
}

// The same by value.
pub fn read_header_box(ty: Jp2BoxType, c: &[u8], at: At, j: Jp2) -> Result<Jp2, Refusal<u32>>
    ensures { told result ≡ header_box ty at.place at.start c.now j }
{
    let mut k = j;
    take_header_box(ty, c, at, &mut k)?;
    Ok(k)
}

// Reads jp2h.
pub fn opj_jp2_read_jp2h(c: &[u8], at: At, j: Jp2) -> Result<Jp2, Refusal<u32>>
    ensures { told result ≡ jp2h_alone at.place at.start c.now j }
{
    read_header_box(Jp2BoxType::JP2H, c, at, j)
}
