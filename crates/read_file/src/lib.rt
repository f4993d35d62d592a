// The walk through a file (I.2.2): its boxes, one after the other, up to the codestream.
#![tactic(auto)]

ghost use Rattle.std.specs.Prelude.{◌+◌, ◌≤◌, ◌≡◌, length};
ghost use Rattle.box_number.specs.Table.{holds};
ghost use Rattle.box_kind.specs.declared.Jp2BoxType.TheVariants.{JP2C};
ghost use Rattle.box_header.specs.Box.{largest};
ghost use Rattle.read_record.specs.Lent.{leaves};
ghost use Rattle.read_record.specs.Record.{blank};
ghost use Rattle.read_record.specs.State.{with_unknown};
ghost use Rattle.read_jp2h.specs.Split.{Box, first_box};
ghost use Rattle.read_rules.specs.File.{stream, other, is_read, past_end, outer, read, walked};
ghost use Rattle.read_rules.specs.CutTransfers.{WhateverWasLost, FileRead};
ghost use Rattle.read_file.specs.Private.Turn.{found, Heads, box_with, box_at, is_early, header_or_skipped};

use box_header::{Jp2BoxHeader, LARGEST};
use box_kind::Jp2BoxType;
use box_refusal::{Cause, Refusal};
use read_record::{At, Bit, Jp2, Status};
use read_rules::{FileEnd, Reading};

// What a place of the file has: the codestream with its header's length, a box that is shorter than its header, one that reaches past the end, or a whole one.
// The last two have the header as it was read: a kind alone would be put together from its bytes at each box.
#[derive(Clone, Copy)]
enum Found {
    Codestream(u32),
    Short,
    Past(Jp2BoxHeader),
    Whole(Jp2BoxHeader),
}

// What the file has at the first byte of c: nothing where no header is there.
fn find_box(c: &[u8]) -> Option<Found>
    ensures { result ≡ found c.now }
{
    let h = Jp2BoxHeader::from_stream(c).ok()?;
    Some(match h.ty {
        Jp2BoxType::JP2C => Found::Codestream(h.header_length),
        _ if h.length < h.header_length => Found::Short,
        _ if c.len() < h.next(0) => Found::Past(h),
        _ => Found::Whole(h),
    })
}

// Ends the reading at the codestream box.
fn read_stream(at: At, k: Jp2) -> Result<Reading, Refusal<u32>>
    ensures { walked result ≡ stream (box_at JP2C at.place at.start) k }
{
    if !k.status.has(Bit::Header) {
        return Err(at.refused(Cause::CodestreamTooEarly));
    }
    let mut m = k;
    m.status = m.status.with(Bit::Codestream);
    Ok(Reading {
        end: FileEnd::Codestream(at.start),
        jp2: m,
    })
}

// Skips a box: the record's state alone changes.
fn skip(k: &mut Jp2)
    ensures { k.new ≡ with_unknown k.old }
{
    k.status.state = read_record::unknown(k.status.state);
}

// Skips a box that is not read, once signature and file type were read.
fn read_other(place: u32, k: &mut Jp2) -> Result<(), Refusal<u32>>
    ensures { (b : Box) → b.place ≡ place → leaves result k.new ≡ other b k.old }
{
    if !k.status.has(Bit::Signature) {
        return Err(Refusal {
            cause: Cause::BeforeSignature,
            place,
        });
    }
    if !k.status.has(Bit::FileType) {
        return Err(Refusal {
            cause: Cause::BeforeFileType,
            place,
        });
    }
    skip(k);
    Ok(())
}

// Whether boxes of this kind are read, in the file or in jp2h.
fn is_read(ty: Jp2BoxType) -> bool
    ensures { result ≡ holds (is_read ty) }
{
    ty.is_file_header() || ty.is_image_header()
}

// Whether this is a box outside jp2h before the header bit is set.
fn is_early(ty: Jp2BoxType, status: Status) -> bool
    ensures { result ≡ holds (is_early ty status.state) }
{
    !matches!(ty, Jp2BoxType::JP2H) && !status.has(Bit::Header)
}

// jp2h, or a box of it outside jp2h. Such a box is skipped before the header bit is set.
fn read_header(ty: Jp2BoxType, c: &[u8], at: At, k: &mut Jp2) -> Result<(), Refusal<u32>>
    ensures { leaves result k.new ≡ header_or_skipped ty at.place at.start c.now k.old }
{
    if is_early(ty, k.status) {
        skip(k);
        return Ok(());
    }
    read_jp2h::take_header_box(ty, c, at, k)
}

// Reads the content of a box of the file by the reader of its kind. jp2h and the boxes that belong into it have one arm: read_jp2h says why.
fn read_outer(ty: Jp2BoxType, c: &[u8], at: At, k: &mut Jp2) -> Result<(), Refusal<u32>>
    requires { at.start + length c.now ≤ largest }
    ensures { leaves result k.new ≡ outer (box_with ty at.place at.start c.now) k.old }
{
    match ty {
        Jp2BoxType::JP => *k = read_signature::opj_jp2_read_jp(c, at, *k)?,
        Jp2BoxType::FTYP => *k = read_signature::opj_jp2_read_ftyp(c, at, *k)?,
        Jp2BoxType::JP2H
        | Jp2BoxType::IHDR
        | Jp2BoxType::BPCC
        | Jp2BoxType::COLR
        | Jp2BoxType::PCLR
        | Jp2BoxType::CMAP
        | Jp2BoxType::CDEF => read_header(ty, c, at, k)?,
        _ => read_other(at.place, k)?,
    }
    Ok(())
}

// Ends the reading at a box that reaches past the end.
fn read_past(ty: Jp2BoxType, place: u32, k: Jp2) -> Result<Reading, Refusal<u32>>
    ensures { walked result ≡ past_end (box_at ty place 0) k }
{
    if is_read(ty) {
        return Err(Refusal {
            cause: Cause::PastTheFile,
            place,
        });
    }
    let mut m = k;
    read_other(place, &mut m)?;
    Ok(Reading {
        end: FileEnd::Ended,
        jp2: m,
    })
}

// Reads a box that lies in c, from its first byte on, with the header that was found there.
fn read_whole(c: &[u8], place: u32, h: Jp2BoxHeader, k: &mut Jp2) -> Result<(), Refusal<u32>>
    requires { Heads place c.now h }
    ensures { leaves result k.new ≡ outer (first_box place c.now) k.old }
{
    let content = &c[h.header_length as usize..(h.header_length + h.content_length()) as usize];
    let at = At {
        place,
        start: place + h.header_length,
    };
    read_outer(h.ty, content, at, k)
}

// A file, read from a record on. The promise has the result, and request R-1: where the file was broken off, the result agrees with the whole file. The steps of a turn alter the record in place (docs/DECISIONS.md, 69).
pub fn opj_jp2_read_header_procedure(s: &[u8], j: Jp2) -> Result<Reading, Refusal<u32>>
    ensures { FileRead s.now j (walked result) }
{
    if LARGEST < s.len() {
        return Err(Refusal {
            cause: Cause::FileTooLong,
            place: 0,
        });
    }
    let mut k = j;
    // no index: each turn takes a box off the front of what is left
    let mut rest = s;
    let mut at = 0;
    while let Some(found) = find_box(rest) {
        match found {
            Found::Codestream(n) => {
                let start = at + n;
                return read_stream(At { place: at, start }, k);
            }
            Found::Short => {
                return Err(Refusal {
                    cause: Cause::LengthBelowHeader,
                    place: at,
                });
            }
            Found::Past(h) => return read_past(h.ty, at, k),
            Found::Whole(h) => {
                read_whole(rest, at, h, &mut k)?;
                rest = &rest[h.next(0)..];
                at = h.next(at) as u32;
            }
        }
    }
    Ok(Reading {
        end: FileEnd::Ended,
        jp2: k,
    })
}

// A file, read from the record before any box. The last clause is request R-1.
pub fn read_file(s: &[u8]) -> Result<Reading, Refusal<u32>>
    ensures value { walked result ≡ read s.now }
    ensures whatever_was_lost { WhateverWasLost s.now blank (walked result) }
{
    opj_jp2_read_header_procedure(s, read_record::opj_jp2_create())
}
