// What is said of a file: for people its name, then a field a line, a line's end before the next line; or one line of JSON.
// In JSON a box that the record has nothing of is null, and a list without items is empty. Numbers are as in the file.
use crate::say::Report;
use box_refusal::{Cause, Refusal};
use read_record::{Colour, FileType, Image, Jp2, Lab, Palette, Span};
use read_rules::{FileEnd, Reading};
use std::io;

impl<P: Print> Report<'_, P> {
    // Where a piece does not arrive the others still follow; the answer is whether the last one did.
    pub(crate) fn reading(
        &self,
        name: &[u8],
        reading: Result<Reading, Refusal<u32>>,
    ) -> io::Result<()> {
        self.say(b"|{\"file\":\"");
        self.quoted(name);
        match reading {
            Ok(reading) => self.read(reading),
            Err(refusal) => self.refused(refusal),
        }
        self.write(b"\n|}\n")
    }

    // Where reading ended comes before the record in JSON, and after it for people.
    fn read(&self, reading: Reading) {
        let Reading { end, jp2 } = reading;
        if self.json {
            self.end(end);
            self.record(jp2)
        } else {
            self.record(jp2);
            self.end(end)
        }
    }

    fn end(&self, end: FileEnd) {
        match end {
            FileEnd::Codestream(offset) => self.fill(
                b"\n  codestream: at #|\",\"answer\":\"codestream\",\"codestream\":#",
                &[offset as usize],
            ),
            FileEnd::Ended => self.say(
                b"\n  codestream: none, ended|\",\"answer\":\"ended\",\"codestream\":null",
            ),
        }
    }

    fn refused(&self, refusal: Refusal<u32>) {
        self.fill(
            b"\n  refused: #, |\",\"answer\":\"refused\",\"number\":#,\"cause\":\"",
            &[refusal.cause.number() as usize],
        );
        self.word(words(refusal.cause));
        self.fill(b", box at #|\",\"place\":#", &[refusal.place as usize])
    }

    fn record(&self, jp2: Jp2) {
        let l = jp2.lists;
        self.filetype(jp2.filetype, l.cl);
        self.image(jp2.image);
        self.list(
            b"\n  BPCC:|,\"bpcc\":[",
            1,
            l.bpcc,
            |i, c| self.component(i, c),
        );
        self.colour(jp2.colour, l.icc);
        self.pclr(l.pclr);
        self.list(
            b"\n  cmap:|,\"cmap\":[",
            4,
            l.cmap,
            |i, c| self.mapping(i, c),
        );
        self.list(
            b"\n  cdef:|,\"cdef\":[",
            6,
            l.cdef,
            |_, c| self.definition(c),
        )
    }

    // Where brand, version and list are 0, there was no ftyp box, or one of zeros.
    fn filetype(&self, t: FileType, cl: Span) {
        if cl.count == 0 && t.brand == 0 && t.minversion == 0 {
            return self.say(b"\n  ftyp: none|,\"ftyp\":null");
        }
        self.say(b"\n  BR:|,\"ftyp\":{\"BR\":");
        self.code(&t.brand.to_be_bytes());
        self.fill(b"\n  MinV: #\n  CL:|,\"MinV\":#", &[t.minversion as usize]);
        self.list(b"|,\"CL\":[", 4, cl, |_, c| self.code(c));
        self.say(b"|}")
    }

    fn image(&self, image: Image) {
        let Image {
            h,
            w,
            numcomps,
            bpc,
            c,
            unkc,
            ipr,
        } = image;
        if numcomps == 0 {
            return self.say(b"\n  ihdr: none|,\"ihdr\":null");
        }
        self.fill(
            b"\n  HEIGHT: #\n  WIDTH: #\n  NC: #\n  BPC: # (|,\"ihdr\":{\"HEIGHT\":#,\"WIDTH\":#,\"NC\":#,\"BPC\":#",
            &[h as usize, w as usize, numcomps as usize, bpc as usize],
        );
        if bpc == 255 {
            self.note("the components differ)");
        } else {
            self.depth(bpc as usize);
        }
        self.fill(
            b"\n  C: #\n  UnkC: #\n  IPR: #|,\"C\":#,\"UnkC\":#,\"IPR\":#}",
            &[c as usize, unkc as usize, ipr as usize],
        )
    }

    // Where all that every method has is 0, there was no colr box, or one of zeros.
    fn colour(&self, colour: Colour, icc: Span) {
        let Colour {
            meth,
            precedence,
            approx,
            ..
        } = colour;
        if colour.held == 0 && meth == 0 && precedence == 0 && approx == 0 {
            return self.say(b"\n  colr: none|,\"colr\":null");
        }
        self.fill(b"\n  METH: # (|,\"colr\":{\"METH\":#", &[meth as usize]);
        self.note(match meth {
            1 => "enumerated colour space",
            2 => "ICC profile",
            _ => "unknown",
        });
        self.fill(
            b")\n  PREC: #\n  APPROX: #|,\"PREC\":#,\"APPROX\":#",
            &[precedence as usize, approx as usize],
        );
        match meth {
            1 => self.enumerated(colour),
            2 => self.profile(icc),
            _ => {}
        }
        self.say(b"|}")
    }

    // For people the size comes first.
    fn profile(&self, icc: Span) {
        let size = icc.count;
        self.fill(
            b"\n  PROFILE: # bytes at |,\"PROFILE\":{\"place\":",
            &[size],
        );
        self.fill(b"#|#", &[icc.place]);
        self.fill(b"|,\"size\":#}", &[size])
    }

    fn enumerated(&self, colour: Colour) {
        let enumcs = colour.enumcs;
        self.fill(
            b"\n  EnumCS: # (|,\"EnumCS\":#,\"space\":\"",
            &[enumcs as usize],
        );
        self.word(space(enumcs));
        self.say(b")|\"");
        self.lab(colour.lab)
    }

    // The numbers of CIELab, as many of them as count.
    fn lab(&self, l: Lab) {
        if l.count == 0 {
            return;
        }
        let numbers = l.numbers;
        let n = numbers.len().min(l.count as usize);
        self.say(b"\n  CIELab: |,\"CIELab\":[");
        self.join(&numbers[..n]);
        self.say(b"|]")
    }

    fn pclr(&self, p: Palette) {
        if p.columns == 0 {
            return self.say(b"|,\"pclr\":null");
        }
        self.fill(
            b"\n  pclr: NE #, NPC #|,\"pclr\":{\"NE\":#,\"NPC\":#,\"columns\":[",
            &[p.entries as usize, p.columns as usize],
        );
        self.columns(p);
        self.say(b"|],\"entries\":[");
        self.entries(p);
        self.say(b"|]}")
    }
}

// Why a file is refused. Reading has the first 24 causes.
fn words(cause: Cause) -> &'static str {
    match cause {
        Cause::FileTooLong => "file over 4294967295 bytes",
        Cause::CodestreamTooEarly => "codestream without header bit",
        Cause::LengthBelowHeader => "length below own header",
        Cause::PastTheFile => "content past the file",
        Cause::BeforeSignature => "other box before signature bit",
        Cause::BeforeFileType => "other box before file type bit",
        Cause::Signature => "jP: state not 0, not 4 bytes, or not 0x0d0a870a",
        Cause::FileType => "ftyp: state not 1, under 8 bytes, or rest not fours",
        Cause::HeaderTooEarly => "jp2h without file type bit",
        Cause::ChildHeader => "child header cut, length field 0, or high word not 0",
        Cause::ChildLength => "child length below header or past jp2h",
        Cause::NoImageHeader => "jp2h lacks ihdr",
        Cause::ImageHeaderLength => "ihdr not 14 bytes",
        Cause::ZeroSize => "zero height, width or count",
        Cause::TooManyComponents => "count over 16384",
        Cause::ColourTooShort => "colr under 3 bytes, or method 1 with under 4 left",
        Cause::BitsLength => "bpcc length not the count",
        Cause::SecondList => "second pclr, cmap or cdef",
        Cause::PaletteSize => "pclr entries 0 or over 1024, or columns 0",
        Cause::PaletteTooShort => "pclr under 3 bytes, or widths or entries short",
        Cause::MappingWithoutPalette => "cmap without pclr",
        Cause::MappingTooShort => "cmap short",
        Cause::DefinitionTooShort => "cdef under 2 bytes or short",
        Cause::NoDefinitions => "cdef count 0",
        _ => "unknown",
    }
}

// EnumCS: I.5.3.3, and Annex M of ISO/IEC 15444-2.
fn space(enumcs: u32) -> &'static str {
    match enumcs {
        0 => "bi-level",
        1 => "YCbCr(1)",
        3 => "YCbCr(2)",
        4 => "YCbCr(3)",
        9 => "PhotoYCC",
        11 => "CMY",
        12 => "CMYK",
        13 => "YCCK",
        14 => "CIELab",
        15 => "bi-level(2)",
        16 => "sRGB",
        17 => "greyscale",
        18 => "sYCC",
        19 => "CIEJab",
        20 => "e-sRGB",
        21 => "ROMM-RGB",
        22 => "YPbCr(1125/60)",
        23 => "YPbCr(1250/50)",
        24 => "e-sYCC",
        _ => "unknown",
    }
}
