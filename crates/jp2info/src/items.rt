// What a list of a record has: entries of CL, depths of BPCC or of a palette's columns, mappings of cmap, definitions of cdef.
// Each is shown by its place in the list and its bytes.
use crate::say::Report;

impl<P: Print> Report<'_, P> {
    // The four letters of a brand.
    pub(crate) fn code(&self, c: &[u8]) {
        self.say(b" '|\"");
        self.quoted(box_number::part(c, 0, 4));
        self.say(b"'|\"")
    }

    pub(crate) fn component(&self, i: usize, c: &[u8]) {
        let b = usize::from(box_number::read_u8(c, 0));
        self.fill(b"\n    component #: |", &[i]);
        self.fill(b"# (|#", &[b]);
        self.depth(b)
    }

    // What a byte of BPC or BPCC says, for people.
    pub(crate) fn depth(&self, b: usize) {
        self.fill(b"# bits, |", &[b % 128 + 1]);
        self.sign(b / 128)
    }

    fn sign(&self, sign: usize) {
        self.note(if sign == 0 { "unsigned)" } else { "signed)" })
    }

    pub(crate) fn column(&self, i: usize, c: &[u8]) {
        let b = usize::from(box_number::read_u8(c, 0));
        self.fill(b"\n    B #: |{\"B\":", &[i]);
        self.fill(b"# (# bits, |#,\"bits\":#", &[b, b % 128 + 1]);
        self.fill(b"|,\"sign\":#}", &[b / 128]);
        self.sign(b / 128)
    }

    pub(crate) fn mapping(&self, i: usize, c: &[u8]) {
        let cmp = usize::from(box_number::read_u16(c, 0));
        let mtyp = usize::from(box_number::read_u8(c, 2));
        let pcol = usize::from(box_number::read_u8(c, 3));
        self.fill(b"\n    channel #: |{", &[i]);
        self.fill(b"CMP #, MTYP # (|\"CMP\":#,\"MTYP\":#", &[cmp, mtyp]);
        self.note(match mtyp {
            0 => "direct",
            1 => "palette",
            _ => "unknown",
        });
        self.fill(b"), PCOL #|,\"PCOL\":#}", &[pcol])
    }

    pub(crate) fn definition(&self, c: &[u8]) {
        let cn = usize::from(box_number::read_u16(c, 0));
        let typ = usize::from(box_number::read_u16(c, 2));
        let asoc = usize::from(box_number::read_u16(c, 4));
        self.fill(b"\n    Cn #, Typ # (|{\"Cn\":#,\"Typ\":#", &[cn, typ]);
        self.note(match typ {
            0 => "colour",
            1 => "opacity",
            2 => "premultiplied opacity",
            65535 => "unspecified",
            _ => "unknown",
        });
        self.fill(b"), Asoc # (|,\"Asoc\":#}", &[asoc]);
        self.association(asoc)
    }

    // Asoc, for people.
    fn association(&self, asoc: usize) {
        match asoc {
            0 => self.note("whole image)"),
            65535 => self.note("unassociated)"),
            _ => self.fill(b"colour #)|", &[asoc]),
        }
    }
}
