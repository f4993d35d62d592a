// Document 01's marked cases on order, definitions that are passed over, a channel defined twice and a case that is refused, each over a lent list of four component records, a line each: first in edition 1, then in edition 2. The records past a case's planes are left.
#![tactic(auto)]

ghost use Rattle.std.specs.Prelude.{◌≡◌};
ghost use Rattle.box_refusal.specs.Told.{told};
ghost use Rattle.picture_order.specs.Flat.{answered, afterwards};
ghost use Rattle.picture_order.specs.Comps.{numbered};

use box_refusal::Refusal;
use picture_order::Definitions;
use picture_order::lent::Comp;
use read_record::Span;
use test_lines::say;

// The editions of the camera rules.
const EDITION_1: u32 = 0;

const EDITION_2: u32 = 1;

// Definitions, of six bytes each, over A, B, C and D, of which n are in the picture.
#[derive(Clone, Copy)]
struct Case {
    name: &'static str,
    definitions: &'static [u8],
    n: u32,
}

const CASES: [Case; 14] = [
    Case {
        name: "A,B,C: (0,0,3),(1,0,2),(2,0,1)",
        definitions: b"\0\0\0\0\0\x03\0\x01\0\0\0\x02\0\x02\0\0\0\x01",
        n: 3,
    },
    Case {
        name: "A,B,C,D: (2,0,1),(0,0,2),(1,1,0),(3,1,0)",
        definitions: b"\0\x02\0\0\0\x01\0\0\0\0\0\x02\0\x01\0\x01\0\0\0\x03\0\x01\0\0",
        n: 4,
    },
    Case {
        name: "A,B: (0,1,0),(1,0,1)",
        definitions: b"\0\0\0\x01\0\0\0\x01\0\0\0\x01",
        n: 2,
    },
    Case {
        name: "A,B: (1,0,1),(0,1,0)",
        definitions: b"\0\x01\0\0\0\x01\0\0\0\x01\0\0",
        n: 2,
    },
    // a channel, or an asoc - 1, without a record, and those just inside
    Case {
        name: "A,B: (2,0,1),(2,1,0)",
        definitions: b"\0\x02\0\0\0\x01\0\x02\0\x01\0\0",
        n: 2,
    },
    Case {
        name: "A,B: (0,0,3)",
        definitions: b"\0\0\0\0\0\x03",
        n: 2,
    },
    Case {
        name: "A,B: (0,1,3)",
        definitions: b"\0\0\0\x01\0\x03",
        n: 2,
    },
    Case {
        name: "A,B: (0,1,2)",
        definitions: b"\0\0\0\x01\0\x02",
        n: 2,
    },
    Case {
        name: "A,B: (0,0,2)",
        definitions: b"\0\0\0\0\0\x02",
        n: 2,
    },
    Case {
        name: "A,B,C: (3,1,0),(0,0,4),(0,0,2),(0,1,4),(0,2,0)",
        definitions: b"\0\x03\0\x01\0\0\0\0\0\0\0\x04\0\0\0\0\0\x02\0\0\0\x01\0\x04\0\0\0\x02\0\0",
        n: 3,
    },
    // channel 0 defined twice: with a move first, with a move last, and a second definition that is passed over
    Case {
        name: "A,B: (0,0,2),(0,1,0)",
        definitions: b"\0\0\0\0\0\x02\0\0\0\x01\0\0",
        n: 2,
    },
    Case {
        name: "A,B: (0,1,0),(0,0,2)",
        definitions: b"\0\0\0\x01\0\0\0\0\0\0\0\x02",
        n: 2,
    },
    Case {
        name: "A,B: (0,1,0),(0,2,3)",
        definitions: b"\0\0\0\x01\0\0\0\0\0\x02\0\x03",
        n: 2,
    },
    // more planes than there are records
    Case {
        name: "5 planes of 4 records: (0,0,0)",
        definitions: b"\0\0\0\0\0\0",
        n: 5,
    },
];

fn main(rt: HostRuntime) {
    cases(&rt, EDITION_1);
    let _ = println!(rt; "In edition 2:");
    cases(&rt, EDITION_2);
}

fn cases(rt: &impl Print, edition2: u32) {
    for case in CASES {
        run(rt, edition2, case);
    }
}

// A plane, by its name in `data`, and a mark that no definition sets.
fn comp(name: char) -> Comp {
    Comp {
        dx: 1,
        dy: 1,
        w: 2,
        h: 3,
        x0: 0,
        y0: 0,
        prec: 8,
        bpp: 8,
        sgnd: 0,
        resno_decoded: 0,
        factor: 0,
        data: u32::from(name),
        alpha: 9,
    }
}

// Prints the case, and what it makes of the four records.
fn run(rt: &impl Print, edition2: u32, case: Case) {
    let mut cs = [comp('A'), comp('B'), comp('C'), comp('D')];
    let cdef = Span {
        place: 0,
        count: case.definitions.len() / 6,
    };
    let d = Definitions { cdef, edition2 };
    let _ = print!(rt; "{}", case.name);
    let _ = apply_four(rt, case.definitions, d, &mut cs, case.n);
}

// Prints what the reorder answers, and the planes and marks after it. Gives the answer.
fn apply_four(
    rt: &impl Print,
    f: &[u8],
    d: Definitions,
    cs: &mut [Comp; 4],
    n: u32,
) -> Result<(), Refusal<u32>>
    ensures { (told result ≡ answered f.now d.cdef n (numbered cs.old)) × (numbered cs.new ≡ afterwards d.edition2 f.now d.cdef n (numbered cs.old)) }
{
    let answer = picture_order::lent::opj_jp2_apply_cdef(f, d, cs, n);
    match answer {
        Ok(()) => say(rt, b" = done; planes", &[]),
        Err(r) => say(
            rt,
            b" = refused # at #; planes",
            &[r.cause.number() as usize, r.place as usize],
        ),
    };
    for c in *cs {
        let name = char::from_u32(c.data).unwrap_or('?');
        let _ = print!(rt; " {name}");
        say(rt, b" marked #", &[c.alpha as usize]);
    }
    let _ = println!(rt;);
    answer
}
