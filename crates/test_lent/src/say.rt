// A case, the answer of a reader, and numbers of the record after it.
use box_refusal::Refusal;
use read_record::Jp2;
use test_lines::say;

pub(crate) fn came(rt: &impl Print, case: &str, answer: Result<(), Refusal<u32>>, j: &Jp2) {
    let _ = print!(rt; "{case} = ");
    match answer {
        Ok(()) => say(rt, b"done", &[]),
        Err(r) => say(
            rt,
            b"refused # at #",
            &[r.cause.number() as usize, r.place as usize],
        ),
    };
    say(
        rt,
        b"; state #, width #, depths #, colour #, columns #, mappings #, definitions #\n",
        &[
            j.status.state as usize,
            j.image.w as usize,
            j.lists.bpcc.count,
            j.colour.enumcs as usize,
            j.lists.pclr.columns as usize,
            j.lists.cmap.count,
            j.lists.cdef.count,
        ],
    );
}
