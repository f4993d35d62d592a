// A case, and the answer of reading its file: by value, and over a lent record with the width in the record afterwards.
ghost use Rattle.std.specs.Prelude.{◌≡◌, OnErr};
ghost use Rattle.read_rules.specs.CutTransfers.{FileRead};
ghost use Rattle.read_lent.specs.LentFile.{leaves_file};

use box_refusal::Refusal;
use read_record::Jp2;
use read_rules::FileEnd;
use test_lines::say;

pub(crate) fn came(rt: &impl Print, case: &str, file: &[u8]) {
    let _ = print!(rt; "{case} = ");
    answer(rt, read_file::read_file(file).map(|r| r.end));
    let mut j = read_record::opj_jp2_create();
    let _ = lent(rt, file, &mut j);
}

// Over a lent record. Gives the answer.
fn lent(rt: &impl Print, file: &[u8], j: &mut Jp2) -> Result<FileEnd, Refusal<u32>>
    ensures left { FileRead file.now j.old (leaves_file result j.new) }
    ensures kept { OnErr result (j.new ≡ j.old) }
{
    let end = read_lent::opj_jp2_read_header_procedure(file, j);
    let _ = print!(rt; "; lent ");
    answer(rt, end);
    say(rt, b", width #\n", &[j.image.w as usize]);
    end
}

fn answer(rt: &impl Print, answer: Result<FileEnd, Refusal<u32>>) {
    match answer {
        Ok(FileEnd::Codestream(offset)) => say(rt, b"codestream at #", &[offset as usize]),
        Ok(FileEnd::Ended) => say(rt, b"ended", &[]),
        Err(r) => say(
            rt,
            b"refused # at #",
            &[r.cause.number() as usize, r.place as usize],
        ),
    };
}
