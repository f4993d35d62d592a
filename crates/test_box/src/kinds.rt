// The kinds of box: from the number to the kind and back.
use box_kind::Jp2BoxType;
use test_lines::say;

// The 19 kinds that have a name, then numbers of none: 0x75756964 is the standard's UUID.
const NUMBERS: [u32; 28] = [
    0x6a706970, 0x6a502020, 0x66747970, 0x6a703268, 0x69686472, 0x636f6c72, 0x6a703263, 0x75726c20,
    0x70636c72, 0x636d6170, 0x63646566, 0x6474626c, 0x62706363, 0x6a703220, 0x72657320, 0x6a703269,
    0x786d6c20, 0x75756994, 0x75696e66, 0x75756964, 0, 1, 0x6a50201f, 0x6a502021, 0x4a503220,
    0x72686469, 0x7fffffff, 0xffffffff,
];

pub(crate) fn all(rt: &impl Print) {
    for value in NUMBERS {
        number(rt, value);
    }
    kind(rt, Jp2BoxType::None);
    kind(rt, Jp2BoxType::Unknown(0x6a502020));
    kind(rt, Jp2BoxType::Unknown(0x69686472));
}

fn number(rt: &impl Print, value: u32) {
    say(rt, b"from_u32 ", &[]);
    hex(rt, value);
    say(rt, b" = ", &[]);
    kind(rt, Jp2BoxType::from(value));
}

fn kind(rt: &impl Print, ty: Jp2BoxType) {
    name(rt, ty);
    say(rt, b", to_u32 ", &[]);
    hex(rt, u32::from(ty));
    say(
        rt,
        b", is_file_header #, is_image_header #\n",
        &[
            usize::from(ty.is_file_header()),
            usize::from(ty.is_image_header()),
        ],
    );
}

pub(crate) fn name(rt: &impl Print, ty: Jp2BoxType) {
    let _ = match ty {
        Jp2BoxType::Unknown(value) => print!(rt; "Unknown {value:08x}"),
        _ => print!(rt; "{ty:?}"),
    };
}

// The number of a kind.
pub(crate) fn hex(rt: &impl Print, n: u32) {
    let _ = print!(rt; "{n:08x}");
}
