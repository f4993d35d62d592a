// What is to be written of a picture (`opj_jp2_setup_encoder` of jp2.rs): the fields of all boxes, from its components, corners, colour space and profile.
#![tactic(auto)]

ghost use Rattle.std.specs.Prelude.{◌≡◌, false};
ghost use Rattle.box_number.specs.Table.{◌≠?◌, holds, Says};
ghost use Rattle.box_number.specs.Lowest.{some};
ghost use Rattle.box_refusal.specs.Told.{told};
ghost use Rattle.write_rules.specs.Request.{asked, alpha_of};
ghost use Rattle.write_rules.specs.Setup.{other_bits, BPCi, BPC, METH, EnumCS, colours, mark_count, N, ill, set_up};
ghost use Rattle.box_number.specs.Lowest.{found};

use box_refusal::{Cause, Refusal};
use read_record::{ALPHA, COMPONENT_NUMBERS, MOST_COMPONENTS, PREC, SGND};
use write_rules::{ENUMERATED, Fields, PROFILE, Request, VARIES};

// The most bits of a sample, and the weight of its sign in a byte.
const MOST_BITS: u32 = 38;

const SIGN_BIT: u64 = 128;

// Enumerated colour spaces.
const SRGB: u32 = 16;

const GREYSCALE: u32 = 17;

const SYCC: u32 = 18;

// Whether component c has a precision that is not 1 to 38, or a sign that is not 0 or 1.
fn is_ill(comps: &[u32], c: u32) -> bool
    ensures { result ≡ holds (ill comps.now c) }
{
    let precision = read_record::component(comps, c, PREC);
    precision == 0 || MOST_BITS < precision || 1 < read_record::component(comps, c, SGND)
}

// The first such component.
fn first_ill(r: &Request<'_>) -> Option<u32>
    ensures { result ≡ found (ill r.now.comps.now) r.now.count }
{
    (0..r.count).find(|c| is_ill(r.comps, *c))
}

// Whether component c has not as many bits as component 0.
fn has_other_bits(comps: &[u32], c: u32) -> bool
    ensures { result ≡ holds (other_bits comps.now c) }
{
    read_record::component(comps, c, PREC) != read_record::component(comps, 0, PREC)
}

// Bits less 1 of component c, and its sign as the top bit. They are a byte where the component is not ill.
#[tactic(auto, unfolding(write_rules::specs::Setup::BPCi))]
pub fn component_bits(comps: &[u32], c: u32) -> u64
    ensures { result ≡ BPCi comps.now c }
{
    let precision = read_record::component(comps, c, PREC);
    let sign = read_record::component(comps, c, SGND);
    u64::from(precision.saturating_sub(1)) + SIGN_BIT * u64::from(sign)
}

// Whether some component has not as many bits as component 0.
fn bits_vary(r: &Request<'_>) -> bool
    ensures { result ≡ holds (some (other_bits r.now.comps.now) r.now.count) }
{
    (0..r.count).any(|c| has_other_bits(r.comps, c))
}

// What all components have, bits less 1 and the sign as top bit, or VARIES.
#[tactic(auto, using(write_rules::proofs::Bounds::depth_most), unfolding(write_rules::specs::Setup::BPC, box_number::specs::Table::table))]
fn bits(r: &Request<'_>) -> u32
    requires { Says false (ill r.now.comps.now 0) }
    ensures { result ≡ BPC r.now.comps.now r.now.count }
{
    if bits_vary(r) {
        VARIES
    } else {
        component_bits(r.comps, 0) as u32
    }
}

// The method: a profile, or an enumerated colour space.
#[tactic(auto, unfolding(write_rules::specs::Setup::METH, box_number::specs::Table::table))]
fn method(profile: &[u8]) -> u32
    ensures { result ≡ METH profile.now }
{
    if profile.is_empty() {
        ENUMERATED
    } else {
        PROFILE
    }
}

// The enumerated colour space: sRGB, greyscale or sYCC; 0 with a profile, and where it is another.
#[tactic(auto, unfolding(write_rules::specs::Setup::EnumCS, box_number::specs::Table::table))]
fn enumerated(meth: u32, space: u32) -> u32
    ensures { result ≡ EnumCS meth space }
{
    if meth == PROFILE {
        return 0;
    }
    match space {
        1 => SRGB,
        2 => GREYSCALE,
        3 => SYCC,
        _ => 0,
    }
}

// The count of colours of an enumerated colour space.
#[tactic(auto, unfolding(write_rules::specs::Setup::colours, box_number::specs::Table::table))]
fn colour_count(enumcs: u32) -> u32
    ensures { result ≡ colours enumcs }
{
    match enumcs {
        SRGB => 3,
        GREYSCALE => 1,
        SYCC => 3,
        _ => 0,
    }
}

// Whether component c is marked.
fn is_marked(comps: &[u32], c: u32) -> bool
    ensures { result ≡ holds (alpha_of comps.now c ≠? 0) }
{
    read_record::component(comps, c, ALPHA) != 0
}

// The count of marked components.
fn mark_count(r: &Request<'_>) -> usize
    ensures { result ≡ mark_count r.now.comps.now r.now.count }
{
    (0..r.count).filter(|c| is_marked(r.comps, *c)).count()
}

// The first component that is marked.
fn first_marked(r: &Request<'_>) -> Option<u32>
    ensures { result ≡ found (λ c. alpha_of r.now.comps.now c ≠? 0) r.now.count }
{
    (0..r.count).find(|c| is_marked(r.comps, *c))
}

// The count of definitions in cdef: all components are defined where exactly one is marked, and it comes after the colours.
#[tactic(auto, unfolding(write_rules::specs::Setup::N, box_number::specs::Table::table))]
fn definition_count(r: &Request<'_>, colours: u32) -> u32
    ensures { result ≡ N r.now.comps.now r.now.count colours }
{
    if mark_count(r) != 1 {
        return 0;
    }
    match first_marked(r) {
        Some(opacity) if colours != 0 && colours <= opacity => r.count,
        _ => 0,
    }
}

// Sets up the fields of the boxes. The room for the boxes is not used here, so the contract has 0 for it.
#[tactic(auto, unfolding(write_rules::specs::Setup::set_up, box_number::specs::Table::table))]
pub fn opj_jp2_setup_encoder(r: &Request<'_>) -> Result<Fields, Refusal<u32>>
    ensures { told result ≡ set_up (asked r.now 0) }
{
    if r.count == 0 || MOST_COMPONENTS < r.count {
        return Err(Refusal {
            cause: Cause::ComponentCount,
            place: 0,
        });
    }
    if r.comps.len() < COMPONENT_NUMBERS * r.count as usize {
        return Err(Refusal {
            cause: Cause::OutsideItsList,
            place: 0,
        });
    }
    if let Some(wrong) = first_ill(r) {
        return Err(Refusal {
            cause: Cause::Precision,
            place: wrong,
        });
    }
    let area = r.area;
    let meth = method(r.profile);
    let enumcs = enumerated(meth, r.space);
    let colours = colour_count(enumcs);
    Ok(Fields {
        h: area.y1.wrapping_sub(area.y0),
        w: area.x1.wrapping_sub(area.x0),
        numcomps: r.count,
        bpc: bits(r),
        meth,
        enumcs,
        colours,
        definitions: definition_count(r, colours),
    })
}
