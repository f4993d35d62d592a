// All checks of a picture before any plane is written (`opj_jp2_check_color` of jp2.rs): numbers 29 and 25 to 28.
#![tactic(auto)]

ghost use Rattle.std.specs.Prelude.{◌≡◌};
ghost use Rattle.box_refusal.specs.Told.{told};
ghost use Rattle.picture_rules.specs.Channels.{channels};
ghost use Rattle.picture_check.specs.Checked.{checked};

use crate::lent::Lent;
use box_refusal::{Cause, Refusal};
use picture_rules::Settings;
use read_record::Jp2;

mod bounds;
mod definitions;
pub mod lent;
mod mappings;

// A picture that passes the checks: how many channels it has, and whether its mappings are to be corrected.
#[derive(Clone, Copy, Debug, PartialEq, Eq, Hash)]
pub struct Checked {
    pub channels: u32,
    pub corrected: bool,
}

// How many channels a picture of n components has.
#[tactic(auto, unfolding(picture_rules::specs::Channels::channels, box_number::specs::Table::table))]
fn channel_count(m: Jp2, n: u32) -> u32
    ensures { result ≡ channels m n }
{
    if m.lists.cmap.count != 0 {
        m.lists.pclr.columns
    } else {
        n
    }
}

// The checks for the picture of a file f with the record m from reading it, in the order of document 01's table, by the edition in the settings s. With any ignore flag but 0 only number 29 is left of them.
pub fn opj_jp2_check_color(
    f: &[u8],
    m: Jp2,
    s: Settings,
    lent: &Lent<'_>,
) -> Result<Checked, Refusal<u32>>
    ensures { told result ≡ checked f.now m s lent.now }
{
    if bounds::outside(f, m, lent) {
        return Err(Refusal {
            cause: Cause::OutsideItsList,
            place: 0,
        });
    }
    if s.ignore != 0 {
        return Ok(Checked {
            channels: lent.count,
            corrected: false,
        });
    }
    let cdef = m.lists.cdef;
    let cmap = m.lists.cmap;
    let n = channel_count(m, lent.count);
    if let Some(j) = definitions::first_misnamed(f, cdef, n) {
        return Err(Refusal {
            cause: Cause::ChannelMisnamed,
            place: j as u32,
        });
    }
    if let Some(c) = definitions::first_undefined(f, cdef, s.edition2, n) {
        return Err(Refusal {
            cause: Cause::ChannelUndefined,
            place: c,
        });
    }
    if let Some(i) = mappings::first_mismapped(f, cmap, lent.count) {
        return Err(Refusal {
            cause: Cause::MappingFails,
            place: i as u32,
        });
    }
    if let Some(k) = mappings::first_dataless(f, cmap, lent) {
        return Err(Refusal {
            cause: Cause::NoSamples,
            place: k as u32,
        });
    }
    Ok(Checked {
        channels: n,
        corrected: mappings::is_corrected(f, cmap, lent.count),
    })
}
