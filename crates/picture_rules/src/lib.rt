// The order of a picture's planes: definitions and theorems. The code, `opj_jp2_apply_cdef` of jp2.rs, is in picture_order.
#![tactic(auto)]

// The finished picture (`opj_jp2_check_color`, `opj_jp2_apply_pclr` and `opj_jp2_apply_color_postprocessing` of jp2.rs): its definitions, and demand 3.

// What finishing is told beside the picture. ignore: with any number but 0 palette, mappings and definitions count for nothing.
// edition2 picks the edition of the camera rules: 0 is edition 1, the crate's behaviour, and any other number edition 2.
// Both are numbers, as C passes them: a narrower type would ask more of callers.
#[derive(Clone, Copy)]
pub struct Settings {
    pub ignore: u32,
    pub edition2: u32,
}
