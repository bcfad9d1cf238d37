//! How words are read and made, and their places, as in `lv_machine`.
pub(crate) use lv_machine::{
    cell_place_of, edit_in, element, first_descriptor, first_words, fits_short, index_in,
    look_after, mark_place_of, pack_cell, pack_part, part_place_of, part_value_in, part_version_in,
    size_in, value_in, version_in,
};
