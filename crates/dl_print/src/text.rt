//! Texts, written into a buffer from a place on.
mod damage;
mod digits;
mod lines;
mod row;
mod values;

pub use damage::write_damage;
pub use digits::{
    write_address, write_bytes, write_decimal, write_hexadecimal_bytes, write_hexadecimal_number,
    write_number,
};
pub use lines::{
    write_foreign_line, write_missing_line, write_summary_line, write_survey_line, write_unit_line,
};
pub use row::{write_row, write_row_text};
pub use values::{write_offset, write_quoted_bytes, write_value_start};
