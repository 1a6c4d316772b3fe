// The rows of a text, and the catalogue of their names. Only the program report_rows calls these.
#![tactic(auto)]

mod names;
mod rows;

pub use names::{Column, column_at, list_of, number_names, put_names};
pub use rows::{
    Row, find, flag_of, has_bad_peptide, has_long_name, name_count, read_columns, read_flags,
};
