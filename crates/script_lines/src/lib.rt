//! The lines of a script: what each says after the lines before it, or its first fault.
//!
//! `line_table` has a row for each line word, `field_reading` reads a field of each kind, `line_reading` goes over the
//! fields of a row, `fault_column` finds the column of a fault, and `names` keeps what the lines so far declare.
#![tactic(auto)]

mod cause;
mod declaring;
mod fault_column;
mod field_forms;
mod field_reading;
mod field_values;
mod hexadecimal;
mod laws;
mod line;
mod line_fields;
mod line_reading;
mod line_table;
mod name_form;
mod names;
mod printable;
mod routes;
mod settings;
mod system;
mod words;

pub use cause::{LineCause, LineFault, LineRefusal};
pub use laws::{lines_are_of_command, names_are_known, names_stay_names, one_reading};
pub use line::{Line, PathKind};
pub use names::Names;
pub use settings::{Key, default_of};
pub use words::{Dialect, Word};
