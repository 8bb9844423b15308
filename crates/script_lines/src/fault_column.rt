//! The column of the first fault of a line: where the field stands that is wrong, or that is too many, or past the end where one lacks.

ghost use Rattle.std.specs.Prelude.{◌≡◌};
ghost use Rattle.script_lines.specs.Grammar.{fault, count_fault};
ghost use Rattle.script_lines.specs.steps.Counted.{first_of};

use crate::cause::{LineCause, LineFault};
use crate::line_fields::Fields;
use crate::words::FieldKind;

/// The fault at a column.
pub fn fault(cause: LineCause, column: u32) -> LineFault
    ensures { result ≡ fault cause column }
{
    LineFault { cause, column }
}

/// The fault of the count of the fields that are left, or else the one that was found.
pub fn first_of(past: u32, forms: &[FieldKind], fields: Fields<'_>, found: LineFault) -> LineFault
    ensures { result ≡ first_of (count_fault past fields.entry.column forms.now fields.entry.fields) found }
{
    match count_fault(past, forms, fields) {
        Some(first) => first,
        None => found,
    }
}

/// Too few fields, or too many.
fn count_fault(past: u32, forms: &[FieldKind], mut fields: Fields<'_>) -> Option<LineFault>
    ensures { result ≡ count_fault past fields.entry.column forms.now fields.entry.fields }
{
    for _form in forms {
        let Some(_field) = fields.next() else {
            return Some(fault(LineCause::Fields, past));
        };
    }
    if fields.is_empty() {
        None
    } else {
        Some(fault(LineCause::Fields, fields.column()))
    }
}
