//! The fields of a line, one after another, with their columns; and names that are parted by commas.

ghost use Rattle.std.specs.Prelude.{◌≡◌, ◌+◌, ◌≤◌, ◌↔◌, ◌∷◌, List, [], length, nat_lt, IsTrue, MatchOption};
ghost use Rattle.std.specs.List.{list_all};
ghost use Rattle.std.specs.Option.{option_copied};
ghost use Rattle.script_lines.specs.steps.Split.{fields_left, octets_left, names_left};
ghost use Rattle.script_lines.specs.Field.{fields_of, is_name};
ghost use Rattle.script_lines.specs.Reading.{listed_names};

use crate::name_form::is_name;
use std::marker::Model;

/// The fields that are left of a line, and the column of the first of them.
#[derive(Drop)]
pub struct Fields<'a> {
    rest: Option<&'a str>,
    column: usize,
}

// A line has at most 40,000 octets.
impl<'a> Model for Fields<'a> {
    ghost use Rattle.std.specs.Prelude.{List, ℕ, ◌+◌, ◌≤◌};
    ghost use Rattle.script_lines.specs.steps.Split.{Left, fields_left, octets_left};
    ghost use Rattle.std.specs.Option.{option_copied};

    ghost Value = { Left };

    ghost view = { λ f. record { column = f.column; fields = fields_left (option_copied f.rest) } };

    ghost invariant = { λ f. f.column + octets_left (option_copied f.rest) ≤ 40002 };
}

impl<'a> Fields<'a> {
    ghost use Rattle.script_lines.specs.Grammar.{next_column};

    /// All fields of a line, parted by one blank each.
    pub fn of(line: &'a str) -> Fields<'a>
        requires { length line.now ≤ 40000 }
        ensures { result ≡ record { column = 1; fields = fields_of line.now } }
    {
        Fields {
            rest: Some(line),
            column: 1,
        }
    }

    /// The column of the next field, or one past the end behind the last one.
    pub fn column(&self) -> u32
        ensures { result ≡ self.now.column }
    {
        self.column as u32
    }

    /// The next field. None exactly where the line ends before it.
    pub fn next(&mut self) -> Option<&'a str>
        ensures { MatchOption result ((self.old.fields ≡ []) × (self.new ≡ self.old))
            (λ field. (self.old.fields ≡ field.now ∷ self.new.fields) × (self.new.column ≡ next_column self.old.column field.now)) }
    {
        let Some(rest) = self.rest else {
            return None;
        };
        let (field, rest) = split_field(rest);
        self.rest = rest;
        self.column += field.len() + 1;
        Some(field)
    }

    /// Whether no field is left.
    pub fn is_empty(&self) -> bool
        ensures { IsTrue result ↔ (self.now.fields ≡ []) }
    {
        self.rest.is_none()
    }
}

/// The first field, and what stands behind its blank.
fn split_field(line: &str) -> (&str, Option<&str>)
    ensures fields { fields_of line.now ≡ result.0.now ∷ fields_left (option_copied result.1) }
    ensures octets { length result.0.now + octets_left (option_copied result.1) ≤ length line.now }
{
    match line.split_once(' ') {
        Some((field, rest)) => (field, Some(rest)),
        None => (line, None),
    }
}

/// The names that are left of a list. Contracts see them as a list.
#[derive(Drop)]
pub struct CommaNames<'a> {
    rest: Option<&'a str>,
}

impl<'a> Model for CommaNames<'a> {
    ghost use Rattle.std.specs.Prelude.{List, ℕ};
    ghost use Rattle.script_lines.specs.steps.Split.{names_left};
    ghost use Rattle.std.specs.Option.{option_copied};

    ghost Value = { List (List ℕ) };

    ghost view = { λ f. names_left (option_copied f.rest) };
}

impl<'a> CommaNames<'a> {
    /// All names of a field.
    pub fn of(field: &'a str) -> CommaNames<'a>
        ensures { result ≡ listed_names field.now }
    {
        CommaNames { rest: Some(field) }
    }

    /// The next name. None exactly where the list ends before it.
    pub fn next(&mut self) -> Option<&'a str>
        ensures { MatchOption result ((self.old ≡ []) × (self.new ≡ [])) (λ name. self.old ≡ name.now ∷ self.new) }
    {
        let Some(rest) = self.rest else {
            return None;
        };
        let (name, rest) = split_name(rest);
        self.rest = rest;
        Some(name)
    }
}

/// The first name, and what stands behind its comma.
fn split_name(list: &str) -> (&str, Option<&str>)
    ensures { listed_names list.now ≡ result.0.now ∷ names_left (option_copied result.1) }
{
    match list.split_once(',') {
        Some((name, rest)) => (name, Some(rest)),
        None => (list, None),
    }
}

/// Whether a field lists names alone.
pub fn are_names(field: &str) -> bool
    ensures { result ≡ list_all is_name (listed_names field.now) }
{
    let mut names = CommaNames::of(field);
    while let Some(name) = names.next() {
        if !is_name(name) {
            return false;
        }
    }
    true
}

/// Whether a field lists more than four names.
pub fn are_many(field: &str) -> bool
    ensures { result ≡ nat_lt 4 (length (listed_names field.now)) }
{
    let mut names = CommaNames::of(field);
    for _taken in 0_usize..4 {
        let Some(_name) = names.next() else {
            return false;
        };
    }
    names.next().is_some()
}
