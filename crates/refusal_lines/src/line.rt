//! A line in place.

ghost use Rattle.std.specs.Prelude.{◌≡◌, ◌+◌, ◌≤◌, ◌∷◌, [], ◌++◌, length, decimal};
ghost use Rattle.std.specs.List.{AllByRecursion, flat_map};
ghost use Rattle.arrayvec.specs.ArrayVec.{array_vec_len};
ghost use Rattle.refusal_lines.specs.Codes.{coded_line, field_text, IsField};
ghost use Rattle.refusal_lines.specs.Rows.{coded_in, field_in, fields_in, IsShortRow};

use crate::row::{Field, Fields, Row};
use arrayvec::ArrayVec;
use itoa::Buffer;
use std::marker::Model;

/// At most three fields of 1,025 bytes, 11 bytes before them, and the newline.
type Text = ArrayVec<u8, 3088>;

/// The line of a refusal, whole with its newline. Contracts see it as its bytes.
#[derive(Drop)]
pub struct Line {
    text: Text,
}

impl Model for Line {
    ghost use Rattle.std.specs.Prelude.{List, ℕ};

    ghost Value = { List ℕ };

    ghost view = { λ line. line.text.items };
}

impl Line {
    /// The line's bytes.
    pub fn as_slice(&self) -> &[u8]
        ensures { result.now ≡ self.now }
    {
        self.text.as_slice()
    }
}

/// Appends the bytes, for which there is room.
fn put(line: &mut Text, more: &[u8])
    requires { array_vec_len line.old + length more.now ≤ 3088 }
    ensures items { line.new.items ≡ line.old.items ++ more.now }
    ensures len { array_vec_len line.new ≡ array_vec_len line.old + length more.now }
{
    line.try_extend_from_slice(more).unwrap();
}

/// Appends a space and the bytes.
fn put_text(line: &mut Text, text: &[u8])
    requires short { length text.now ≤ 1024 }
    requires room { array_vec_len line.old + 1025 ≤ 3088 }
    ensures items { line.new.items ≡ line.old.items ++ 32 ∷ text.now }
    ensures len { array_vec_len line.new ≤ array_vec_len line.old + 1025 }
{
    put(line, b" ");
    put(line, text);
}

/// Appends a space and the number in decimal.
fn put_number(line: &mut Text, number: u64)
    requires { array_vec_len line.old + 1025 ≤ 3088 }
    ensures items { line.new.items ≡ line.old.items ++ 32 ∷ decimal number }
    ensures len { array_vec_len line.new ≤ array_vec_len line.old + 1025 }
{
    let mut buffer = Buffer::new();
    put_text(line, buffer.format(number).as_bytes());
}

/// Appends a space and the field.
fn put_field(line: &mut Text, field: &Field<'_>)
    requires value { IsField (field_in field.now) }
    requires room { array_vec_len line.old + 1025 ≤ 3088 }
    ensures items { line.new.items ≡ line.old.items ++ 32 ∷ field_text (field_in field.now) }
    ensures len { array_vec_len line.new ≤ array_vec_len line.old + 1025 }
{
    match field {
        Field::Number(number) => put_number(line, u64::from(*number)),
        Field::Wide(number) => put_number(line, *number),
        Field::Path(path) => put_text(line, path),
        Field::Symbol(name) => put_text(line, name),
    }
}

/// Appends the fields, each after a space.
fn put_fields(line: &mut Text, fields: &Fields<'_>)
    requires values { AllByRecursion IsField (fields_in fields.now) }
    requires room { array_vec_len line.old ≤ 11 }
    ensures items { line.new.items
        ≡ line.old.items ++ flat_map (λ f. 32 ∷ field_text f) (fields_in fields.now) }
    ensures len { array_vec_len line.new ≤ 3086 }
{
    match fields {
        Fields::None => {}
        Fields::One(first) => put_field(line, first),
        Fields::Two(first, second) => {
            put_field(line, first);
            put_field(line, second);
        }
        Fields::Three(first, second, third) => {
            put_field(line, first);
            put_field(line, second);
            put_field(line, third);
        }
    }
}

/// The line of a row.
pub(crate) fn line_of_row(row: &Row<'_>) -> Line
    requires { IsShortRow row.now }
    ensures { result ≡ coded_line (coded_in row.now) }
{
    let mut text = Text::new();
    put(&mut text, b"refused ");
    put(&mut text, row.name);
    put_fields(&mut text, &row.fields);
    put(&mut text, b"\n");
    Line { text }
}
