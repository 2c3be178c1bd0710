//! The frame of a refusal, in place.

ghost use Rattle.std.specs.Prelude.{◌≡◌, ◌+◌, ◌≤◌, ◌++◌, length};
ghost use Rattle.std.specs.List.{AllByRecursion, flat_map};
ghost use Rattle.arrayvec.specs.ArrayVec.{array_vec_len};
ghost use Rattle.omos_wire.specs.Answer.{reply_frame};
ghost use Rattle.omos_wire.specs.Answer as answer;
ghost use Rattle.omos_wire.specs.Fielded.{field, field_bytes};
ghost use Rattle.refusal_lines.specs.Codes.{IsField};
ghost use Rattle.refusal_lines.specs.Rows.{field_in, fields_in};

use crate::heads::put;
use arrayvec::ArrayVec;
use refusal_lines::{Field, Fields, Refused, row_of};

/// At most three fields of 1,026 bytes, and six bytes before them.
type Long = ArrayVec<u8, 3088>;

/// A path or a name, after its length.
fn put_text(bytes: &mut Long, text: &[u8])
    requires short { length text.now ≤ 1024 }
    requires room { array_vec_len bytes.old + 1026 ≤ 3088 }
    ensures items { bytes.new.items ≡ bytes.old.items ++ field text.now }
    ensures len { array_vec_len bytes.new ≤ array_vec_len bytes.old + 1026 }
{
    let count = text.len() as u16;
    put(bytes, &count.to_le_bytes());
    put(bytes, text);
}

fn put_field(bytes: &mut Long, field: &Field<'_>)
    requires value { IsField (field_in field.now) }
    requires room { array_vec_len bytes.old + 1026 ≤ 3088 }
    ensures items { bytes.new.items ≡ bytes.old.items ++ field_bytes (field_in field.now) }
    ensures len { array_vec_len bytes.new ≤ array_vec_len bytes.old + 1026 }
{
    match field {
        Field::Number(number) => put(bytes, &number.to_le_bytes()),
        Field::Wide(number) => put(bytes, &number.to_le_bytes()),
        Field::Path(path) => put_text(bytes, path),
        Field::Symbol(name) => put_text(bytes, name),
    }
}

fn put_fields(bytes: &mut Long, fields: &Fields<'_>)
    requires values { AllByRecursion IsField (fields_in fields.now) }
    requires room { array_vec_len bytes.old ≤ 6 }
    ensures { bytes.new.items
        ≡ bytes.old.items ++ flat_map field_bytes (fields_in fields.now) }
{
    match fields {
        Fields::None => {}
        Fields::One(first) => put_field(bytes, first),
        Fields::Two(first, second) => {
            put_field(bytes, first);
            put_field(bytes, second);
        }
        Fields::Three(first, second, third) => {
            put_field(bytes, first);
            put_field(bytes, second);
            put_field(bytes, third);
        }
    }
}

/// How many bytes a field takes.
fn size_of(field: &Field<'_>) -> u32
    requires { IsField (field_in field.now) }
    ensures size { result ≡ length (field_bytes (field_in field.now)) }
    ensures few { result ≤ 1026 }
{
    match field {
        Field::Number(_) => 4,
        Field::Wide(_) => 8,
        Field::Path(path) => 2 + path.len() as u32,
        Field::Symbol(name) => 2 + name.len() as u32,
    }
}

/// How many bytes the fields take.
pub(crate) fn size_of_all(fields: &Fields<'_>) -> u32
    requires { AllByRecursion IsField (fields_in fields.now) }
    ensures size { result ≡ length (flat_map field_bytes (fields_in fields.now)) }
    ensures few { result ≤ 3078 }
{
    match fields {
        Fields::None => 0,
        Fields::One(first) => size_of(first),
        Fields::Two(first, second) => size_of(first) + size_of(second),
        Fields::Three(first, second, third) => size_of(first) + size_of(second) + size_of(third),
    }
}

/// The whole frame of a refusal.
#[tactic(auto, unfolding(crate::specs::Answer::reply_frame))]
pub(crate) fn refused_head(refused: &Refused) -> Long
    ensures { result.items ≡ reply_frame (answer.Refused refused.now) }
{
    let row = row_of(refused);
    let size = 2 + size_of_all(&row.fields);
    let mut bytes = Long::new();
    put(&mut bytes, &size.to_le_bytes());
    put(&mut bytes, &[131, row.code]);
    put_fields(&mut bytes, &row.fields);
    bytes
}
