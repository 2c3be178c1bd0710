//! A sentence with the words of a line in it.

use std::fmt;

/// A pattern in which `{2}` stands for the line's word of that number, counted from 0.
#[derive(Drop)]
pub(crate) struct Sentence<'a> {
    pub(crate) pattern: &'static str,
    pub(crate) line: &'a str,
}

/// The line's word of this number; the empty text where it has none.
fn word_at<'a>(line: &'a str, number: &str) -> &'a str {
    match number.parse::<usize>() {
        Ok(number) => line.split(' ').nth(number).unwrap_or(""),
        Err(_) => "",
    }
}

impl fmt::Display for Sentence<'_> {
    fn fmt<W: fmt::Write>(&self, f: &mut fmt::Formatter<W>) -> fmt::Result {
        for piece in self.pattern.split('{') {
            match piece.split_once('}') {
                Some((number, rest)) => {
                    f.write_str(word_at(self.line, number))?;
                    f.write_str(rest)?;
                }
                None => f.write_str(piece)?,
            }
        }
        Ok(())
    }
}
