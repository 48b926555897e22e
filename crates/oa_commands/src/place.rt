//! The place of a fault in a text, for a person to read.
ghost use Rattle.std.specs.Prelude.{◌≡◌, [], string_bytes, IfOk, OnOk};
ghost use Rattle.oa_commands.specs.Places.{BeginsLine, ReadsCharacter, place_head, shown_in_line};
ghost use Rattle.oa_commands.specs.Places as places;

use crate::hint::word_left_out;
use crate::shown::shown_name;
use std::alloc::{AllocError, Global};
use std::fmt;

/// A place in a text, with its line. A line ends at CR, LF or both.
#[derive(Debug, Drop)]
pub struct TextPlace {
    /// The file, the line and the column, counted from 1, in characters.
    head: String,
    /// The text of the line, with `?` for characters that cannot be shown.
    line: String,
    /// Blanks as wide as the part of both before the place.
    blank: String,
    /// The word at the place, if it is one of automation IDL that the grammar does not have.
    left_out: Option<&'static str>,
}

impl TextPlace {
    /// Returns the place of the byte `at` in a text, counted from 0. The end of the text is a
    /// place, too. Err: an allocation failed.
    pub(crate) fn of(
        alloc: Global,
        file: &str,
        text: &str,
        at: usize,
    ) -> Result<TextPlace, AllocError> {
        let mut line = Line::new(alloc);
        for (index, c) in text.char_indices() {
            if is_end(c) && at <= index {
                break;
            }
            line.take(c, index < at)?;
        }
        line.placed(alloc, file, word_left_out(text, at))
    }
}

/// The line of a text that is being read, up to the last character read.
#[derive(Drop)]
struct Line {
    /// Its characters, as they are shown.
    shown: String,
    /// Blanks as wide as its part before the place.
    blank: String,
    /// The line and the column, counted from 1.
    number: u64,
    column: u64,
    /// The character that was read last.
    last: char,
}

impl Line {
    /// Returns the first line of a text.
    fn new(alloc: Global) -> Line
        ensures number { result.number ≡ 1 }
        ensures column { result.column ≡ 1 }
        ensures shown { string_bytes result.shown ≡ [] }
        ensures blank { string_bytes result.blank ≡ [] }
        ensures last { result.last ≡ 32 }
    {
        Line {
            shown: String::new(alloc),
            blank: String::new(alloc),
            number: 1,
            column: 1,
            last: ' ',
        }
    }

    /// Reads a character; `is_before` is whether it is before the place. Err: an allocation failed.
    fn take(&mut self, c: char, is_before: bool) -> Result<(), AllocError>
        ensures { OnOk result (ReadsCharacter c is_before self.old self.new) }
    {
        if is_end(c) {
            self.end(c);
        } else {
            self.shown.push(shown(c))?;
            if is_before {
                self.column = self.column.saturating_add(1);
                self.blank.push(if c == '\t' { '\t' } else { ' ' })?;
            }
        }
        self.last = c;
        Ok(())
    }

    /// Begins the next line, except between a CR and its LF. `c` is the character that ends this
    /// one.
    fn end(&mut self, c: char)
        ensures { BeginsLine c self.old self.new }
    {
        if c == '\r' || self.last != '\r' {
            self.number = self.number.saturating_add(1);
        }
        self.column = 1;
        self.shown.clear();
        self.blank.clear();
    }

    /// Returns the place that was reached, in the file with this name. Err: an allocation failed.
    fn placed(
        self,
        alloc: Global,
        file: &str,
        left_out: Option<&'static str>,
    ) -> Result<TextPlace, AllocError>
        ensures head { IfOk result (λ place. string_bytes place.head ≡ place_head file.now self.number self.column) }
        ensures line { IfOk result (λ place. place.line ≡ self.shown) }
    {
        let file = shown_name(alloc, file)?;
        let head = format!(in alloc; "{file}:{}:{}: ", self.number, self.column)?;
        let blank = blanks(alloc, &head, &self.blank)?;
        Ok(TextPlace {
            head,
            line: self.shown,
            blank,
            left_out,
        })
    }
}

/// Returns whether a character ends a line.
fn is_end(c: char) -> bool
    ensures { result ≡ places.is_end c }
{
    c == '\n' || c == '\r'
}

/// Returns blanks as wide as the text before a line, and those of the line. Err: an allocation
/// failed.
fn blanks(alloc: Global, head: &str, of_line: &str) -> Result<String, AllocError> {
    let mut blanks = String::new(alloc);
    for _ in head.chars() {
        blanks.push(' ')?;
    }
    blanks.push_str(of_line)?;
    Ok(blanks)
}

/// Returns a character as a line shows it: a control character would move the caret.
fn shown(c: char) -> char
    ensures { result ≡ shown_in_line c }
{
    if c != '\t' && c.is_control() { '?' } else { c }
}

impl fmt::Display for TextPlace {
    fn fmt<W: fmt::Write>(&self, f: &mut fmt::Formatter<W>) -> fmt::Result {
        write!(f, "{}{}\n{}^", self.head, self.line, self.blank)?;
        match self.left_out {
            Some(word) => write!(
                f,
                "\nnote: {word} is not supported: see docs/reference/idl.md, \"Words that are left out\""
            ),
            None => Ok(()),
        }
    }
}
