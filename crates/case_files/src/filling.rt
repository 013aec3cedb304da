//! Words of a file of cases, and rows of a case, in place of their names: README.md, "The format".

use crate::paragraphs::{Kind, Paragraph};
use std::alloc::{AllocError, Global};

/// A name in braces, and the text that it stands for.
#[derive(Clone, Copy)]
pub(crate) struct Word<'a> {
    /// The name, without its braces.
    pub name: &'a str,
    /// The text.
    pub text: &'a str,
}

/// The words of a file.
pub(crate) fn words_of<'a>(
    alloc: Global,
    paragraphs: &[Paragraph<'a>],
) -> Result<Vec<Word<'a>>, AllocError> {
    let mut words = Vec::new(alloc);
    for paragraph in paragraphs {
        if let Kind::Words = paragraph.kind() {
            add_words(&mut words, paragraph.text)?;
        }
    }
    Ok(words)
}

/// Adds the words of a paragraph: a line has a name, a blank and the text.
fn add_words<'a>(words: &mut Vec<Word<'a>>, paragraph: &'a str) -> Result<(), AllocError> {
    for line in paragraph.lines() {
        if let Some((name, text)) = line.split_once(' ') {
            if name != "#" {
                words.push(Word { name, text })?;
            }
        }
    }
    Ok(())
}

/// Adds the cells of a row by the names of their columns.
pub(crate) fn add_row<'a>(
    words: &mut Vec<Word<'a>>,
    columns: &'a str,
    row: &'a str,
) -> Result<(), AllocError> {
    for (name, text) in columns.split(" | ").zip(row.split(" | ")) {
        words.push(Word {
            name: name.trim(),
            text: text.trim(),
        })?;
    }
    Ok(())
}

/// The text of a name: that of the first word that has it.
fn text_of<'a>(words: &[Word<'a>], name: &str) -> Option<&'a str> {
    for word in words {
        if word.name == name {
            return Some(word.text);
        }
    }
    None
}

/// Adds a text, in which each name in braces has given way to its text. Braces around anything else stay.
pub(crate) fn fill(to: &mut String, text: &str, words: &[Word<'_>]) -> Result<(), AllocError> {
    for (index, part) in text.split('{').enumerate() {
        if index == 0 {
            to.push_str(part)?;
        } else {
            fill_part(to, part, words)?;
        }
    }
    Ok(())
}

/// Adds what comes after an opening brace, up to the next one.
fn fill_part(to: &mut String, part: &str, words: &[Word<'_>]) -> Result<(), AllocError> {
    if let Some((name, rest)) = part.split_once('}') {
        if let Some(text) = text_of(words, name) {
            to.push_str(text)?;
            return to.push_str(rest);
        }
    }
    to.push('{')?;
    to.push_str(part)
}
