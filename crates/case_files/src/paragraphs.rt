//! The paragraphs of a file of cases: README.md, "The format".

use std::alloc::{AllocError, Global};

/// A paragraph.
#[derive(Clone, Copy)]
pub(crate) struct Paragraph<'a> {
    /// The number of its first line in the file, from 1 on.
    pub number: usize,
    /// Its lines.
    pub text: &'a str,
}

/// What a paragraph is.
#[derive(Clone, Copy)]
pub(crate) enum Kind<'a> {
    /// Nothing but comments.
    Comment,
    /// Words, by which texts stand in cases.
    Words,
    /// Steps of this name, which cases take by it.
    Text(&'a str),
    /// The case of this name.
    Case(&'a str),
    /// None of these.
    Unknown,
}

impl<'a> Paragraph<'a> {
    /// What the paragraph is, by its first line that is no comment.
    pub fn kind(&self) -> Kind<'a> {
        for line in self.text.lines() {
            if !line.is_empty() && !line.starts_with('#') {
                return kind_of(line);
            }
        }
        Kind::Comment
    }

    /// What follows a word in the first line that begins with it.
    pub fn after(&self, word: &str) -> Option<&'a str> {
        for line in self.text.lines() {
            if let Some(rest) = line.strip_prefix(word) {
                return Some(rest);
            }
        }
        None
    }
}

/// What a paragraph is that begins with a line.
fn kind_of(line: &str) -> Kind<'_> {
    if line == "let" {
        return Kind::Words;
    }
    match line.split_once(' ') {
        Some(("text", name)) => Kind::Text(name),
        Some(("case", name)) => Kind::Case(name),
        _ => Kind::Unknown,
    }
}

/// The paragraphs of a file, in order. Blank lines part them.
pub(crate) fn paragraphs_of<'a>(
    alloc: Global,
    text: &'a str,
) -> Result<Vec<Paragraph<'a>>, AllocError> {
    let mut found = Vec::new(alloc);
    let mut number = 1usize;
    for text in text.split("\n\n") {
        found.push(Paragraph { number, text })?;
        // A paragraph of n line feeds has n + 1 lines, and a blank one comes after it.
        number = number
            .wrapping_add(text.split('\n').count())
            .wrapping_add(1);
    }
    Ok(found)
}

/// The paragraph of steps that has a name, if there is one.
pub(crate) fn text_of<'a>(paragraphs: &[Paragraph<'a>], name: &str) -> Option<Paragraph<'a>> {
    for paragraph in paragraphs {
        if let Kind::Text(known) = paragraph.kind() {
            if known == name {
                return Some(*paragraph);
            }
        }
    }
    None
}
