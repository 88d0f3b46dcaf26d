// The generated book.
ghost use Rattle.std.specs.Prelude.{◌≡◌, ◌≤◌, ◌<◌, ◌+◌, ◌++◌, IfOk, OnOk, string_bytes};
ghost use Rattle.sgml_gen.specs.Book.{head, title_text, chapter_text, document_of, Sizes};

use sgml_text::Memory;
use std::alloc::{AllocError, Global};

const HEAD: &[u8] =
    b"<!DOCTYPE book [\n<!ELEMENT book O O (title, chapter+)>\n<!ELEMENT title O O (#PCDATA)>\n<!ELEMENT chapter - O (title, p+)>\n<!ELEMENT p O O (#PCDATA | em)*>\n<!ELEMENT em - - (#PCDATA)>\n<!ATTLIST chapter n NUMBER #REQUIRED>\n]>\n";

/// The book of so many chapters.
pub fn document(alloc: Global, number: u32) -> Result<Vec<u8>, Memory>
    requires some { 1 ≤ number }
    requires few { number ≤ 100_000 }
    ensures { IfOk result (λ text. text.items ≡ document_of number) }
{
    let mut text = beginning(alloc, number)?;
    for i in 0..number {
        add_chapter(alloc, &mut text, number, i)?;
    }
    Ok(text)
}

/// A law: the book has four elements a chapter and two more, and is shown by thirteen lines a
/// chapter and six more.
pub fn sizes_of_documents()
    ensures { Sizes }
{}

// The document type and the title.
fn beginning(alloc: Global, number: u32) -> Result<Vec<u8>, Memory>
    ensures { IfOk result (λ text. text.items ≡ head ++ title_text number) }
{
    let mut text = HEAD.to_vec(alloc)?;
    text.extend_from_slice(title(alloc, number)?.as_bytes())?;
    Ok(text)
}

// The chapter after the first `i`.
fn add_chapter(alloc: Global, text: &mut Vec<u8>, number: u32, i: u32) -> Result<(), Memory>
    requires { i < 100_000 }
    ensures { OnOk result (text.new.items ≡ text.old.items ++ chapter_text number (i + 1)) }
{
    text.extend_from_slice(chapter(alloc, number, i + 1)?.as_bytes())?;
    Ok(())
}

fn title(alloc: Global, number: u32) -> Result<String, AllocError>
    ensures { IfOk result (λ text. string_bytes text ≡ title_text number) }
{
    format!(in alloc; "Book of {number}\n")
}

fn chapter(alloc: Global, number: u32, i: u32) -> Result<String, AllocError>
    ensures { IfOk result (λ text. string_bytes text ≡ chapter_text number i) }
{
    format!(in alloc; "<chapter n={i}>Part {i}\n<p>Line {i} of <em>{number}</em>.\n")
}
