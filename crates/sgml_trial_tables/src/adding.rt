// A declaration that is added to the tables.
use sgml_decl_lexemes::{LexError, Lexemes, begins, lexemes};
use sgml_decl_parts::Construct;
use sgml_dtd::Dtd;
use sgml_entity::{InputStack, Texts};
use sgml_text::{Memory, Reason, RefusalError, Text};
use std::alloc::Global;

fn texts_of(alloc: Global, text: &[u8]) -> Result<Box<Texts>, Memory> {
    let mut texts = Box::new(alloc, Texts::new(alloc))?;
    texts.append(0, text)?;
    Ok(texts)
}

// The lexemes of a declaration, which begins with `<!`.
fn read(
    alloc: Global,
    dtd: &Dtd,
    stack: &mut InputStack,
    texts: &Texts,
) -> Result<Lexemes, LexError> {
    if !begins(dtd.entities(), stack, texts, Construct::Declaration) {
        return Err(LexError::Refused(Reason::DeclarationSyntax));
    }
    lexemes(alloc, dtd.syntax(), dtd.entities(), stack, texts, true)
}

fn lexemes_of(alloc: Global, dtd: &Dtd, text: &[u8]) -> Result<Result<Lexemes, LexError>, Memory> {
    let mut stack = InputStack::new(alloc, 16, 1_000_000)?;
    let texts = texts_of(alloc, text)?;
    Ok(read(alloc, dtd, &mut stack, &texts))
}

/// Adds a declaration.
pub fn add(alloc: Global, dtd: &mut Dtd, text: &[u8]) -> Result<(), RefusalError> {
    match lexemes_of(alloc, dtd, text)? {
        Ok(declaration) => {
            let base = Text::of(Vec::new(alloc));
            dtd.add(&declaration, &base)
        }
        Err(LexError::Refused(reason)) => Err(RefusalError::Refused(reason)),
        Err(_) => Err(RefusalError::Memory),
    }
}

/// What is answered, in a word.
pub fn told(answer: Result<(), RefusalError>) -> &'static str {
    match answer {
        Ok(()) => "taken",
        Err(RefusalError::Refused(reason)) => reason.code(),
        Err(RefusalError::Memory) => "no memory",
    }
}
