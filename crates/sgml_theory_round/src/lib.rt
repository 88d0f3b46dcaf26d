//! That a full document is read again to the same events and lines.
//!
//! Definitions and laws, without code: a law that stands on those of another library names them.
#![tactic(auto)]

ghost use Rattle.sgml_theory_round.specs.Again.{FullDocumentsAreReadAgain};
ghost use Rattle.sgml_theory_round.specs.Parted.{DocumentsHavePrologs};
ghost use Rattle.sgml_theory_round.specs.Plain.{DocumentsAreReadAgain};
ghost use Rattle.sgml_theory_round.specs.Stored.{FilesHaveFullDocuments, FilesAreReadAgain};

use sgml_storage::fronts_are_stored;
use sgml_theory_prologs::{nothing_is_open, prologs_are_there, same_prologs_are_read};
use sgml_theory_writable::read_is_written;
use sgml_theory_writable::theory_again::{read_holds, read_is_raw};
use sgml_theory_writable::theory_full::{
    full_document_is_spellings, instances_are_read_again, read_may_be_written,
};

/// A document that is read to its end has a prolog, which ends where the document alone is open for the first time
/// after its document type, and an instance.
pub fn documents_have_prologs()
    ensures { DocumentsHavePrologs }
{}

/// The full document of a document that is read to its end, whose pieces satisfy what is asked of them, is read again
/// to its end: the prolog is the same, the same events are told in the same lines, and no tag is left out in its
/// instance.
pub fn full_documents_are_read_again()
    ensures { FullDocumentsAreReadAgain }
{
    same_prologs_are_read();
    nothing_is_open();
    read_may_be_written();
    instances_are_read_again();
}

/// So is the full document of a document that is read to its end, where in its instance each record end that is live where
/// it comes is live, too, in the element in which it then stands, also one at the head of a short reference string that
/// stands for itself, no included start follows a record end that waits, no internal CDATA entity with an empty text is
/// referred to, in no element with CDATA content an entity ends or a record start stands but directly after a record end,
/// and its instructions can be spelled.
pub fn documents_are_read_again()
    ensures { DocumentsAreReadAgain }
{
    nothing_is_open();
    read_holds();
    read_is_raw();
    read_is_written();
    full_documents_are_read_again();
}

/// The file that a run writes of a full document, where it is short enough to be read whole, is a full document of what
/// was read, in the place of the document's own file.
pub fn files_have_full_documents()
    ensures { FilesHaveFullDocuments }
{
    fronts_are_stored();
    prologs_are_there();
    full_document_is_spellings();
}

/// So it is read to the same events and the same lines, with no tag left out in its instance.
pub fn files_are_read_again()
    ensures { FilesAreReadAgain }
{
    nothing_is_open();
    prologs_are_there();
    read_is_written();
    files_have_full_documents();
    documents_are_read_again();
}
