// Where the instance begins, and which piece a token is.
ghost use Rattle.sgml_content_steps.specs.Laws.{InstanceBegins, InstanceGoesOn, InstanceStays, CharactersArePieces, RecordEndsArePieces, RecordStartsArePieces, NumbersArePieces, FunctionsArePieces, InstructionsArePieces, CommentsArePieces, StartTagsArePieces, EmptyStartsArePieces, EndTagsArePieces, EmptyEndsArePieces, NetsArePieces, StringsArePieces, SectionEndsArePieces, DeclarationsArePieces, ReferencesArePieces, SectionStartsArePieces, EndsArePieces, OthersAreRefused};

/// The instance begins where the prolog has been read; it goes on further in the text at the top, and after each
/// piece of it.
pub fn instance_begins()
    ensures begins { InstanceBegins }
    ensures goes_on { InstanceGoesOn }
    ensures stays { InstanceStays }
{}

/// Characters that stand there are pieces one by one, and so are record ends and starts and references.
pub fn characters_are_pieces()
    ensures characters { CharactersArePieces }
    ensures record_ends { RecordEndsArePieces }
    ensures record_starts { RecordStartsArePieces }
    ensures numbers { NumbersArePieces }
    ensures functions { FunctionsArePieces }
    ensures references { ReferencesArePieces }
    ensures strings { StringsArePieces }
{}

/// A tag that stands there is a start or an end.
pub fn tags_are_pieces()
    ensures start { StartTagsArePieces }
    ensures empty_start { EmptyStartsArePieces }
    ensures end { EndTagsArePieces }
    ensures empty_end { EmptyEndsArePieces }
    ensures net { NetsArePieces }
{}

/// The end of a text is a piece: that of the document or of an entity, where no marked section is open in it.
pub fn ends_are_pieces()
    ensures { EndsArePieces }
{}

/// Other markup that stands there, with the piece that it is or why it has no place.
pub fn markup_is_pieces()
    ensures instruction { InstructionsArePieces }
    ensures comment { CommentsArePieces }
    ensures section_start { SectionStartsArePieces }
    ensures section_end { SectionEndsArePieces }
    ensures declaration { DeclarationsArePieces }
    ensures others { OthersAreRefused }
{}
