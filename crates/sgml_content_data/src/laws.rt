// Why a stretch of data is one turn.
ghost use Rattle.sgml_content_data.specs.Laws.{CharactersGoOn};

/// A law: behind a data character before which no tag is left out, each next one is read with no tag left out
/// before it, and leaves the state as it is. So a stretch is judged once.
pub fn characters_go_on()
    ensures { CharactersGoOn }
{}
