// What holds of the ends of markup.
ghost use Rattle.std.specs.Prelude.{◌≡◌, ◌≢◌, ◌≤◌, ◌++◌, ℕ, Bool, true, false, List, Some, None, Err, length, ◌↔◌};
ghost use Rattle.sgml_syntax.specs.declared.syntax.Syntax.{Syntax};
ghost use Rattle.sgml_text.specs.declared.name_set.NameSet.{NameSet};
ghost use Rattle.sgml_delim.specs.declared.ends.Ender.{Ender};
ghost use Rattle.sgml_markup.specs.declared.kinds.Form.{Form};
ghost use Rattle.sgml_markup.specs.Ends.{end_of, tag_end};
ghost use Rattle.sgml_delim.specs.Ends.{end_after};
ghost use Rattle.sgml_delim.specs.declared.ends.Inside.TheVariants.{Between};
ghost use Rattle.sgml_text.specs.declared.reason.Reason.TheVariants.{TagSyntax};
ghost use Rattle.sgml_markup.specs.declared.kinds.TokenKind.{TokenKind};
ghost use Rattle.sgml_markup.specs.Forms.{is_comments, judged_tag, parts_of};
ghost use Rattle.sgml_markup.specs.TagForm.{SpellsForm, body_places};
ghost use Rattle.sgml_markup.specs.TagGrammar.{SpellsTag};
ghost use Rattle.sgml_markup.specs.CommentGrammar.{SpellsComments};
ghost use Rattle.sgml_markup.specs.DeclarationGrammar.{SpellsDeclaration};

/// An end that is there is the same whatever follows the text.
pub fn end_stays()
    ensures { (s : Syntax) → (form : Form) → (ended : Bool) → (bytes rest : List ℕ) → (n : ℕ)
        → end_of s form false bytes ≡ Some n → end_of s form ended (bytes ++ rest) ≡ Some n }
{}

/// A tag ends where its text, by the grammar of tags, is followed by what ends it, and nowhere else.
pub fn tags_end_by_grammar()
    ensures { (shorttag : Bool) → (bytes : List ℕ) → (n : ℕ)
        → (tag_end shorttag None bytes ≡ Some n) ↔ SpellsTag shorttag bytes n }
{}

/// The text of a comment declaration, between `<!` and `>`, is comments and separators, and nothing else
/// is one.
pub fn comments_by_grammar()
    ensures { (bytes : List ℕ) → (is_comments Between bytes ≡ true) ↔ SpellsComments bytes }
{}

/// A declaration ends where its text, by the grammar of declarations, is followed by what ends it, and
/// nowhere else.
pub fn declarations_end_by_grammar()
    ensures { (names : NameSet) → (ender : Ender) → (bytes : List ℕ) → (n : ℕ)
        → (end_after names ender Between bytes ≡ Some n) ↔ SpellsDeclaration names ender bytes n }
{}

/// A tag is refused for its form exactly where it isn't spelled by the grammar of tags, and its parts
/// are those of its spelling.
pub fn tags_by_grammar()
    ensures form { (s : Syntax) → (closing : Bool) → (start : ℕ) → (kind : TokenKind) → (markup : List ℕ)
        → start ≤ length markup
        → (judged_tag s closing start kind markup ≢ Err TagSyntax) ↔ SpellsForm s closing start markup }
    ensures parts { (s : Syntax) → (closing : Bool) → (start : ℕ) → (markup : List ℕ)
        → (form : SpellsForm s closing start markup) → parts_of s closing start markup ≡ body_places form.body start }
{}
