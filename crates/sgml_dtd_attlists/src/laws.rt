// What the standard says of attribute lists, as laws of the definitions.
ghost use Rattle.std.specs.Prelude.{List};
ghost use Rattle.sgml_syntax.specs.declared.syntax.Syntax.{Syntax as AnySyntax};
ghost use Rattle.sgml_decl_forms.specs.declared.attlist.AttlistDeclaration.{AttlistDeclaration as AnyDeclaration};
ghost use Rattle.sgml_dtd_attlists.specs.InOrder.{lists_of, AreOfTheirTypes, AreFound, AreDeclared};

/// A law: whatever is declared, the list of an element type is that of the one declaration that
/// names it. The list that is found names the type, no other list does, and each list is the one
/// that a declaration declares.
pub fn each_type_has_the_list_of_one_declaration()
    ensures found { (syntax : AnySyntax) (ds : List AnyDeclaration) → AreOfTheirTypes (lists_of syntax ds) }
    ensures only { (syntax : AnySyntax) (ds : List AnyDeclaration) → AreFound (lists_of syntax ds) }
    ensures declared { (syntax : AnySyntax) (ds : List AnyDeclaration) → AreDeclared syntax ds (lists_of syntax ds) }
{}
