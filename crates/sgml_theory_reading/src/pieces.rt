// What was read, as a list of pieces.
ghost use Rattle.std.specs.Prelude.{◌≡◌, ℕ, true, List, [], length, Some};
ghost use Rattle.std.specs.Option.{option_or};
ghost use Rattle.sgml_dtd.specs.entity.declared.kinds.Space.{Space};
ghost use Rattle.sgml_dtd.specs.entity.declared.kinds.Entity.{Entity};
ghost use Rattle.sgml_dtd.specs.decl_lexemes.declared.lexeme.Lexeme.{Lexeme};
ghost use Rattle.sgml_dtd.specs.decl_forms.declared.declaration.Declaration.{Declaration};
ghost use Rattle.sgml_dtd.specs.dtd_attlists.Tables.{definitions_in};
ghost use Rattle.sgml_dtd.specs.Doctypes.{Doctype};
ghost use Rattle.sgml_theory_reading.specs.Names.{Name, Text};
ghost use Rattle.sgml_theory_reading.specs.Types.{element_type, attribute_list, attributes, entity, entity_named, notation, map_named, use_of_type};
ghost use Rattle.sgml_theory_reading.specs.Said.{type_said, list_said, entity_said, notation_said, map_said, use_said};
ghost use Rattle.sgml_theory_reading.specs.Facets.{declares};
ghost use Rattle.sgml_theory_reading.specs.Pieces.{Kind, Declare, History};
ghost use Rattle.sgml_theory_reading.specs.Nest.{nest, nest_by_search};
ghost use Rattle.sgml_theory_reading.specs.Reads.{Forms, Move, after_moves, start_places, instruction_places, is_first_border, prolog_of};
ghost use Rattle.sgml_theory_reading.specs.Events.{events, instructions};
ghost use Rattle.sgml_theory_reading.specs.Identifiers.{starts};

/// The open elements with what stands in each, found by steps, are those that a search back from
/// the newest piece finds.
pub fn nest_is_found()
    ensures { (h : History) → nest_by_search 0 [] h ≡ nest h }
{}

/// Each start and each instruction among the events of what was read has its place: of each there
/// are as many places as events.
pub fn each_has_its_place()
    ensures starts { (forms : Forms) (h : History) → length (starts (events forms h)) ≡ length (start_places h) }
    ensures instructions { (forms : Forms) (h : History) → length (instructions (events forms h)) ≡ length (instruction_places h) }
{}

/// What was read up to the first border is the prolog, whatever is read after it.
pub fn prolog_stays()
    ensures { (h : History) (ms : List Move) → is_first_border h ≡ true → prolog_of (after_moves h ms) ≡ h }
{}

/// Of two declarations of one name the first holds: a further declaration is found only where
/// none of that name was found before it.
pub fn first_declaration_holds()
    ensures element_types { (d : Doctype) (ls : List Lexeme) (x : Declaration) (base : Text) (n : Name) →
        element_type (declares (Declare ls x base) d) n ≡ option_or (element_type d n) (type_said d.syntax n x) }
    ensures attribute_lists { (d : Doctype) (ls : List Lexeme) (x : Declaration) (base : Text) (n : Name) →
        attribute_list (declares (Declare ls x base) d) n ≡ option_or (attribute_list d n) (list_said d.syntax n x) }
    ensures definitions { (d : Doctype) (n : Name) → attributes d n ≡ definitions_in (attribute_list d n) }
    ensures entities { (d : Doctype) (ls : List Lexeme) (x : Declaration) (base : Text) (space : Space) (n : Name) →
        entity_named (declares (Declare ls x base) d) space n ≡ option_or (entity_named d space n) (entity_said d.syntax base space n x) }
    ensures notations { (d : Doctype) (ls : List Lexeme) (x : Declaration) (base : Text) (n : Name) →
        notation (declares (Declare ls x base) d) n ≡ option_or (notation d n) (notation_said d.syntax n x) }
    ensures maps { (d : Doctype) (ls : List Lexeme) (x : Declaration) (base : Text) (n : Name) →
        map_named (declares (Declare ls x base) d) n ≡ option_or (map_named d n) (map_said d.syntax n x) }
    ensures uses { (d : Doctype) (ls : List Lexeme) (x : Declaration) (base : Text) (n : Name) →
        use_of_type (declares (Declare ls x base) d) n ≡ option_or (use_of_type d n) (use_said d.syntax n x) }
{}

/// An entity keeps its number, whatever is read after it was declared.
pub fn entities_keep_their_numbers()
    ensures { (d : Doctype) (k : Kind) (number : ℕ) (e : Entity) → entity d number ≡ Some e → entity (declares k d) number ≡ Some e }
{}
