// Which tags may be left out, and why a piece can't stand where it comes.
ghost use Rattle.std.specs.Prelude.{◌≡◌, ◌+◌, ◌≤◌, ◌↔◌, Some, None, List, ◌∷◌, length, IsTrue};
ghost use Rattle.sgml_dtd.specs.syntax.declared.syntax.Syntax.{Syntax};
ghost use Rattle.sgml_dtd.specs.Laws.{Placed, doctype_of};
ghost use Rattle.sgml_theory_reading.specs.Pieces.{Piece, Kind, History};
ghost use Rattle.sgml_theory_reading.specs.Facets.{token, Pcdata};
ghost use Rattle.sgml_theory_reading.specs.Context.{Context, context, context_after, prolog_of, at_start};
ghost use Rattle.sgml_theory_reading.specs.Omission.{MayStand, NoneMayStand, depth, allowed};
ghost use Rattle.sgml_theory_reading.specs.Runs.{LongestRun, run_bound};
ghost use Rattle.sgml_theory_reading.specs.Walk.{next_omitted, longest_run};
ghost use Rattle.sgml_theory_reading.specs.Reasons.{reason, Stands, is_inside, DataGoesOn};

/// What is known of the open elements after a piece is a function of what was known before it and
/// of the piece.
pub fn contexts_step()
    ensures { (p : Piece) (h : History) → context (p ∷ h) ≡ context_after p (context h) }
{}

/// At most one omitted piece may stand at any point.
pub fn one_omission()
    ensures { (s : Context) (x : Kind) (o q : Piece) → MayStand s o x → MayStand s q x → o ≡ q }
{}

/// There is a longest run of omitted pieces before a visible one, there is only one, and it isn't
/// longer than the open elements that can end and the TAGLVL elements that can begin.
pub fn one_longest_run()
    ensures there { (h : History) (x : Kind) →
        (os : List Piece) × LongestRun h x os × (length os ≤ run_bound (context h) x) }
    ensures bounded { (h : History) (x : Kind) (os : List Piece) → LongestRun h x os →
        length os ≤ depth (context h) + (context h).doctype.syntax.quantities.taglvl + 1 }
    ensures one { (h : History) (x : Kind) (os qs : List Piece) →
        LongestRun h x os → LongestRun h x qs → os ≡ qs }
{}

/// The omitted piece that may stand is found by its conditions, and the run of those that are
/// found one after another is the longest run.
pub fn longest_run_is_found()
    ensures piece { (s : Context) (x : Kind) (o : Piece) → (next_omitted s x ≡ Some o) ↔ MayStand s o x }
    ensures run { (h : History) (x : Kind) → LongestRun h x (longest_run (context h) x) }
{}

/// After the longest run, a row of the table of reasons holds exactly where the piece may not
/// stand.
pub fn table_is_whole()
    ensures { (s : Context) (x : Kind) → NoneMayStand s x → (reason s x ≡ None) ↔ Stands s x (token x) }
{}

/// The document type of each list of declarations is that of some pieces, with nothing begun.
pub fn each_document_type_is_read()
    ensures { (syntax : Syntax) (ps : List Placed) → context (prolog_of syntax ps) ≡ at_start (doctype_of syntax ps) }
{}

/// After data in an element the next data is allowed there, with no tag left out before it and for no
/// reason refused, and it leaves all that is known of the open elements.
pub fn data_goes_on()
    ensures allowed { (s : Context) (x y : Piece) → token x.kind ≡ Some Pcdata → token y.kind ≡ Some Pcdata →
        IsTrue (allowed s Pcdata) → IsTrue (is_inside s) → DataGoesOn (context_after x s) y.kind }
    ensures same { (s : Context) (x y : Piece) → token x.kind ≡ Some Pcdata → token y.kind ≡ Some Pcdata →
        context_after y (context_after x s) ≡ context_after x s }
{}
