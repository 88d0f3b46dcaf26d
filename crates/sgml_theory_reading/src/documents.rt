// What it is to read a document.
ghost use Rattle.std.specs.Prelude.{◌≡◌, ℕ, ◌⊎◌, ◌↔◌, Option, Some, None, Ok, List, [], ◌∷◌, reverse, length, ◌++◌, ◌&&◌, IsTrue, IsFalse, Bool, false};
ghost use Rattle.sgml_dtd.specs.text.declared.reason.Reason.{Reason};
ghost use Rattle.sgml_dtd.specs.text.declared.reason.Reason.TheVariants.{EntityTooLarge};
ghost use Rattle.sgml_records.specs.Items.{Item, Data};
ghost use Rattle.sgml_records.specs.Facts.{Facts, facts, noted, releases, one_waits, OneWaits};
ghost use Rattle.sgml_dtd.specs.entity.declared.kinds.Entity.{Entity};
ghost use Rattle.sgml_dtd.specs.attr.declared.value.AttrValue.{AttrValue};
ghost use Rattle.sgml_dtd.specs.Doctypes.{Doctype};
ghost use Rattle.sgml_theory_reading.specs.Names.{Name};
ghost use Rattle.sgml_theory_reading.specs.Types.{entity};
ghost use Rattle.sgml_dtd.specs.marked.declared.status.Status.{Status};
ghost use Rattle.sgml_dtd.specs.marked.declared.sections.Section.{Section};
ghost use Rattle.sgml_dtd.specs.marked.Opened.{without_last};
ghost use Rattle.sgml_theory_reading.specs.Facets.{Pcdata, Begins, Ends};
ghost use Rattle.sgml_theory_reading.specs.Nest.{types};
ghost use Rattle.sgml_theory_reading.specs.Pieces.{Piece, History, Char, Start, How, Specification};
ghost use Rattle.sgml_theory_reading.specs.Context.{context};
ghost use Rattle.sgml_theory_reading.specs.Omission.{allowed};
ghost use Rattle.sgml_theory_reading.specs.Reasons.{is_inside};
ghost use Rattle.sgml_theory_reading.specs.Unread.{Input};
ghost use Rattle.sgml_theory_reading.specs.State.{State, state, after_piece};
ghost use Rattle.sgml_theory_reading.specs.Reads.{Forms, spelled_next, Move, Reads, ReadOn, ReadsFromStart, read_by, after_moves, pieces, IsFront, IsFullDocument, Stops, IsOver, IsPrefix, Agree, ends_in_finish, Decides, IsDecided, ReadDecided, with_more};
ghost use Rattle.sgml_theory_reading.specs.Unread.{Outside, sources, text_of, opening, standing, unread, rests, texts, opened, AreAlong, AreInTexts};
ghost use Rattle.sgml_theory_reading.specs.Outcome.{outcome, is_ended, outcome_lines, EndsSo, Gives, Outcome};
ghost use Rattle.sgml_theory_reading.specs.Lines.{lines};
ghost use Rattle.sgml_theory_reading.specs.Currents.{Currents, currents, currents_after, AreCurrents, IsGiven};
ghost use Rattle.sgml_theory_reading.specs.Sections.{sections_after};
ghost use Rattle.sgml_theory_reading.specs.Identifiers.{id_fault, starts, Repeats, Dangles, IsFirstFault};
ghost use Rattle.sgml_theory_reading.specs.Events.{Event, releases_by, events, events_at, events_of_run};

/// The state after a piece is a function of the state before it and of the piece.
pub fn states_step()
    ensures { (p : Piece) (h : History) → state (p ∷ h) ≡ after_piece p (state h) }
{}

/// The search for the record end that waits, and for the one that an item puts out, is what the
/// four facts of the items say, and the facts after an item are those before it and the item.
pub fn four_facts_are_enough()
    ensures step { (earlier : List Item) (item : Item) → facts (item ∷ earlier) ≡ noted (facts earlier) item }
    ensures waits { (earlier : List Item) → IsTrue (facts earlier).waiting ↔ OneWaits earlier }
    ensures puts_out { (earlier : List Item) (item : Item) →
        (releases item earlier && one_waits earlier) ≡ releases_by (facts earlier) item }
{}

/// Of two lists that read for one input, one is a prefix of the other, and there is one full
/// document at most.
pub fn one_reading()
    ensures fronts { (forms : Forms) (input : Input) (ps qs : List Piece) →
        IsFront forms input ps → IsFront forms input qs → IsPrefix ps qs ⊎ IsPrefix qs ps }
    ensures document { (forms : Forms) (input : Input) (ps qs : List Piece) →
        IsFullDocument forms input ps → IsFullDocument forms input qs → ps ≡ qs }
{}

/// What was read goes on in one way, or stops for one reason, and never both.
pub fn one_stop()
    ensures either { (forms : Forms) (input : Input) (h : History) → IsFalse (ends_in_finish h) →
        ((m : Move) × Reads forms input h m) ⊎ ((r : Reason) × Stops forms input h r) }
    ensures never_both { (forms : Forms) (input : Input) (h : History) (m : Move) (r : Reason) →
        Reads forms input h m → Stops forms input h r → ⊥ }
    ensures one_move { (forms : Forms) (input : Input) (h : History) (m n : Move) →
        Reads forms input h m → Reads forms input h n → m ≡ n }
    ensures one_reason { (forms : Forms) (input : Input) (h : History) (q r : Reason) →
        Stops forms input h q → Stops forms input h r → q ≡ r }
{}

/// Of what reads, the longest is what reads and is over: it ends the document, or reading stops
/// there.
pub fn over_is_longest()
    ensures { (forms : Forms) (input : Input) (ms ns : List Move) →
        ReadsFromStart forms input ms → IsOver forms input (read_by input ms) → ReadsFromStart forms input ns → IsPrefix ns ms }
{}

/// How reading goes on, what it tells and where it stops depends on the state and on what is unread
/// alone.
pub fn state_is_enough()
    ensures reads { (forms : Forms) (a b : Input) (h k : History) (ms : List Move) →
        Agree a b h k → ReadOn forms a h ms → ReadOn forms b k ms }
    ensures stops { (forms : Forms) (a b : Input) (h k : History) (r : Reason) →
        Agree a b h k → Stops forms a h r → Stops forms b k r }
    ensures tells { (forms : Forms) (h k : History) (ps : List Piece) →
        state h ≡ state k → events_of_run forms (state h) ps ≡ events_of_run forms (state k) ps }
{}

/// What is unread of each text on the stack is what stands from its place on in the text that its
/// entity had when it was opened, of the document in the document's text. Of a declared entity it is the
/// text that it has now.
pub fn unread_has_its_places()
    ensures places { (input : Input) (h : History) → AreAlong input (opened h) (unread h) (rests input h) }
    ensures now { (input : Input) (h : History) → AreInTexts input h (opened h) (unread h) (rests input h) }
    ensures count { (h : History) → length (unread h) ≡ texts h }
{}

/// Behind a data character that is allowed in an element, the next one that is spelled reads, with no
/// tag left out before it.
pub fn data_reads_on()
    ensures { (forms : Forms) (input : Input) (h : History) (x p : Piece) (a b : ℕ) →
        x.kind ≡ Char a → IsTrue (allowed (context h) Pcdata) → IsTrue (is_inside (context h)) →
        spelled_next forms input (x ∷ h) ≡ Ok p → p.kind ≡ Char b → forms.unvalued (state (x ∷ h)) p.kind ≡ None →
        Reads forms input (x ∷ h) (record { omitted = []; visible = p }) }
{}

/// A declared entity keeps its text, whatever is read after its declaration.
pub fn texts_stay()
    ensures { (outside : Outside) (p : Piece) (h : History) (number : ℕ) (e : Entity) → entity (types h) number ≡ Some e →
        text_of outside (sources (p ∷ h)) number ≡ text_of outside (sources h) number }
{}

/// Reading goes on where it was left.
pub fn reading_goes_on()
    ensures { (forms : Forms) (input : Input) (h : History) (ms ns : List Move) →
        ReadOn forms input h (ms ++ ns) ↔ (ReadOn forms input h ms × ReadOn forms input (after_moves h ms) ns) }
{}

/// What was read of decided bytes is read in every continuation of the document.
pub fn decided_stays()
    ensures { (forms : Forms) (input : Input) (bytes : List ℕ) (cut : Bool) (ms : List Move) →
        Decides forms → ReadDecided forms input (opening input.outside) ms →
        ReadsFromStart forms (with_more input bytes cut) ms }
{}

/// Where reading stops after decided bytes, by what is decided there, it stops for the same reason in
/// every continuation of the document.
pub fn decided_refusal_stays()
    ensures { (forms : Forms) (input : Input) (bytes : List ℕ) (cut : Bool) (ms : List Move) (r : Reason) →
        Decides forms → ReadDecided forms input (opening input.outside) ms →
        IsDecided forms input (read_by input ms) → Stops forms input (read_by input ms) r →
        Stops forms (with_more input bytes cut) (read_by (with_more input bytes cut) ms) r }
{}

/// A document that was cut stops as too large where the next piece isn't decided, and what reads of it
/// is decided.
pub fn a_cut_document_stops()
    ensures stops { (forms : Forms) (input : Input) (h : History) → IsTrue input.was_cut → IsFalse (ends_in_finish h) →
        IsFalse (forms.decided input.outside (state h) (standing input h)) → Stops forms input h EntityTooLarge }
    ensures reads { (forms : Forms) (input : Input) (h : History) (ms : List Move) → IsTrue input.was_cut →
        ReadOn forms input h ms → ReadDecided forms input h ms }
{}

/// After a data character the next one leaves all that a reader has to know as it is.
pub fn data_leaves_the_state()
    ensures facts { (f : Facts) → noted (noted f Data) Data ≡ noted f Data }
    ensures none_waits { (f : Facts) → (noted f Data).waiting ≡ false }
    ensures state { (s : State) (x y : Piece) (a b : ℕ) → x.kind ≡ Char a → y.kind ≡ Char b →
        after_piece y (after_piece x s) ≡ after_piece x s }
{}

/// After an edit, the old rest is what reads from a place where the states and what is unread
/// agree.
pub fn rest_is_adopted()
    ensures { (forms : Forms) (a b : Input) (ms ns rest : List Move) →
        ReadsFromStart forms a (ms ++ rest) → ReadsFromStart forms b ns →
        Agree a b (read_by a ms) (read_by b ns) → ReadsFromStart forms b (ns ++ rest) }
{}

/// What a piece tells depends on the state before it alone, what was told stays, and so the
/// events of a front begin those of every longer one.
pub fn events_step()
    ensures piece { (forms : Forms) (p : Piece) (h : History) →
        events forms (p ∷ h) ≡ events forms h ++ events_at forms (state h) p }
    ensures moves { (forms : Forms) (h : History) (ms : List Move) →
        events forms (after_moves h ms) ≡ events forms h ++ events_of_run forms (state h) (pieces ms) }
{}

/// What is computed piece by piece from the state and from what is unread reads, ends as it says,
/// and has the lines that are computed: where it ends, the input gives those lines.
pub fn outcome_is_reading()
    ensures reads { (forms : Forms) (input : Input) (h : History) (n : ℕ) → IsFalse (ends_in_finish h) →
        let o = outcome n forms input.was_cut input.outside (state h) (standing input h) in
        ReadOn forms input h o.moves × EndsSo forms input (after_moves h o.moves) o.ending }
    ensures tells { (forms : Forms) (input : Input) (h : History) (o : Outcome) → events forms h ≡ [] →
        IsTrue (is_ended o.ending) → EndsSo forms input (after_moves h o.moves) o.ending →
        lines forms (after_moves h o.moves) ≡ outcome_lines forms (state h) o }
    ensures gives { (forms : Forms) (input : Input) (h : History) (n : ℕ) → IsFalse (ends_in_finish h) → events forms h ≡ [] →
        let o = outcome n forms input.was_cut input.outside (state h) (standing input h) in
        IsTrue (is_ended o.ending) → Gives forms input h (outcome_lines forms (state h) o) o.ending }
{}

/// The open sections, the oldest first, are those that a list in the order of their starts has: a section
/// that starts is behind all others, and that which ends is the last one of its level.
pub fn sections_in_order()
    ensures starts { (status : Status) (n : ℕ) (ss : List Section) →
        reverse (sections_after (Begins status) n ss) ≡ reverse ss ++ (record { status = status; level = n }) ∷ [] }
    ensures ends { (n : ℕ) (s : Section) (ss : List Section) →
        reverse (sections_after Ends n (s ∷ ss)) ≡ without_last s.level (reverse (s ∷ ss)) }
{}

/// A table of current values by the numbers of lists and definitions has those of the names, before the
/// first start and after each that it follows.
pub fn currents_by_number()
    ensures none { (d : Doctype) → AreCurrents d [] (currents []) }
    ensures start { (d : Doctype) (n : Name) (ss : List Specification) (how : How) (proper at_once : Bool) (old new : List (List (Option AttrValue))) (c : Currents) →
        AreCurrents d old c → IsGiven d n ss old new → AreCurrents d new (currents_after d (Start n ss how proper at_once) c) }
{}

/// The fault of identifiers that is found is that of the first start with one, and where none is
/// found no start repeats an earlier ID and each IDREF is the ID of a start.
pub fn identifiers_are_judged()
    ensures first { (es : List Event) (k : ℕ) (r : Reason) → id_fault es ≡ Some (k, r) → IsFirstFault (starts es) k r }
    ensures agree { (es : List Event) → id_fault es ≡ None →
        ((k : ℕ) → ¬ Repeats (starts es) k) × ((k : ℕ) → ¬ Dangles (starts es) k) }
{}
