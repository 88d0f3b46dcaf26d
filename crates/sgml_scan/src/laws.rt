// What holds of tokens, as laws of their definition.
ghost use Rattle.std.specs.Prelude.{◌≡◌, ◌≢◌, ◌↔◌, ◌⊎◌, ◌++◌, ◌<◌, ℕ, Bool, true, false, List, drop, length, IsTrue, ◌≤◌, Some};
ghost use Rattle.sgml_syntax.specs.declared.syntax.Syntax.{Syntax};
ghost use Rattle.sgml_delim.specs.declared.delim.Delim.{Delim};
ghost use Rattle.sgml_delim.specs.declared.delim.Mode.TheVariants.{Con};
ghost use Rattle.sgml_delim.specs.Tables.{string};
ghost use Rattle.sgml_delim.specs.Answers.{answer};
ghost use Rattle.sgml_shortref.specs.Strings.{Matches};
ghost use Rattle.sgml_scan.specs.declared.classes.Run.{Run};
ghost use Rattle.sgml_scan.specs.declared.state.ScanState.{ScanState};
ghost use Rattle.sgml_scan.specs.declared.state.Scanned.{Scanned};
ghost use Rattle.sgml_scan.specs.declared.state.Scanned.TheVariants.{NeedMore};
ghost use Rattle.sgml_scan.specs.Classes.{run_kind, is_scanned};
ghost use Rattle.sgml_scan.specs.Tokens.{IsScanned, IsOne, IsStretch, IsWithin, token};
ghost use Rattle.sgml_scan.specs.Decided.{IsDecided, BeginsStretch, BeginsWhole, token_decided};

use sgml_delim::longest_is_recognised;
use sgml_shortref::longest_is_told;

/// A token that is decided, or its refusal, is the same whatever follows; a stretch may be longer.
pub fn token_stays()
    ensures { (s : Syntax) → (st : ScanState) → (ended : Bool) → (bytes rest : List ℕ) → (scanned : Scanned)
        → IsTrue (is_scanned st.mode) → IsScanned s st false bytes scanned → scanned ≢ NeedMore
        → ((run : Run) → (n : ℕ) → scanned ≢ token (run_kind run) n)
        → IsScanned s st ended (bytes ++ rest) scanned }
{}

/// Each byte of a stretch is one of it whatever follows.
pub fn characters_stay()
    ensures { (s : Syntax) → (st : ScanState) → (ended : Bool) → (run : Run) → (bytes rest : List ℕ) → (n : ℕ)
        → IsStretch s st false run bytes n → (i : ℕ) → i < n → IsOne s st ended run (drop i (bytes ++ rest)) }
{}

/// A text that has ended decides its first token.
pub fn ended_is_decided()
    ensures { (s : Syntax) → (st : ScanState) → (bytes : List ℕ) → (scanned : Scanned)
        → IsScanned s st true bytes scanned → scanned ≢ NeedMore }
{}

/// More is needed exactly where the text doesn't reach what decides its first token.
pub fn need_more_is_undecided()
    ensures { (s : Syntax) → (st : ScanState) → (bytes : List ℕ) → (scanned : Scanned)
        → IsScanned s st false bytes scanned → (scanned ≡ NeedMore) ↔ ¬ IsDecided s st bytes }
{}

/// Whether a text that may go on decides its first token is a test of its bytes.
pub fn decided_is_tested()
    ensures { (s : Syntax) → (st : ScanState) → (bytes : List ℕ)
        → (token_decided s st bytes ≡ true) ↔ IsDecided s st bytes }
{}

/// A text that decides its first token decides it when it goes on.
pub fn decided_stays()
    ensures { (s : Syntax) → (st : ScanState) → (bytes rest : List ℕ)
        → IsTrue (is_scanned st.mode) → IsDecided s st bytes → IsDecided s st (bytes ++ rest) }
{}

/// A text that decides its first token begins with a byte of a stretch, or with a whole token that is
/// none, or with a refusal, which isn't for want of an end.
pub fn decided_is_told()
    ensures { (s : Syntax) → (st : ScanState) → (bytes : List ℕ)
        → 0 < length bytes → IsDecided s st bytes → BeginsStretch s st bytes ⊎ BeginsWhole s st bytes }
{}

/// A stretch that is scanned is one: each of its bytes is one of it, and no more of them follow.
pub fn scanned_stretch_is_one()
    ensures { (s : Syntax) → (st : ScanState) → (ended : Bool) → (bytes : List ℕ) → (run : Run) → (n : ℕ)
        → IsScanned s st ended bytes (token (run_kind run) n) → IsStretch s st ended run bytes n }
{}

/// A place has one token, or one refusal, or needs more.
pub fn tokens_are_one()
    ensures { (s : Syntax) → (st : ScanState) → (ended : Bool) → (bytes : List ℕ) → (one other : Scanned)
        → IsScanned s st ended bytes one → IsScanned s st ended bytes other → one ≡ other }
{}

/// A token has a byte, and lies in the text.
pub fn token_is_within()
    ensures { (s : Syntax) → (st : ScanState) → (ended : Bool) → (bytes : List ℕ) → (scanned : Scanned)
        → IsTrue (is_scanned st.mode) → IsScanned s st ended bytes scanned → IsWithin (length bytes) scanned }
{}

/// Where a delimiter is told in content, no short reference string that stands there is longer.
pub fn delimiter_is_longest()
    ensures { (s : Syntax) → (net : Bool) → (bytes : List ℕ) → (delim : Delim) → (number n : ℕ)
        → answer s Con net bytes ≡ Some delim → Matches bytes number n → n ≤ length (string delim) }
{
    longest_is_recognised();
    longest_is_told();
}
