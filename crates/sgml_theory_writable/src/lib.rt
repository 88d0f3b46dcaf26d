//! That what was read can be written (ISO 8879 7.9, 8, 9.3, 9.4).
//!
//! Definitions and laws, without code. It stands on what was read and may be written again, on the values of starts and
//! on what a full document writes, and says that what is told satisfies what the full document asks of it.
#![tactic(auto)]

ghost use Rattle.sgml_theory_writable.specs.Laws.{SpelledRefers, ReadValuesRefer, ReadAttributesAreWritten, ReadIsWritten};

use sgml_theory_again::theory_values::{read_starts_are_read_back, starts_are_read_back};
use sgml_theory_again::{read_has_names, read_is_of_instance, read_pieces_stand};

/// Each reference of a literal that is spelled, in a start-tag or a declaration, is of an entity that is found by its
/// name. An instruction of its own has a text of SGML characters without `>`, of at most PILEN.
pub fn spelled_refers()
    ensures { SpelledRefers }
{}

/// So, after whatever was read, each reference of a default value and of a current value is. Each attribute of a start
/// that is read has a name and a value that can be written where it stands.
pub fn read_values_are_written()
    ensures refer { ReadValuesRefer }
    ensures written { ReadAttributesAreWritten }
{
    read_starts_are_read_back();
    starts_are_read_back();
    read_has_names();
}

/// What is told of the instance can be written in a full document, if each instruction of its own can be spelled.
pub fn read_is_written()
    ensures { ReadIsWritten }
{
    read_has_names();
    read_is_of_instance();
    read_pieces_stand();
    read_values_are_written();
}

pub use sgml_theory_again as theory_again;
pub use sgml_theory_again::theory_full as theory_full;
