//! Worked documents: the definitions of reading are computed on small documents, and give the
//! lines and the reason of refusal that each is known to have. A wrong definition shows here.
//!
//! It has no code. The documents are read by a small spelling of its own, with declarations, elements,
//! empty tags, null end-tags and processing instructions. The worked documents of tags and values that are
//! written again use its declarations.
#![tactic(auto)]

ghost use Rattle.std.specs.Prelude.{◌≡◌, Some, None, [], ◌∷◌, ◌++◌, true, codes};
ghost use Rattle.sgml_theory_reading.specs.text.declared.reason.Reason.TheVariants.{Repeated, Dangling, Undefined, OmitUndeclared, Undeclared};
ghost use Rattle.sgml_theory_reading.specs.syntax.Implied.{implied_syntax};
ghost use Rattle.sgml_theory_reading.specs.text.Units.{characters};
ghost use Rattle.sgml_theory_reading.specs.text.declared.unit.Unit.TheVariants as unit;
ghost use Rattle.sgml_theory_reading.specs.attr.declared.value.AttrValue.TheVariants as value;
ghost use Rattle.sgml_theory_reading.specs.dtd_maps.declared.uses.MapOf.TheVariants as map_of;
ghost use Rattle.sgml_theory_reading.specs.Pieces.{Sgml, Sep, Comment, End, UseMap, Tag};
ghost use Rattle.sgml_theory_reading.specs.Facets.{AtBeginning, BeforeDoctype};
ghost use Rattle.sgml_theory_reading.specs.entity.Stack.{place_at};
ghost use Rattle.sgml_theory_reading.specs.Unread.{unread, rests, spent};
ghost use Rattle.sgml_theory_reading.specs.Currents.{currents};
ghost use Rattle.sgml_theory_reading.specs.Identifiers.{id_fault};
ghost use Rattle.sgml_theory_reading.specs.Lines.{lines, lines_by};
ghost use Rattle.sgml_theory_worked.specs.Spelling.{small};
ghost use Rattle.sgml_theory_worked.specs.Declared.{base};
ghost use Rattle.sgml_theory_worked.specs.Documents.{D, P};
ghost use Rattle.sgml_theory_worked.specs.Parts.{picture_type, picture_events, picture_lines, sdata_history, sdata_lines, current_history, text_history, X, Y, U, dangling_events, dangling_lines, repeated_events, map_after, start, stage_after_kinds, refused_with_reference, reference_input, reference_history, base_on};
ghost use Rattle.sgml_theory_worked.specs.Shows.{Holds, HoldsWhole};
ghost use Rattle.sgml_theory_worked.specs.Cases as cases;
ghost use Rattle.sgml_theory_worked.specs.Whole as whole;

/// The definitions give each worked case its lines and its ending.
pub fn worked_cases_hold()
    ensures all_tags_present { Holds cases.all_tags_present }
    ensures first_and_last_record_ends { Holds cases.first_and_last_record_ends }
    ensures record_end_after_instruction { Holds cases.record_end_after_instruction }
    ensures mixed_record_ends { Holds cases.mixed_record_ends }
    ensures record_end_before_inclusion { Holds cases.record_end_before_inclusion }
    ensures null_end_tags { Holds cases.null_end_tags }
    ensures empty_start_tag_under_omittag { Holds cases.empty_start_tag_under_omittag }
    ensures empty_start_tag_without_omittag { Holds cases.empty_start_tag_without_omittag }
    ensures required_child_missing { Holds cases.required_child_missing }
    ensures data_in_element_content { Holds cases.data_in_element_content }
    ensures four_tags_inferred { Holds cases.four_tags_inferred }
    ensures refused_walk_prints_nothing { Holds cases.refused_walk_prints_nothing }
    ensures etago_out_of_context_is_data { Holds cases.etago_out_of_context_is_data }
    ensures no_document_element { Holds cases.no_document_element }
    ensures recursive_omission_reaches_taglvl { Holds cases.recursive_omission_reaches_taglvl }
    ensures optional_then_required { Holds cases.optional_then_required }
    ensures and_group_either_order { Holds cases.and_group_either_order }
    ensures and_group_unfinished { Holds cases.and_group_unfinished }
    ensures or_group_second { Holds cases.or_group_second }
    ensures or_group_both { Holds cases.or_group_both }
    ensures inclusion_and_exclusion { Holds cases.inclusion_and_exclusion }
    ensures excluded_in_itself { Holds cases.excluded_in_itself }
{}

/// The definitions give each worked part its lines, current value, fault of identifiers and map.
pub fn worked_parts_hold()
    ensures notation_and_data_entity { lines_by picture_type picture_events true ≡ picture_lines }
    ensures sdata_in_data_line { lines small sdata_history ≡ sdata_lines }
    ensures current_value_kept { currents current_history P X ≡ Some (value.Tokens (U ∷ [])) }
    ensures current_value_interpreted { currents text_history P Y ≡ Some (value.Cdata (characters (codes "a b") ++ (unit.Byte 9 ∷ []))) }
    ensures dangling_idref { id_fault dangling_events ≡ Some (1, Dangling) }
    ensures dangling_lines { lines_by picture_type dangling_events true ≡ dangling_lines }
    ensures repeated_id { id_fault repeated_events ≡ Some (2, Repeated) }
    ensures map_of_parent { map_after (start D ∷ (start P ∷ [])) ≡ map_of.Map 0 }
    ensures map_set_empty { map_after (start D ∷ (start P ∷ (UseMap None ∷ []))) ≡ map_of.Empty }
    ensures map_after_end { map_after (start D ∷ (start P ∷ (UseMap None ∷ (End P Tag ∷ [])))) ≡ map_of.Map 0 }
    ensures beginning { stage_after_kinds (Sep 10 ∷ (Sep 32 ∷ [])) ≡ AtBeginning }
    ensures declaration_read { stage_after_kinds (Sep 10 ∷ (Sgml implied_syntax ∷ [])) ≡ BeforeDoctype }
    ensures comment_read { stage_after_kinds (Comment ∷ []) ≡ BeforeDoctype }
    ensures reference_in_no_type { refused_with_reference (codes "Q") ≡ Some Undefined }
    ensures reference_where_none_stands { refused_with_reference P ≡ Some OmitUndeclared }
    ensures reference_in_its_place { refused_with_reference D ≡ Some Undeclared }
    ensures text_on_top { rests reference_input reference_history ≡
        (record { entity = 2; bytes = codes "text" }) ∷ ((record { entity = 0; bytes = codes "x" }) ∷ []) }
    ensures places_of_both { unread reference_history ≡ place_at 2 0 ∷ (place_at 0 6 ∷ []) }
    ensures length_of_text { spent reference_input.outside reference_history ≡ 4 }
    ensures base_of_document { base_on (0 ∷ []) ≡ base }
    ensures base_of_subset { base_on (1 ∷ (0 ∷ [])) ≡ codes "s" }
    ensures base_of_text_in_subset { base_on (2 ∷ (1 ∷ (0 ∷ []))) ≡ codes "s" }
{}

/// The definitions give each worked document that is read from its first byte its lines and its ending.
pub fn whole_documents_hold()
    ensures external_subset_alone { HoldsWhole whole.external_subset_alone }
    ensures subset_by_catalog { HoldsWhole whole.subset_by_catalog }
    ensures both_subsets { HoldsWhole whole.both_subsets }
    ensures cut_document { HoldsWhole whole.cut_document }
    ensures no_document_type { HoldsWhole whole.no_document_type }
{}
