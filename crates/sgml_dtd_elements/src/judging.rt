// Why a declaration is refused, and what may stand in its elements.
ghost use Rattle.std.specs.Prelude.{◌≡◌, IfOk, IfErr, OnOk, None, Some, true, false, map};
ghost use Rattle.std.specs.List.{list_any};
ghost use Rattle.sgml_text.specs.declared.reason.Reason.TheVariants.{ElementTwice};
ghost use Rattle.sgml_model.specs.Group.{spelling};
ghost use Rattle.sgml_model.specs.Model.{model_of};
ghost use Rattle.sgml_model.specs.ReaderView.{sign};
ghost use Rattle.sgml_model.specs.Reading.{reading};
ghost use Rattle.sgml_automaton.specs.ambiguity.Ambiguity.{IsUnambiguous};
ghost use Rattle.sgml_automaton.specs.Automaton.{whole_of};
ghost use Rattle.sgml_dtd_elements.specs.Folded.{folded_token, folded_content};
ghost use Rattle.sgml_dtd_elements.specs.Kept.{form_of, IsRead};
ghost use Rattle.sgml_dtd_elements.specs.Rows.{is_long_token, is_long_content, has_long, limits_of, reason_of_model, IsAmbiguousGroup, IsAmbiguousContent, IsUnambiguousContent, content_reason, tokens_reason};
ghost use Rattle.sgml_text.specs.Refusals.{IsRefusal};
ghost use Rattle.sgml_dtd_elements.specs.Errors.{IsFirstRefusal, IsAmbiguity};
ghost use Rattle.sgml_text.specs.declared.error.RefusalError.TheVariants.{Refused};

use crate::content::Content;
use crate::folding::folded_tokens;
use sgml_automaton::{Automaton, BuildError, build};
use sgml_decl_forms::{ContentForm, ElementDeclaration};
use sgml_model::{GroupError, GroupLimits, GroupToken, Model, read_group};
use sgml_names::{any_long, is_long};
use sgml_syntax::Syntax;
use sgml_text::{Reason, RefusalError};
use std::alloc::Global;

fn is_long_token(syntax: &Syntax, token: &GroupToken) -> bool
    ensures { result ≡ is_long_token syntax.now token.now }
{
    match token {
        GroupToken::Name(name) => is_long(syntax, name.items()),
        _ => false,
    }
}

fn any_long_token(syntax: &Syntax, tokens: &[GroupToken]) -> bool
    ensures { result ≡ list_any (is_long_token syntax.now) tokens.now }
{
    for token in tokens {
        if is_long_token(syntax, token) {
            return true;
        }
    }
    false
}

fn is_long_content(syntax: &Syntax, content: &ContentForm) -> bool
    ensures { result ≡ is_long_content syntax.now content.now }
{
    match content {
        ContentForm::Model(tokens) => any_long_token(syntax, tokens.items()),
        _ => false,
    }
}

// Whether a name of the declaration passes NAMELEN.
pub(crate) fn has_long(syntax: &Syntax, declaration: &ElementDeclaration) -> bool
    ensures { result ≡ has_long syntax.now declaration.now }
{
    any_long(syntax, declaration.names.items())
        || is_long_content(syntax, &declaration.body.content)
        || any_long(syntax, declaration.body.excluded.items())
        || any_long(syntax, declaration.body.included.items())
}

fn limits_of(syntax: &Syntax) -> GroupLimits
    ensures { result ≡ limits_of syntax.now }
{
    let quantities = &syntax.quantities;
    GroupLimits {
        count: quantities.grpcnt,
        total: quantities.grpgtcnt,
        level: quantities.grplvl,
    }
}

// The model that the tokens spell.
fn read_model(alloc: Global, syntax: &Syntax, tokens: &[GroupToken]) -> Result<Model, RefusalError>
    ensures spelled { IfOk result (λ m. spelling (model_of m) ≡ map sign tokens.now) }
    ensures read { IfOk result (λ m. reading (map sign tokens.now) ≡ Some (model_of m)) }
    ensures none { OnOk result (reason_of_model (limits_of syntax.now) (reading (map sign tokens.now)) ≡ None) }
    ensures refused { IfErr result (IsRefusal (reason_of_model (limits_of syntax.now) (reading (map sign tokens.now)))) }
{
    match read_group(alloc, tokens, limits_of(syntax)) {
        Ok(model) => Ok(model),
        Err(GroupError::BadGroup { .. }) => Err(RefusalError::Refused(Reason::BadGroup)),
        Err(GroupError::GroupLimit(_)) => Err(RefusalError::Refused(Reason::GroupLimit)),
        Err(GroupError::Memory) => Err(RefusalError::Memory),
    }
}

fn built(alloc: Global, model: Model) -> Result<Automaton, RefusalError>
    ensures whole { IfOk result (λ a. whole_of a ≡ model_of model) }
    ensures unambiguous { OnOk result (IsUnambiguous (model_of model)) }
    ensures refused { IfErr result (IsAmbiguity (model_of model)) }
{
    match build(alloc, model) {
        Ok(automaton) => Ok(automaton),
        Err(BuildError::Ambiguous { .. }) => Err(RefusalError::Refused(Reason::Ambiguous)),
        Err(BuildError::Memory) => Err(RefusalError::Memory),
    }
}

// The content of a model group. `twice` says that a name of the declaration is declared already.
fn group_content(
    alloc: Global,
    syntax: &Syntax,
    tokens: &[GroupToken],
    twice: bool,
) -> Result<Automaton, RefusalError>
    ensures spelled { IfOk result (λ a. spelling (whole_of a) ≡ map sign (map (folded_token syntax.now) tokens.now)) }
    ensures read { IfOk result (λ a. reading (map sign (map (folded_token syntax.now) tokens.now)) ≡ Some (whole_of a)) }
    ensures unambiguous { IfOk result (λ a. IsUnambiguous (whole_of a)) }
    ensures none { OnOk result (tokens_reason syntax.now tokens.now twice ≡ None) }
    ensures refused { IfErr result (IsFirstRefusal (tokens_reason syntax.now tokens.now twice)
        (IsAmbiguousGroup (map (folded_token syntax.now) tokens.now))) }
{
    let folded = folded_tokens(alloc, syntax, tokens)?;
    let model = read_model(alloc, syntax, &folded)?;
    if twice {
        return Err(RefusalError::Refused(Reason::ElementTwice));
    }
    built(alloc, model)
}

fn unless_twice(content: Content, twice: bool) -> Result<Content, RefusalError>
    ensures content { IfOk result (λ c. c ≡ content) }
    ensures once { OnOk result (twice ≡ false) }
    ensures refused { IfErr result (λ e. (e ≡ Refused ElementTwice) × (twice ≡ true)) }
{
    if twice {
        return Err(RefusalError::Refused(Reason::ElementTwice));
    }
    Ok(content)
}

// What may stand in the elements of a declaration.
pub(crate) fn content_of(
    alloc: Global,
    syntax: &Syntax,
    form: &ContentForm,
    twice: bool,
) -> Result<Content, RefusalError>
    ensures form { IfOk result (λ c. form_of c ≡ folded_content syntax.now form.now) }
    ensures read { IfOk result (λ c. IsRead c) }
    ensures unambiguous { OnOk result (IsUnambiguousContent (folded_content syntax.now form.now)) }
    ensures none { OnOk result (content_reason syntax.now form.now twice ≡ None) }
    ensures refused { IfErr result (IsFirstRefusal (content_reason syntax.now form.now twice)
        (IsAmbiguousContent (folded_content syntax.now form.now))) }
{
    match form {
        ContentForm::Empty => unless_twice(Content::Empty, twice),
        ContentForm::Cdata => unless_twice(Content::Cdata, twice),
        ContentForm::Rcdata => unless_twice(Content::Rcdata, twice),
        ContentForm::Any => unless_twice(Content::Any, twice),
        ContentForm::Model(tokens) => match group_content(alloc, syntax, tokens.items(), twice) {
            Ok(automaton) => Ok(Content::Model(automaton)),
            Err(error) => Err(error),
        },
    }
}
