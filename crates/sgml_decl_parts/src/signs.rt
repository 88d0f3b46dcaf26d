// What is due after a sign.
ghost use Rattle.std.specs.Prelude.{◌≡◌, ◌<◌, ◌^◌};
ghost use Rattle.sgml_decl_parts.specs.Forms.{at_grpo, ended_by_dso, at_dso, at_start_omission, at_end_omission, out_of_model, in_model, after_model, after_model_plus, after_content, after_exclusions, at_pero, after_group, connects, is_grpc, in_group, after_sign, group};

use crate::form::{Form, Grouped, Owner};
use sgml_delim::Delim;

fn group(grouped: Grouped) -> Form
    ensures { result ≡ group grouped }
{
    Form::Group(grouped, true, None)
}

#[inline(always)]
fn at_grpo(form: Form, sign: Delim) -> Form
    ensures { result ≡ at_grpo form sign }
{
    match sign {
        Delim::Grpo => form,
        _ => Form::Broken,
    }
}

fn at_dso(owner: Owner, sign: Delim) -> Form
    ensures { result ≡ at_dso owner sign }
{
    match owner {
        Owner::Doctype => ended_by_dso(sign),
        _ => Form::Broken,
    }
}

#[inline(always)]
fn ended_by_dso(sign: Delim) -> Form
    ensures { result ≡ ended_by_dso sign }
{
    match sign {
        Delim::Dso => Form::Whole,
        _ => Form::Broken,
    }
}

fn at_start_omission(sign: Delim) -> Form
    ensures { result ≡ at_start_omission sign }
{
    match sign {
        Delim::Minus => Form::EndOmission,
        Delim::Grpo => Form::Model(1),
        _ => Form::Broken,
    }
}

fn at_end_omission(sign: Delim) -> Form
    ensures { result ≡ at_end_omission sign }
{
    match sign {
        Delim::Minus => Form::Content,
        _ => Form::Broken,
    }
}

#[inline(never)]
fn in_model(level: u32, sign: Delim) -> Form
    ensures { result ≡ in_model level sign }
{
    match sign {
        Delim::Grpo => Form::Model(level.saturating_add(1)),
        Delim::Grpc => out_of_model(level),
        Delim::Seq => Form::Model(level),
        Delim::Or => Form::Model(level),
        Delim::And => Form::Model(level),
        Delim::Opt => Form::Model(level),
        Delim::Plus => Form::Model(level),
        Delim::Rep => Form::Model(level),
        _ => Form::Broken,
    }
}

fn out_of_model(level: u32) -> Form
    ensures { result ≡ out_of_model level }
{
    if level == 1 {
        Form::AfterModel
    } else {
        Form::Model(level.saturating_sub(1))
    }
}

#[inline(never)]
fn after_model(sign: Delim) -> Form
    ensures { result ≡ after_model sign }
{
    match sign {
        Delim::Opt => Form::AfterContent,
        Delim::Rep => Form::AfterContent,
        Delim::Plus => Form::AfterModelPlus,
        Delim::Minus => Form::Exclusions,
        _ => Form::Broken,
    }
}

#[inline(never)]
fn after_model_plus(sign: Delim) -> Form
    ensures { result ≡ after_model_plus sign }
{
    match sign {
        Delim::Grpo => group(Grouped::Inclusions),
        Delim::Minus => Form::Exclusions,
        Delim::Plus => Form::Inclusions,
        _ => Form::Broken,
    }
}

#[inline(never)]
fn after_content(sign: Delim) -> Form
    ensures { result ≡ after_content sign }
{
    match sign {
        Delim::Minus => Form::Exclusions,
        Delim::Plus => Form::Inclusions,
        _ => Form::Broken,
    }
}

#[inline(never)]
fn after_exclusions(sign: Delim) -> Form
    ensures { result ≡ after_exclusions sign }
{
    match sign {
        Delim::Plus => Form::Inclusions,
        _ => Form::Broken,
    }
}

fn at_pero(sign: Delim) -> Form
    ensures { result ≡ at_pero sign }
{
    match sign {
        Delim::Pero => Form::ParameterName,
        _ => Form::Broken,
    }
}

fn after_group(grouped: Grouped) -> Form
    ensures { result ≡ after_group grouped }
{
    match grouped {
        Grouped::Elements => Form::StartOmission,
        Grouped::Lists => Form::Attribute,
        Grouped::Notations => Form::Default,
        Grouped::Tokens => Form::Default,
        Grouped::Exclusions => Form::AfterExclusions,
        Grouped::Inclusions => Form::Whole,
        Grouped::Mapped => Form::Whole,
    }
}

fn connects(connector: Option<Delim>, sign: Delim) -> bool
    ensures { result ≡ connects connector sign }
{
    match (connector, sign) {
        (None, Delim::Seq) => true,
        (None, Delim::Or) => true,
        (None, Delim::And) => true,
        (Some(Delim::Seq), Delim::Seq) => true,
        (Some(Delim::Or), Delim::Or) => true,
        (Some(Delim::And), Delim::And) => true,
        _ => false,
    }
}

fn is_grpc(sign: Delim) -> bool
    ensures { result ≡ is_grpc sign }
{
    match sign {
        Delim::Grpc => true,
        _ => false,
    }
}

#[inline(never)]
fn in_group(grouped: Grouped, connector: Option<Delim>, sign: Delim) -> Form
    ensures { result ≡ in_group grouped connector sign }
{
    if is_grpc(sign) {
        after_group(grouped)
    } else if connects(connector, sign) {
        Form::Group(grouped, true, Some(sign))
    } else {
        Form::Broken
    }
}

/// What is due after a sign.
#[inline(always)]
pub fn after_sign(form: Form, sign: Delim) -> Form
    ensures { result ≡ after_sign form sign }
{
    match form {
        Form::DoctypeNamed => at_dso(Owner::Doctype, sign),
        Form::System(owner) => at_dso(owner, sign),
        Form::PublicNamed(owner) => at_dso(owner, sign),
        Form::External(owner) => at_dso(owner, sign),
        Form::ElementNames => at_grpo(group(Grouped::Elements), sign),
        Form::StartOmission => at_start_omission(sign),
        Form::EndOmission => at_end_omission(sign),
        Form::Content => at_grpo(Form::Model(1), sign),
        Form::Model(level) => in_model(level, sign),
        Form::AfterModel => after_model(sign),
        Form::AfterModelPlus => after_model_plus(sign),
        Form::AfterContent => after_content(sign),
        Form::Exclusions => at_grpo(group(Grouped::Exclusions), sign),
        Form::AfterExclusions => after_exclusions(sign),
        Form::Inclusions => at_grpo(group(Grouped::Inclusions), sign),
        Form::ListNames => at_grpo(group(Grouped::Lists), sign),
        Form::Declared => at_grpo(group(Grouped::Tokens), sign),
        Form::Notations => at_grpo(group(Grouped::Notations), sign),
        Form::EntityName => at_pero(sign),
        Form::MapTargets => at_grpo(group(Grouped::Mapped), sign),
        Form::Statuses => ended_by_dso(sign),
        Form::Group(grouped, due, connector) => {
            if due {
                Form::Broken
            } else {
                in_group(grouped, connector, sign)
            }
        }
        _ => Form::Broken,
    }
}
