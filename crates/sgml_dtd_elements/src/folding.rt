// The names of a declaration as the syntax has them.
ghost use Rattle.std.specs.Prelude.{◌≡◌, IfOk, map};
ghost use Rattle.sgml_dtd_elements.specs.Folded.{folded_token};

use sgml_model::GroupToken;
use sgml_names::general_name;
use sgml_syntax::Syntax;
use sgml_text::Memory;
use std::alloc::Global;

fn folded_token(alloc: Global, syntax: &Syntax, token: &GroupToken) -> Result<GroupToken, Memory>
    ensures { IfOk result (λ new. new ≡ folded_token syntax.now token.now) }
{
    match token {
        GroupToken::Begin => Ok(GroupToken::Begin),
        GroupToken::Finish => Ok(GroupToken::Finish),
        GroupToken::Name(name) => Ok(GroupToken::Name(general_name(alloc, syntax, name.items())?)),
        GroupToken::Pcdata => Ok(GroupToken::Pcdata),
        GroupToken::Seq => Ok(GroupToken::Seq),
        GroupToken::Or => Ok(GroupToken::Or),
        GroupToken::And => Ok(GroupToken::And),
        GroupToken::Opt => Ok(GroupToken::Opt),
        GroupToken::Plus => Ok(GroupToken::Plus),
        GroupToken::Rep => Ok(GroupToken::Rep),
    }
}

pub(crate) fn folded_tokens(
    alloc: Global,
    syntax: &Syntax,
    tokens: &[GroupToken],
) -> Result<Vec<GroupToken>, Memory>
    ensures { IfOk result (λ all. all.items ≡ map (folded_token syntax.now) tokens.now) }
{
    let mut all = Vec::with_capacity(alloc, tokens.len())?;
    for token in tokens {
        let folded = folded_token(alloc, syntax, token)?;
        all.push(folded)?;
    }
    Ok(all)
}
