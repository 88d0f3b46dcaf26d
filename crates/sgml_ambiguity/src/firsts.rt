// The tokens that can come first, with an index of their names.
ghost use Rattle.std.specs.Prelude.{take, ◌≤◌, vec_len};
ghost use Rattle.sgml_ambiguity.specs.Firsts.{IsIndexed, IsIndexed-prop};

use crate::cross::differing;
use crate::token::{ScanError, Token};
use sgml_names::NameIndex;
use sgml_text::{Memory, Name};
use std::alloc::{AllocError, Global};

/// Tokens, and an index of the names of those among which a token was looked for: the number of the
/// first of each name. A list in which none is looked for has no index.
#[derive(Drop)]
pub struct Firsts<'a> {
    pub tokens: Vec<Token<'a>>,
    /// So many tokens, from the first on, are in the index.
    known: usize,
    names: NameIndex,
    text: Option<u32>,
    pub ghost indexed: { IsIndexed (take known tokens.items) names text } by { IsIndexed-prop (take known tokens.items) names text },
    pub ghost within: { known ≤ vec_len tokens },
}

impl<'a> Firsts<'a> {
    ghost use Rattle.std.specs.Prelude.{◌≡◌, ◌+◌, Some, None, [], ◌∷◌, ◌++◌, IfOk, IfErr, option_map, take, length, slice_get};
    ghost use Rattle.std.specs.Option.{option_copied};
    ghost use Rattle.sgml_ambiguity.specs.Names.{number_in};
    ghost use Rattle.sgml_ambiguity.specs.Scan.{token_view, views, pair_view, first_number, against, cross, crossed, holds, without};
    ghost use Rattle.sgml_ambiguity.specs.Parts.{Fails};

    /// No tokens.
    pub fn new(alloc: Global) -> Self
        ensures { result.tokens.items ≡ [] }
    {
        Firsts {
            tokens: Vec::new(alloc),
            known: 0,
            names: NameIndex::new(alloc),
            text: None,
        }
    }

    // The number of the first token of the name in the index.
    fn number(&self, name: Option<&Name>) -> Option<u32>
        ensures { result ≡ first_number (views (take self.now.known self.now.tokens.items)) (option_copied name.entry) }
    {
        match name {
            None => self.text,
            Some(name) => self.names.number(name.items()),
        }
    }

    // One token more in the index.
    fn with(self, token: Token<'a>) -> Result<Firsts<'a>, Memory>
        requires { slice_get self.tokens.items self.known ≡ Some token }
        ensures tokens { IfOk result (λ v. v.tokens.items ≡ self.entry.tokens.items) }
        ensures known { IfOk result (λ v. v.known ≡ self.entry.known + 1) }
    {
        let is_known = self.number(token.name).is_some();
        let Firsts {
            tokens,
            known,
            names,
            text,
        } = self;
        let known = known + 1;
        if is_known {
            return Ok(Firsts {
                tokens,
                known,
                names,
                text,
            });
        }
        match token.name {
            None => Ok(Firsts {
                tokens,
                known,
                names,
                text: Some(token.number),
            }),
            Some(name) => {
                let mut names = names;
                names.add(name.items(), token.number)?;
                Ok(Firsts {
                    tokens,
                    known,
                    names,
                    text,
                })
            }
        }
    }

    // All tokens in the index.
    fn whole(self) -> Result<Firsts<'a>, Memory>
        ensures tokens { IfOk result (λ v. v.tokens.items ≡ self.entry.tokens.items) }
        ensures known { IfOk result (λ v. v.known ≡ length v.tokens.items) }
    {
        let mut all = self;
        while all.known < all.tokens.len() {
            let token = all.tokens[all.known];
            all = all.with(token)?;
        }
        Ok(all)
    }

    /// These tokens behind.
    pub fn followed(self, more: &[Token<'a>]) -> Result<Firsts<'a>, Memory>
        ensures { IfOk result (λ v. views v.tokens.items ≡ views self.entry.tokens.items ++ views more.now) }
    {
        let Firsts {
            tokens,
            known,
            names,
            text,
        } = self;
        let mut tokens = tokens;
        tokens.extend_from_slice(more)?;
        Ok(Firsts {
            tokens,
            known,
            names,
            text,
        })
    }

    // The token and another one of its name in the index.
    fn against(&self, token: Token<'a>) -> Option<(Token<'a>, Token<'a>)>
        ensures { option_map pair_view result ≡ against (token_view token.entry) (views (take self.now.known self.now.tokens.items)) }
    {
        differing(token, self.number(token.name))
    }

    /// None of the tokens has the name of another one here.
    #[tactic(auto, unfolding(crate::specs::Scan::cross))]
    pub fn apart(self, tokens: &[Token<'a>]) -> Result<Firsts<'a>, ScanError<'a>>
        ensures same { IfOk result (λ v. views v.tokens.items ≡ views self.entry.tokens.items) }
        ensures ok { IfOk result (λ v. cross (views tokens.now) (views self.entry.tokens.items) ≡ None) }
        ensures err { IfErr result (λ e. Fails e (cross (views tokens.now) (views self.entry.tokens.items))) }
    {
        if tokens.is_empty() {
            return Ok(self);
        }
        let all = self.whole()?;
        for token in tokens {
            if let Some((a, b)) = all.against(*token) {
                return Err(ScanError::Clash(a, b));
            }
        }
        Ok(all)
    }

    /// None of the tokens has the name of another one here, which is named first.
    #[tactic(auto, unfolding(crate::specs::Scan::cross))]
    pub fn apart_before(self, tokens: &[Token<'a>]) -> Result<Firsts<'a>, ScanError<'a>>
        ensures same { IfOk result (λ v. views v.tokens.items ≡ views self.entry.tokens.items) }
        ensures ok { IfOk result (λ v. crossed (views self.entry.tokens.items) (views tokens.now) ≡ None) }
        ensures err { IfErr result (λ e. Fails e (crossed (views self.entry.tokens.items) (views tokens.now))) }
    {
        match self.apart(tokens) {
            Ok(all) => Ok(all),
            Err(ScanError::Memory) => Err(ScanError::Memory),
            Err(ScanError::Clash(a, b)) => Err(ScanError::Clash(b, a)),
        }
    }

    // The token is one of those in the index.
    fn holds(&self, token: Token<'a>) -> bool
        ensures { result ≡ holds (views (take self.now.known self.now.tokens.items)) (token_view token.entry) }
    {
        match self.number(token.name) {
            None => false,
            Some(number) => number == token.number,
        }
    }

    // Those of the tokens that aren't in the index.
    fn without(&self, alloc: Global, tokens: &[Token<'a>]) -> Result<Vec<Token<'a>>, AllocError>
        ensures { IfOk result (λ v. views v.items ≡ without (views tokens.now) (views (take self.now.known self.now.tokens.items))) }
    {
        let mut others = Vec::new(alloc);
        for i in 0..tokens.len() {
            if !self.holds(tokens[i]) {
                others.push(tokens[i])?;
            }
        }
        Ok(others)
    }

    /// Those of the tokens that aren't here.
    pub fn others(self, alloc: Global, tokens: &[Token<'a>]) -> Result<Vec<Token<'a>>, Memory>
        ensures { IfOk result (λ v. views v.items ≡ without (views tokens.now) (views self.entry.tokens.items)) }
    {
        if tokens.is_empty() {
            return Ok(Vec::new(alloc));
        }
        let all = self.whole()?;
        Ok(all.without(alloc, tokens)?)
    }
}
