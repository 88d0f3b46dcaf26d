ghost use Rattle.std.specs.Prelude.{◌≡◌, [], ◌∷◌, ◌++◌, ◌&&◌, ◌||◌, map, IfOk, IfErr, None};
ghost use Rattle.std.specs.Option.{option_or};
ghost use Rattle.sgml_model.specs.View.{view, terms};
ghost use Rattle.sgml_ambiguity.specs.Ambiguity.{IsModel, AreModels};
ghost use Rattle.sgml_ambiguity.specs.Scan.{token_view, views, cross, crossed, without, when, clash, clash_in_order, clash_apart, clash_among};
ghost use Rattle.sgml_ambiguity.specs.Parts.{Lists, RestLists, Fails, AmongLists, IsScan, IsScanInOrder, IsScanOfSome, IsScanAmong};

use crate::accumulated::{Among, Rest};
use crate::firsts::Firsts;
use crate::token::{Part, ScanError, Token};
use sgml_model::Term;
use sgml_text::Memory;
use std::alloc::{AllocError, Global};

// One list behind another.
fn joined<'a>(xs: Vec<Token<'a>>, ys: &[Token<'a>]) -> Result<Vec<Token<'a>>, AllocError>
    ensures { IfOk result (λ v. v.items ≡ xs.entry.items ++ ys.now) }
{
    let mut all = xs;
    all.extend_from_slice(ys)?;
    Ok(all)
}

// The list, where it counts.
fn kept<'a, 'b>(counts: bool, xs: &'b [Token<'a>]) -> &'b [Token<'a>]
    ensures { result.now ≡ when counts xs.now }
{
    if counts { xs } else { &[] }
}

// The tokens, where they count, or none.
fn kept_firsts<'a>(alloc: Global, counts: bool, firsts: Firsts<'a>) -> Firsts<'a>
    ensures { views result.tokens.items ≡ when counts (views firsts.entry.tokens.items) }
{
    if counts { firsts } else { Firsts::new(alloc) }
}

// A member before the rest of a sequence.
fn before<'a>(
    alloc: Global,
    m: &Part<'a>,
    head: &[Token<'a>],
    rest: Rest<'a>,
) -> Result<Rest<'a>, ScanError<'a>>
    ensures ok { IfOk result (λ p. RestLists p
        (option_or (cross (views m.now.lasts.items) (views rest.entry.firsts.tokens.items))
        (cross (views (when m.now.done m.now.firsts.items)) (views rest.entry.firsts.tokens.items)))
        (m.now.done && rest.entry.done)
        (when m.now.done (views rest.entry.firsts.tokens.items) ++ views m.now.firsts.items)
        (views ((rest.entry.lasts.items ++ when rest.entry.done m.now.lasts.items) ++ when rest.entry.done head.now))) }
    ensures err { IfErr result (λ e. Fails e
        (option_or (cross (views m.now.lasts.items) (views rest.entry.firsts.tokens.items))
        (cross (views (when m.now.done m.now.firsts.items)) (views rest.entry.firsts.tokens.items)))) }
{
    let Rest {
        done,
        firsts,
        lasts,
    } = rest;
    let firsts = firsts.apart(&m.lasts)?;
    let firsts = firsts.apart(kept(m.done, &m.firsts))?;
    let firsts = kept_firsts(alloc, m.done, firsts).followed(&m.firsts)?;
    let lasts = joined(joined(lasts, kept(done, &m.lasts))?, kept(done, head))?;
    Ok(Rest {
        done: m.done && done,
        firsts,
        lasts,
    })
}

// A member beside the others of an OR group.
fn beside<'a>(m: &Part<'a>, rest: Rest<'a>) -> Result<Rest<'a>, ScanError<'a>>
    ensures ok { IfOk result (λ p. RestLists p
        (cross (views m.now.firsts.items) (views rest.entry.firsts.tokens.items))
        (m.now.done || rest.entry.done)
        (views rest.entry.firsts.tokens.items ++ views m.now.firsts.items)
        (views (rest.entry.lasts.items ++ m.now.lasts.items))) }
    ensures err { IfErr result (λ e. Fails e
        (cross (views m.now.firsts.items) (views rest.entry.firsts.tokens.items))) }
{
    let Rest {
        done,
        firsts,
        lasts,
    } = rest;
    let firsts = firsts.apart(&m.firsts)?;
    Ok(Rest {
        done: m.done || done,
        firsts: firsts.followed(&m.firsts)?,
        lasts: joined(lasts, &m.lasts)?,
    })
}

// The lists of a member behind those of the others of an AND group.
fn together<'a>(
    m: &Part<'a>,
    firsts: Firsts<'a>,
    ends: Firsts<'a>,
    lasts: Vec<Token<'a>>,
) -> Result<Among<'a>, Memory>
    ensures firsts { IfOk result (λ p. views p.firsts.tokens.items ≡ views firsts.entry.tokens.items ++ views m.now.firsts.items) }
    ensures ends { IfOk result (λ p. views p.ends.tokens.items ≡ views ends.entry.tokens.items ++ views m.now.lasts.items) }
    ensures lasts { IfOk result (λ p. p.lasts.items ≡ (lasts.entry.items ++ m.now.lasts.items) ++ when m.now.done m.now.firsts.items) }
{
    Ok(Among {
        firsts: firsts.followed(&m.firsts)?,
        ends: ends.followed(&m.lasts)?,
        lasts: joined(joined(lasts, &m.lasts)?, kept(m.done, &m.firsts))?,
    })
}

// A member with the others of an AND group.
fn among<'a>(m: &Part<'a>, rest: Among<'a>) -> Result<Among<'a>, ScanError<'a>>
    ensures ok { IfOk result (λ p. AmongLists p
        (option_or (cross (views m.now.lasts.items) (views rest.entry.firsts.tokens.items))
        (option_or (cross (views m.now.firsts.items) (views rest.entry.firsts.tokens.items))
        (crossed (views rest.entry.ends.tokens.items) (views m.now.firsts.items))))
        (views rest.entry.firsts.tokens.items ++ views m.now.firsts.items)
        (views rest.entry.ends.tokens.items ++ views m.now.lasts.items)
        (views ((rest.entry.lasts.items ++ m.now.lasts.items) ++ when m.now.done m.now.firsts.items))) }
    ensures err { IfErr result (λ e. Fails e
        (option_or (cross (views m.now.lasts.items) (views rest.entry.firsts.tokens.items))
        (option_or (cross (views m.now.firsts.items) (views rest.entry.firsts.tokens.items))
        (crossed (views rest.entry.ends.tokens.items) (views m.now.firsts.items))))) }
{
    let Among {
        firsts,
        ends,
        lasts,
    } = rest;
    let firsts = firsts.apart(&m.lasts)?;
    let firsts = firsts.apart(&m.firsts)?;
    let ends = ends.apart_before(&m.firsts)?;
    Ok(together(m, firsts, ends, lasts)?)
}

// A repeated group.
fn repeated<'a>(alloc: Global, m: Part<'a>, done: bool) -> Result<Part<'a>, ScanError<'a>>
    ensures ok { IfOk result (λ p. Lists p
        (cross (views m.entry.lasts.items) (views m.entry.firsts.items)) done
        (views m.entry.firsts.items)
        (without (views m.entry.lasts.items) (views m.entry.firsts.items) ++ views m.entry.firsts.items)) }
    ensures err { IfErr result (λ e. Fails e (cross (views m.entry.lasts.items) (views m.entry.firsts.items))) }
{
    let index = Firsts::new(alloc).followed(&m.firsts)?;
    let index = index.apart(&m.lasts)?;
    let Part { firsts, lasts, .. } = m;
    let lasts = joined(index.others(alloc, &lasts)?, &firsts)?;
    Ok(Part {
        done,
        firsts,
        lasts,
    })
}

// A list of one token.
fn only<'a>(alloc: Global, token: Token<'a>) -> Result<Vec<Token<'a>>, AllocError>
    ensures { IfOk result (λ v. views v.items ≡ token_view token.entry ∷ []) }
{
    let mut all = Vec::new(alloc);
    all.push(token)?;
    Ok(all)
}

/// The tokens of a term that can come first, and those that can come after its last, unless two tokens of one name can
/// come at one place.
#[cycle(scan)]
pub fn scan<'a>(alloc: Global, term: &'a Term) -> Result<Part<'a>, ScanError<'a>>
    ensures ok { IfOk result (λ p. IsScan p (view term.now)) }
    ensures err { IfErr result (λ e. Fails e (clash (view term.now))) }
{
    match term {
        Term::Empty => Ok(Part {
            done: true,
            firsts: Vec::new(alloc),
            lasts: Vec::new(alloc),
        }),
        Term::Name(number, name) => Ok(Part {
            done: false,
            firsts: only(
                alloc,
                Token {
                    number: *number,
                    name: Some(name),
                },
            )?,
            lasts: Vec::new(alloc),
        }),
        Term::Pcdata(number) => {
            let token = Token {
                number: *number,
                name: None,
            };
            Ok(Part {
                done: true,
                firsts: only(alloc, token)?,
                lasts: only(alloc, token)?,
            })
        }
        Term::Seq(members) => scan_in_order(alloc, members),
        Term::Or(members) => scan_of_some(alloc, members),
        Term::And(members) => {
            let all = scan_among(alloc, members)?;
            let Among { firsts, lasts, .. } = all;
            let Firsts { tokens, .. } = firsts;
            Ok(Part {
                done: term.finished(),
                firsts: tokens,
                lasts,
            })
        }
        Term::Opt(member) => {
            let Part { firsts, lasts, .. } = scan(alloc, member)?;
            Ok(Part {
                done: true,
                firsts,
                lasts,
            })
        }
        Term::Plus(member) => {
            let part = scan(alloc, member)?;
            let done = part.done;
            repeated(alloc, part, done)
        }
        Term::Rep(member) => {
            let part = scan(alloc, member)?;
            repeated(alloc, part, true)
        }
        Term::Member(_, _) => Ok(Part {
            done: term.finished(),
            firsts: Vec::new(alloc),
            lasts: Vec::new(alloc),
        }),
        Term::Round(_, _) => Ok(Part {
            done: term.finished(),
            firsts: Vec::new(alloc),
            lasts: Vec::new(alloc),
        }),
    }
}

#[cycle(scan)]
fn scan_in_order<'a>(alloc: Global, members: &'a [Term]) -> Result<Part<'a>, ScanError<'a>>
    ensures ok { IfOk result (λ p. IsScanInOrder p (terms (map view members.now))) }
    ensures err { IfErr result (λ e. Fails e (clash_in_order (terms (map view members.now)))) }
{
    let mut rest = Rest {
        done: true,
        firsts: Firsts::new(alloc),
        lasts: Vec::new(alloc),
    };
    let mut head = Vec::new(alloc);
    for i in (0..members.len()).rev() {
        let part = scan(alloc, &members[i])?;
        rest = before(alloc, &part, &head, rest)?;
        let Part { firsts, .. } = part;
        head = firsts;
    }
    let Rest {
        done,
        firsts,
        lasts,
    } = rest;
    let Firsts { tokens, .. } = firsts;
    Ok(Part {
        done,
        firsts: tokens,
        lasts,
    })
}

#[cycle(scan)]
fn scan_of_some<'a>(alloc: Global, members: &'a [Term]) -> Result<Part<'a>, ScanError<'a>>
    ensures ok { IfOk result (λ p. IsScanOfSome p (terms (map view members.now))) }
    ensures err { IfErr result (λ e. Fails e (clash_apart (terms (map view members.now)))) }
{
    let mut rest = Rest {
        done: false,
        firsts: Firsts::new(alloc),
        lasts: Vec::new(alloc),
    };
    for i in (0..members.len()).rev() {
        let part = scan(alloc, &members[i])?;
        rest = beside(&part, rest)?;
    }
    let Rest {
        done,
        firsts,
        lasts,
    } = rest;
    let Firsts { tokens, .. } = firsts;
    Ok(Part {
        done,
        firsts: tokens,
        lasts,
    })
}

#[cycle(scan)]
fn scan_among<'a>(alloc: Global, members: &'a [Term]) -> Result<Among<'a>, ScanError<'a>>
    ensures ok { IfOk result (λ p. IsScanAmong p (terms (map view members.now))) }
    ensures err { IfErr result (λ e. Fails e (clash_among (terms (map view members.now)))) }
{
    let mut rest = Among {
        firsts: Firsts::new(alloc),
        ends: Firsts::new(alloc),
        lasts: Vec::new(alloc),
    };
    for i in (0..members.len()).rev() {
        let part = scan(alloc, &members[i])?;
        rest = among(&part, rest)?;
    }
    Ok(rest)
}
