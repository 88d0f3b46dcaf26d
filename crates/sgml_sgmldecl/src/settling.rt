// Which declarations are refused, and the syntax of the others.
ghost use Rattle.std.specs.Prelude.{◌≡◌, ◌<◌, ◌⊎◌, Err, IfOk, length};
ghost use Rattle.sgml_sgmldecl.specs.declared.feature.DeclError.TheVariants as errors;
ghost use Rattle.sgml_sgmldecl.specs.Refusing.{quantity_name, greatest, is_out, earlier, first_out, refusal_of, quantities_of, syntax_of, AreSmall, error_of, answer};

use crate::feature::{DeclError, Feature};
use crate::heard::{Heard, Limit, Limits, Quantity};
use sgml_syntax::{Quantities, Syntax};
use sgml_text::{Memory, Name};
use std::alloc::Global;

/// Why a declaration of the form is refused.
#[derive(Clone, Copy)]
pub enum Refused {
    FeatureOut(Feature, u64),
    QuantityOut(Quantity, Limit),
}

/// The syntax of a declaration that tells this and has so many bytes, or why it is refused.
pub fn settle(alloc: Global, heard: Heard, used: usize) -> Result<(Syntax, usize), DeclError>
    ensures { (result ≡ answer heard used) ⊎ (result ≡ Err errors.Memory) }
{
    match refusal_of(&heard) {
        None => Ok((syntax_of(heard), used)),
        Some(Refused::FeatureOut(which, at)) => Err(DeclError::FeatureOut { which, at }),
        Some(Refused::QuantityOut(quantity, limit)) => refuse_quantity(alloc, quantity, limit),
    }
}

fn refuse_quantity(
    alloc: Global,
    quantity: Quantity,
    limit: Limit,
) -> Result<(Syntax, usize), DeclError>
    ensures { (result ≡ Err (errors.QuantityOut (quantity_name quantity) limit.number limit.at)) ⊎ (result ≡ Err errors.Memory) }
{
    match name_of(alloc, quantity) {
        Ok(name) => Err(DeclError::QuantityOut {
            name,
            number: limit.number,
            at: limit.at,
        }),
        Err(_) => Err(DeclError::Memory),
    }
}

fn name_of(alloc: Global, quantity: Quantity) -> Result<Name, Memory>
    ensures { IfOk result (λ name. name ≡ quantity_name quantity) }
{
    Ok(Name::of(quantity_name(quantity).to_vec(alloc)?))
}

fn quantity_name(quantity: Quantity) -> &'static [u8]
    ensures name { result.now ≡ quantity_name quantity }
    ensures some { 0 < length result.now }
{
    match quantity {
        Quantity::Attcnt => b"ATTCNT",
        Quantity::Entlvl => b"ENTLVL",
        Quantity::Grpcnt => b"GRPCNT",
        Quantity::Grpgtcnt => b"GRPGTCNT",
        Quantity::Grplvl => b"GRPLVL",
        Quantity::Litlen => b"LITLEN",
        Quantity::Namelen => b"NAMELEN",
        Quantity::Pilen => b"PILEN",
        Quantity::Taglvl => b"TAGLVL",
    }
}

/// The greatest number that a declaration may set.
fn greatest(quantity: Quantity) -> u64
    ensures { result ≡ greatest quantity }
{
    match quantity {
        Quantity::Attcnt => 10000,
        Quantity::Entlvl => 1000,
        Quantity::Grpcnt => 10000,
        Quantity::Grpgtcnt => 4000,
        Quantity::Grplvl => 1000,
        Quantity::Litlen => 240000,
        Quantity::Namelen => 65536,
        Quantity::Pilen => 240000,
        Quantity::Taglvl => 2560,
    }
}

fn is_out(quantity: Quantity, limit: Limit) -> bool
    ensures { result ≡ is_out quantity limit }
{
    limit.number == 0 || greatest(quantity) < limit.number
}

/// Of two quantities that are out the one whose number comes first.
fn earlier(
    first: Option<(Quantity, Limit)>,
    quantity: Quantity,
    limit: Limit,
) -> Option<(Quantity, Limit)>
    ensures { result ≡ earlier first quantity limit }
{
    match first {
        None => {
            if is_out(quantity, limit) {
                Some((quantity, limit))
            } else {
                None
            }
        }
        Some(found) => {
            if is_out(quantity, limit) && limit.at < found.1.at {
                Some((quantity, limit))
            } else {
                Some(found)
            }
        }
    }
}

/// The first quantity in the text that is out.
fn first_out(limits: Limits) -> Option<(Quantity, Limit)>
    ensures { result ≡ first_out limits }
{
    let mut first = earlier(None, Quantity::Attcnt, limits.attcnt);
    first = earlier(first, Quantity::Entlvl, limits.entlvl);
    first = earlier(first, Quantity::Grpcnt, limits.grpcnt);
    first = earlier(first, Quantity::Grpgtcnt, limits.grpgtcnt);
    first = earlier(first, Quantity::Grplvl, limits.grplvl);
    first = earlier(first, Quantity::Litlen, limits.litlen);
    first = earlier(first, Quantity::Namelen, limits.namelen);
    first = earlier(first, Quantity::Pilen, limits.pilen);
    earlier(first, Quantity::Taglvl, limits.taglvl)
}

/// The first reason that holds.
fn refusal_of(heard: &Heard) -> Option<Refused>
    ensures { result ≡ refusal_of heard.now }
{
    if let Some(at) = heard.outs.datatag {
        return Some(Refused::FeatureOut(Feature::Datatag, at));
    }
    if let Some(at) = heard.outs.rank {
        return Some(Refused::FeatureOut(Feature::Rank, at));
    }
    if let Some(at) = heard.outs.link {
        return Some(Refused::FeatureOut(Feature::Link, at));
    }
    if let Some(at) = heard.outs.concur {
        return Some(Refused::FeatureOut(Feature::Concur, at));
    }
    if let Some(at) = heard.outs.subdoc {
        return Some(Refused::FeatureOut(Feature::Subdoc, at));
    }
    if let Some((quantity, limit)) = first_out(heard.limits) {
        return Some(Refused::QuantityOut(quantity, limit));
    }
    match heard.outs.other {
        Some(at) => Some(Refused::FeatureOut(Feature::Other, at)),
        None => None,
    }
}

fn syntax_of(heard: Heard) -> Syntax
    requires { AreSmall heard.limits }
    ensures { result ≡ syntax_of heard }
{
    Syntax {
        omittag: heard.omittag,
        shorttag: heard.shorttag,
        general_fold: heard.general_fold,
        entity_fold: heard.entity_fold,
        names: heard.names,
        shortrefs: heard.shortrefs,
        quantities: quantities_of(heard.limits),
        appinfo: heard.appinfo,
    }
}

fn quantities_of(limits: Limits) -> Quantities
    requires { AreSmall limits }
    ensures { result ≡ quantities_of limits }
{
    Quantities {
        attcnt: limits.attcnt.number as u32,
        entlvl: limits.entlvl.number as u32,
        grpcnt: limits.grpcnt.number as u32,
        grpgtcnt: limits.grpgtcnt.number as u32,
        grplvl: limits.grplvl.number as u32,
        litlen: limits.litlen.number as u32,
        namelen: limits.namelen.number as u32,
        pilen: limits.pilen.number as u32,
        taglvl: limits.taglvl.number as u32,
    }
}
