// What a declaration tells, as far as it is read.
ghost use Rattle.std.specs.Prelude.{◌≡◌, OnOk, min, ◌-◌, ◌^◌};
ghost use Rattle.sgml_sgmldecl.specs.Heard.{tell, noted, limit_set, quantity_of, number_value, marks_of, contains, spelled_public, start};

use crate::feature::Feature;
use crate::item::same;
use crate::row::Tells;
use sgml_text::{Memory, NameSet, Text};
use std::alloc::Global;

/// A quantity that is counted (13.4.8).
#[derive(Clone, Copy)]
pub enum Quantity {
    Attcnt,
    Entlvl,
    Grpcnt,
    Grpgtcnt,
    Grplvl,
    Litlen,
    Namelen,
    Pilen,
    Taglvl,
}

/// The number of a quantity, and its place; of one without an entry the reference value, at 0.
#[derive(Clone, Copy)]
pub struct Limit {
    pub number: u64,
    pub at: u64,
}

/// The numbers of the quantities that are counted.
#[derive(Clone, Copy)]
pub struct Limits {
    pub attcnt: Limit,
    pub entlvl: Limit,
    pub grpcnt: Limit,
    pub grpgtcnt: Limit,
    pub grplvl: Limit,
    pub litlen: Limit,
    pub namelen: Limit,
    pub pilen: Limit,
    pub taglvl: Limit,
}

/// The first places that put features out of scope.
#[derive(Clone, Copy)]
pub struct Outs {
    pub datatag: Option<u64>,
    pub rank: Option<u64>,
    pub link: Option<u64>,
    pub concur: Option<u64>,
    pub subdoc: Option<u64>,
    pub other: Option<u64>,
}

/// What a declaration tells.
#[derive(Drop)]
pub struct Heard {
    pub omittag: bool,
    pub shorttag: bool,
    pub general_fold: bool,
    pub entity_fold: bool,
    pub shortrefs: bool,
    pub names: NameSet,
    pub limits: Limits,
    /// The quantity whose number is due, if it is one that is counted.
    pub named: Option<Quantity>,
    pub outs: Outs,
    pub appinfo: Option<Text>,
}

/// What is heard before anything is told: the reference concrete syntax.
pub fn start() -> Heard
    ensures { result ≡ start }
{
    Heard {
        omittag: false,
        shorttag: false,
        general_fold: true,
        entity_fold: false,
        shortrefs: true,
        names: NameSet::reference(),
        limits: Limits {
            attcnt: Limit { number: 40, at: 0 },
            entlvl: Limit { number: 16, at: 0 },
            grpcnt: Limit { number: 32, at: 0 },
            grpgtcnt: Limit { number: 96, at: 0 },
            grplvl: Limit { number: 16, at: 0 },
            litlen: Limit { number: 240, at: 0 },
            namelen: Limit { number: 8, at: 0 },
            pilen: Limit { number: 240, at: 0 },
            taglvl: Limit { number: 24, at: 0 },
        },
        named: None,
        outs: Outs {
            datatag: None,
            rank: None,
            link: None,
            concur: None,
            subdoc: None,
            other: None,
        },
        appinfo: None,
    }
}

/// Hears what the item at this place tells, whose text is this.
pub fn tell(
    alloc: Global,
    heard: &mut Heard,
    tells: Tells,
    at: u64,
    word: &[u8],
) -> Result<(), Memory>
    ensures { OnOk result (heard.new ≡ tell tells at word.now heard.old) }
{
    match tells {
        Tells::Nothing => Ok(()),
        Tells::Out(feature) => {
            heard.outs = noted(feature, at, heard.outs);
            Ok(())
        }
        Tells::Omittag(on) => {
            heard.omittag = on;
            Ok(())
        }
        Tells::Shorttag(on) => {
            heard.shorttag = on;
            Ok(())
        }
        Tells::GeneralFold(on) => {
            heard.general_fold = on;
            Ok(())
        }
        Tells::EntityFold(on) => {
            heard.entity_fold = on;
            Ok(())
        }
        Tells::Shortrefs(on) => {
            heard.shortrefs = on;
            Ok(())
        }
        Tells::StartMarks => {
            heard.names.start = marks_of(word);
            Ok(())
        }
        Tells::MoreMarks => {
            heard.names.more = marks_of(word);
            Ok(())
        }
        Tells::QuantityName => {
            heard.named = quantity_of(word);
            Ok(())
        }
        Tells::QuantityNumber => {
            heard.limits = limit_set(heard.limits, heard.named, number_of(word), at);
            Ok(())
        }
        Tells::PublicSyntax => {
            hear_public(heard, at, word);
            Ok(())
        }
        Tells::Appinfo => {
            heard.appinfo = Some(Text::of(word.to_vec(alloc)?));
            Ok(())
        }
    }
}

fn hear_public(heard: &mut Heard, at: u64, word: &[u8])
    ensures { heard.new ≡ spelled_public at word.now heard.old }
{
    if same(word, b"ISO 8879:1986//SYNTAX Reference//EN")
        || same(word, b"ISO 8879-1986//SYNTAX Reference//EN")
    {
        heard.shortrefs = true;
    } else if same(word, b"ISO 8879:1986//SYNTAX Core//EN")
        || same(word, b"ISO 8879-1986//SYNTAX Core//EN")
    {
        heard.shortrefs = false;
    } else {
        heard.outs = noted(Feature::Other, at, heard.outs);
    }
}

/// The places with one more: of one feature the first holds.
fn noted(feature: Feature, at: u64, outs: Outs) -> Outs
    ensures { result ≡ noted feature at outs }
{
    match feature {
        Feature::Datatag => Outs {
            datatag: outs.datatag.or(Some(at)),
            ..outs
        },
        Feature::Rank => Outs {
            rank: outs.rank.or(Some(at)),
            ..outs
        },
        Feature::Link => Outs {
            link: outs.link.or(Some(at)),
            ..outs
        },
        Feature::Concur => Outs {
            concur: outs.concur.or(Some(at)),
            ..outs
        },
        Feature::Subdoc => Outs {
            subdoc: outs.subdoc.or(Some(at)),
            ..outs
        },
        Feature::Other => Outs {
            other: outs.other.or(Some(at)),
            ..outs
        },
    }
}

/// The limits with another number of a quantity.
fn limit_set(limits: Limits, named: Option<Quantity>, number: u64, at: u64) -> Limits
    ensures { result ≡ limit_set limits named number at }
{
    let limit = Limit { number, at };
    match named {
        None => limits,
        Some(Quantity::Attcnt) => Limits {
            attcnt: limit,
            ..limits
        },
        Some(Quantity::Entlvl) => Limits {
            entlvl: limit,
            ..limits
        },
        Some(Quantity::Grpcnt) => Limits {
            grpcnt: limit,
            ..limits
        },
        Some(Quantity::Grpgtcnt) => Limits {
            grpgtcnt: limit,
            ..limits
        },
        Some(Quantity::Grplvl) => Limits {
            grplvl: limit,
            ..limits
        },
        Some(Quantity::Litlen) => Limits {
            litlen: limit,
            ..limits
        },
        Some(Quantity::Namelen) => Limits {
            namelen: limit,
            ..limits
        },
        Some(Quantity::Pilen) => Limits {
            pilen: limit,
            ..limits
        },
        Some(Quantity::Taglvl) => Limits {
            taglvl: limit,
            ..limits
        },
    }
}

/// The counted quantity of this name, which is in upper case.
fn quantity_of(name: &[u8]) -> Option<Quantity>
    ensures { result ≡ quantity_of name.now }
{
    if same(name, b"ATTCNT") {
        Some(Quantity::Attcnt)
    } else if same(name, b"ENTLVL") {
        Some(Quantity::Entlvl)
    } else if same(name, b"GRPCNT") {
        Some(Quantity::Grpcnt)
    } else if same(name, b"GRPGTCNT") {
        Some(Quantity::Grpgtcnt)
    } else if same(name, b"GRPLVL") {
        Some(Quantity::Grplvl)
    } else if same(name, b"LITLEN") {
        Some(Quantity::Litlen)
    } else if same(name, b"NAMELEN") {
        Some(Quantity::Namelen)
    } else if same(name, b"PILEN") {
        Some(Quantity::Pilen)
    } else if same(name, b"TAGLVL") {
        Some(Quantity::Taglvl)
    } else {
        None
    }
}

/// The number of these digits, or 2^64 - 1 where it is more.
fn number_of(digits: &[u8]) -> u64
    ensures { result ≡ min (number_value digits.now) (2 ^ 64 - 1) }
{
    let mut number: u64 = 0;
    for b in digits {
        number = number
            .saturating_mul(10)
            .saturating_add(u64::from(b.saturating_sub(48)));
    }
    number
}

/// Which of `-`, `.`, `_` and `:` are there.
fn marks_of(word: &[u8]) -> [bool; 4]
    ensures { result ≡ marks_of word.now }
{
    [
        contains(word, b'-'),
        contains(word, b'.'),
        contains(word, b'_'),
        contains(word, b':'),
    ]
}

fn contains(word: &[u8], b: u8) -> bool
    ensures { result ≡ contains word.now b }
{
    for w in word {
        if *w == b {
            return true;
        }
    }
    false
}
