// The concrete syntax of a document.
ghost use Rattle.std.specs.Prelude.{◌≡◌, IfOk};
ghost use Rattle.sgml_syntax.specs.Implied.{implied_syntax};

use sgml_text::{Memory, NameSet, Text};
use std::alloc::Global;

/// The quantities that are counted, each the greatest count that is allowed (13.4.8).
#[derive(Clone, Copy, Debug, PartialEq, Eq)]
pub struct Quantities {
    /// Attribute names and tokens of one list.
    pub attcnt: u32,
    /// Open entities besides the document.
    pub entlvl: u32,
    /// Tokens of one group.
    pub grpcnt: u32,
    /// Tokens of a model group with all groups in it.
    pub grpgtcnt: u32,
    /// Levels of nested groups.
    pub grplvl: u32,
    /// Bytes of a literal after interpretation.
    pub litlen: u32,
    /// Bytes of a name.
    pub namelen: u32,
    /// Bytes of a processing instruction.
    pub pilen: u32,
    /// Open elements.
    pub taglvl: u32,
}

/// The concrete syntax and the features of a document. Delimiters are those of the reference
/// syntax.
#[derive(Debug, Drop)]
pub struct Syntax {
    /// Whether tags may be left out (OMITTAG).
    pub omittag: bool,
    /// Whether tags may be short (SHORTTAG).
    pub shorttag: bool,
    /// Whether names other than entity names are folded (NAMECASE GENERAL).
    pub general_fold: bool,
    /// Whether entity names are folded (NAMECASE ENTITY).
    pub entity_fold: bool,
    /// What names have besides letters and digits (NAMING).
    pub names: NameSet,
    /// Whether the short references of the reference syntax are there (SHORTREF).
    pub shortrefs: bool,
    pub quantities: Quantities,
    /// The application's text (APPINFO), if there is one.
    pub appinfo: Option<Text>,
}

/// The syntax of a document for which no SGML declaration is there: the reference syntax with
/// OMITTAG and SHORTTAG, and wider quantities (profile).
pub fn implied() -> Syntax
    ensures { result ≡ implied_syntax }
{
    Syntax {
        omittag: true,
        shorttag: true,
        general_fold: true,
        entity_fold: false,
        names: NameSet::reference(),
        shortrefs: true,
        quantities: Quantities {
            attcnt: 1000,
            entlvl: 100,
            grpcnt: 1000,
            grpgtcnt: 4000,
            grplvl: 100,
            litlen: 24000,
            namelen: 256,
            pilen: 24000,
            taglvl: 256,
        },
        appinfo: None,
    }
}

impl Syntax {
    /// The same syntax in memory of its own.
    pub fn copy(&self, alloc: Global) -> Result<Syntax, Memory>
        ensures { IfOk result (λ copy. copy ≡ self.now) }
    {
        let appinfo = copied_text(alloc, &self.appinfo)?;
        Ok(Syntax {
            omittag: self.omittag,
            shorttag: self.shorttag,
            general_fold: self.general_fold,
            entity_fold: self.entity_fold,
            names: self.names,
            shortrefs: self.shortrefs,
            quantities: self.quantities,
            appinfo,
        })
    }
}

fn copied_text(alloc: Global, text: &Option<Text>) -> Result<Option<Text>, Memory>
    ensures { IfOk result (λ copy. copy ≡ text.now) }
{
    match text {
        Some(text) => Ok(Some(text.copy(alloc)?)),
        None => Ok(None),
    }
}
