// The table of an SGML declaration's words: what may stand where a thing is due.
ghost use Rattle.std.specs.Prelude.{◌≡◌};
ghost use Rattle.sgml_sgmldecl.specs.Rows.{rows};

use crate::due::Due;
use crate::feature::Feature;
use crate::keyword::Keyword;
use crate::row::{Content, Item, ListEnd, Row, Tells};

/// The rows of what is due, first the one by which the declaration comes to its end.
pub fn rows(due: Due) -> &'static [Row]
    ensures { result.now ≡ rows due }
{
    match due {
        Due::Heading => &[Row {
            item: Item::Literal(Content::Heading),
            tells: Tells::Nothing,
            then: Due::Charset,
        }],
        Due::Charset => &[Row {
            item: Item::Word(Keyword::Charset),
            tells: Tells::Nothing,
            then: Due::DocumentBase,
        }],
        Due::DocumentBase => &[Row {
            item: Item::Word(Keyword::Baseset),
            tells: Tells::Nothing,
            then: Due::DocumentBaseName,
        }],
        Due::DocumentBaseName => &[Row {
            item: Item::Literal(Content::Any),
            tells: Tells::Nothing,
            then: Due::DocumentDescset,
        }],
        Due::DocumentDescset => &[Row {
            item: Item::Word(Keyword::Descset),
            tells: Tells::Nothing,
            then: Due::DocumentFirst,
        }],
        Due::DocumentFirst => &[Row {
            item: Item::Number,
            tells: Tells::Nothing,
            then: Due::DocumentCount,
        }],
        Due::DocumentCount => &[Row {
            item: Item::Number,
            tells: Tells::Nothing,
            then: Due::DocumentMeaning,
        }],
        Due::DocumentMeaning => &[
            Row {
                item: Item::Number,
                tells: Tells::Nothing,
                then: Due::DocumentNext,
            },
            Row {
                item: Item::Literal(Content::Any),
                tells: Tells::Nothing,
                then: Due::DocumentNext,
            },
            Row {
                item: Item::Word(Keyword::Unused),
                tells: Tells::Nothing,
                then: Due::DocumentNext,
            },
        ],
        Due::DocumentNext => &[
            Row {
                item: Item::Word(Keyword::Capacity),
                tells: Tells::Nothing,
                then: Due::Capacity,
            },
            Row {
                item: Item::Word(Keyword::Baseset),
                tells: Tells::Nothing,
                then: Due::DocumentBaseName,
            },
            Row {
                item: Item::Number,
                tells: Tells::Nothing,
                then: Due::DocumentCount,
            },
        ],
        Due::Capacity => &[
            Row {
                item: Item::Word(Keyword::Public),
                tells: Tells::Nothing,
                then: Due::CapacityName,
            },
            Row {
                item: Item::Word(Keyword::Sgmlref),
                tells: Tells::Nothing,
                then: Due::CapacityList,
            },
        ],
        Due::CapacityName => &[Row {
            item: Item::Literal(Content::Any),
            tells: Tells::Nothing,
            then: Due::Scope,
        }],
        Due::CapacityList => &[Row {
            item: Item::Name(ListEnd::Scope),
            tells: Tells::Nothing,
            then: Due::CapacityNumber,
        }],
        Due::CapacityNumber => &[Row {
            item: Item::Number,
            tells: Tells::Nothing,
            then: Due::CapacityList,
        }],
        Due::Scope => &[Row {
            item: Item::Word(Keyword::Scope),
            tells: Tells::Nothing,
            then: Due::ScopeValue,
        }],
        Due::ScopeValue => &[
            Row {
                item: Item::Word(Keyword::Document),
                tells: Tells::Nothing,
                then: Due::Syntax,
            },
            Row {
                item: Item::Word(Keyword::Instance),
                tells: Tells::Out(Feature::Other),
                then: Due::Syntax,
            },
        ],
        Due::Syntax => &[Row {
            item: Item::Word(Keyword::Syntax),
            tells: Tells::Nothing,
            then: Due::SyntaxForm,
        }],
        Due::SyntaxForm => &[
            Row {
                item: Item::Word(Keyword::Public),
                tells: Tells::Nothing,
                then: Due::SyntaxName,
            },
            Row {
                item: Item::Word(Keyword::Shunchar),
                tells: Tells::Nothing,
                then: Due::Shunned,
            },
        ],
        Due::SyntaxName => &[Row {
            item: Item::Literal(Content::Any),
            tells: Tells::PublicSyntax,
            then: Due::SyntaxNext,
        }],
        Due::SyntaxNext => &[
            Row {
                item: Item::Word(Keyword::Features),
                tells: Tells::Nothing,
                then: Due::Minimize,
            },
            Row {
                item: Item::Word(Keyword::Switches),
                tells: Tells::Out(Feature::Other),
                then: Due::SwitchedFrom,
            },
        ],
        Due::SwitchedFrom => &[Row {
            item: Item::Number,
            tells: Tells::Nothing,
            then: Due::SwitchedTo,
        }],
        Due::SwitchedTo => &[Row {
            item: Item::Number,
            tells: Tells::Nothing,
            then: Due::SwitchesNext,
        }],
        Due::SwitchesNext => &[
            Row {
                item: Item::Word(Keyword::Features),
                tells: Tells::Nothing,
                then: Due::Minimize,
            },
            Row {
                item: Item::Number,
                tells: Tells::Nothing,
                then: Due::SwitchedTo,
            },
        ],
        Due::Shunned => &[
            Row {
                item: Item::Word(Keyword::Baseset),
                tells: Tells::Nothing,
                then: Due::SyntaxBaseName,
            },
            Row {
                item: Item::Word(Keyword::None),
                tells: Tells::Nothing,
                then: Due::SyntaxBase,
            },
            Row {
                item: Item::Word(Keyword::Controls),
                tells: Tells::Nothing,
                then: Due::ShunnedNext,
            },
            Row {
                item: Item::Number,
                tells: Tells::Nothing,
                then: Due::ShunnedNext,
            },
        ],
        Due::ShunnedNext => &[
            Row {
                item: Item::Word(Keyword::Baseset),
                tells: Tells::Nothing,
                then: Due::SyntaxBaseName,
            },
            Row {
                item: Item::Number,
                tells: Tells::Nothing,
                then: Due::ShunnedNext,
            },
        ],
        Due::SyntaxBase => &[Row {
            item: Item::Word(Keyword::Baseset),
            tells: Tells::Nothing,
            then: Due::SyntaxBaseName,
        }],
        Due::SyntaxBaseName => &[Row {
            item: Item::Literal(Content::Any),
            tells: Tells::Nothing,
            then: Due::SyntaxDescset,
        }],
        Due::SyntaxDescset => &[Row {
            item: Item::Word(Keyword::Descset),
            tells: Tells::Nothing,
            then: Due::SyntaxFirst,
        }],
        Due::SyntaxFirst => &[Row {
            item: Item::Number,
            tells: Tells::Nothing,
            then: Due::SyntaxCount,
        }],
        Due::SyntaxCount => &[Row {
            item: Item::Number,
            tells: Tells::Nothing,
            then: Due::SyntaxMeaning,
        }],
        Due::SyntaxMeaning => &[
            Row {
                item: Item::Number,
                tells: Tells::Nothing,
                then: Due::SyntaxSetNext,
            },
            Row {
                item: Item::Literal(Content::Any),
                tells: Tells::Nothing,
                then: Due::SyntaxSetNext,
            },
            Row {
                item: Item::Word(Keyword::Unused),
                tells: Tells::Nothing,
                then: Due::SyntaxSetNext,
            },
        ],
        Due::SyntaxSetNext => &[
            Row {
                item: Item::Word(Keyword::Function),
                tells: Tells::Nothing,
                then: Due::RecordEnd,
            },
            Row {
                item: Item::Word(Keyword::Baseset),
                tells: Tells::Nothing,
                then: Due::SyntaxBaseName,
            },
            Row {
                item: Item::Number,
                tells: Tells::Nothing,
                then: Due::SyntaxCount,
            },
        ],
        Due::RecordEnd => &[Row {
            item: Item::Word(Keyword::Re),
            tells: Tells::Nothing,
            then: Due::RecordEndNumber,
        }],
        Due::RecordEndNumber => &[Row {
            item: Item::Word(Keyword::Thirteen),
            tells: Tells::Nothing,
            then: Due::RecordStart,
        }],
        Due::RecordStart => &[Row {
            item: Item::Word(Keyword::Rs),
            tells: Tells::Nothing,
            then: Due::RecordStartNumber,
        }],
        Due::RecordStartNumber => &[Row {
            item: Item::Word(Keyword::Ten),
            tells: Tells::Nothing,
            then: Due::Space,
        }],
        Due::Space => &[Row {
            item: Item::Word(Keyword::Space),
            tells: Tells::Nothing,
            then: Due::SpaceNumber,
        }],
        Due::SpaceNumber => &[Row {
            item: Item::Word(Keyword::ThirtyTwo),
            tells: Tells::Nothing,
            then: Due::Tab,
        }],
        Due::Tab => &[Row {
            item: Item::Word(Keyword::Tab),
            tells: Tells::Nothing,
            then: Due::TabClass,
        }],
        Due::TabClass => &[Row {
            item: Item::Word(Keyword::Sepchar),
            tells: Tells::Nothing,
            then: Due::TabNumber,
        }],
        Due::TabNumber => &[Row {
            item: Item::Word(Keyword::Nine),
            tells: Tells::Nothing,
            then: Due::Naming,
        }],
        Due::Naming => &[Row {
            item: Item::Word(Keyword::Naming),
            tells: Tells::Nothing,
            then: Due::LowerStart,
        }],
        Due::LowerStart => &[Row {
            item: Item::Word(Keyword::Lcnmstrt),
            tells: Tells::Nothing,
            then: Due::LowerStartMarks,
        }],
        Due::LowerStartMarks => &[Row {
            item: Item::Literal(Content::Marks),
            tells: Tells::StartMarks,
            then: Due::UpperStart,
        }],
        Due::UpperStart => &[Row {
            item: Item::Word(Keyword::Ucnmstrt),
            tells: Tells::Nothing,
            then: Due::UpperStartMarks,
        }],
        Due::UpperStartMarks => &[Row {
            item: Item::Literal(Content::SameMarks),
            tells: Tells::Nothing,
            then: Due::LowerMore,
        }],
        Due::LowerMore => &[Row {
            item: Item::Word(Keyword::Lcnmchar),
            tells: Tells::Nothing,
            then: Due::LowerMoreMarks,
        }],
        Due::LowerMoreMarks => &[Row {
            item: Item::Literal(Content::Marks),
            tells: Tells::MoreMarks,
            then: Due::UpperMore,
        }],
        Due::UpperMore => &[Row {
            item: Item::Word(Keyword::Ucnmchar),
            tells: Tells::Nothing,
            then: Due::UpperMoreMarks,
        }],
        Due::UpperMoreMarks => &[Row {
            item: Item::Literal(Content::SameMarks),
            tells: Tells::Nothing,
            then: Due::Namecase,
        }],
        Due::Namecase => &[Row {
            item: Item::Word(Keyword::Namecase),
            tells: Tells::Nothing,
            then: Due::General,
        }],
        Due::General => &[Row {
            item: Item::Word(Keyword::General),
            tells: Tells::Nothing,
            then: Due::GeneralCase,
        }],
        Due::GeneralCase => &[
            Row {
                item: Item::Word(Keyword::No),
                tells: Tells::GeneralFold(false),
                then: Due::Entity,
            },
            Row {
                item: Item::Word(Keyword::Yes),
                tells: Tells::GeneralFold(true),
                then: Due::Entity,
            },
        ],
        Due::Entity => &[Row {
            item: Item::Word(Keyword::Entity),
            tells: Tells::Nothing,
            then: Due::EntityCase,
        }],
        Due::EntityCase => &[
            Row {
                item: Item::Word(Keyword::No),
                tells: Tells::EntityFold(false),
                then: Due::Delim,
            },
            Row {
                item: Item::Word(Keyword::Yes),
                tells: Tells::EntityFold(true),
                then: Due::Delim,
            },
        ],
        Due::Delim => &[Row {
            item: Item::Word(Keyword::Delim),
            tells: Tells::Nothing,
            then: Due::DelimGeneral,
        }],
        Due::DelimGeneral => &[Row {
            item: Item::Word(Keyword::General),
            tells: Tells::Nothing,
            then: Due::DelimSet,
        }],
        Due::DelimSet => &[Row {
            item: Item::Word(Keyword::Sgmlref),
            tells: Tells::Nothing,
            then: Due::Shortref,
        }],
        Due::Shortref => &[Row {
            item: Item::Word(Keyword::Shortref),
            tells: Tells::Nothing,
            then: Due::ShortrefSet,
        }],
        Due::ShortrefSet => &[
            Row {
                item: Item::Word(Keyword::Sgmlref),
                tells: Tells::Shortrefs(true),
                then: Due::Names,
            },
            Row {
                item: Item::Word(Keyword::None),
                tells: Tells::Shortrefs(false),
                then: Due::Names,
            },
        ],
        Due::Names => &[Row {
            item: Item::Word(Keyword::Names),
            tells: Tells::Nothing,
            then: Due::NamesSet,
        }],
        Due::NamesSet => &[Row {
            item: Item::Word(Keyword::Sgmlref),
            tells: Tells::Nothing,
            then: Due::Quantity,
        }],
        Due::Quantity => &[Row {
            item: Item::Word(Keyword::Quantity),
            tells: Tells::Nothing,
            then: Due::QuantitySet,
        }],
        Due::QuantitySet => &[Row {
            item: Item::Word(Keyword::Sgmlref),
            tells: Tells::Nothing,
            then: Due::QuantityList,
        }],
        Due::QuantityList => &[Row {
            item: Item::Name(ListEnd::Features),
            tells: Tells::QuantityName,
            then: Due::QuantityNumber,
        }],
        Due::QuantityNumber => &[Row {
            item: Item::Number,
            tells: Tells::QuantityNumber,
            then: Due::QuantityList,
        }],
        Due::Minimize => &[Row {
            item: Item::Word(Keyword::Minimize),
            tells: Tells::Nothing,
            then: Due::Datatag,
        }],
        Due::Datatag => &[Row {
            item: Item::Word(Keyword::Datatag),
            tells: Tells::Nothing,
            then: Due::DatatagValue,
        }],
        Due::DatatagValue => &[
            Row {
                item: Item::Word(Keyword::No),
                tells: Tells::Nothing,
                then: Due::Omittag,
            },
            Row {
                item: Item::Word(Keyword::Yes),
                tells: Tells::Out(Feature::Datatag),
                then: Due::Omittag,
            },
        ],
        Due::Omittag => &[Row {
            item: Item::Word(Keyword::Omittag),
            tells: Tells::Nothing,
            then: Due::OmittagValue,
        }],
        Due::OmittagValue => &[
            Row {
                item: Item::Word(Keyword::No),
                tells: Tells::Omittag(false),
                then: Due::Rank,
            },
            Row {
                item: Item::Word(Keyword::Yes),
                tells: Tells::Omittag(true),
                then: Due::Rank,
            },
        ],
        Due::Rank => &[Row {
            item: Item::Word(Keyword::Rank),
            tells: Tells::Nothing,
            then: Due::RankValue,
        }],
        Due::RankValue => &[
            Row {
                item: Item::Word(Keyword::No),
                tells: Tells::Nothing,
                then: Due::Shorttag,
            },
            Row {
                item: Item::Word(Keyword::Yes),
                tells: Tells::Out(Feature::Rank),
                then: Due::Shorttag,
            },
        ],
        Due::Shorttag => &[Row {
            item: Item::Word(Keyword::Shorttag),
            tells: Tells::Nothing,
            then: Due::ShorttagValue,
        }],
        Due::ShorttagValue => &[
            Row {
                item: Item::Word(Keyword::No),
                tells: Tells::Shorttag(false),
                then: Due::Link,
            },
            Row {
                item: Item::Word(Keyword::Yes),
                tells: Tells::Shorttag(true),
                then: Due::Link,
            },
        ],
        Due::Link => &[Row {
            item: Item::Word(Keyword::Link),
            tells: Tells::Nothing,
            then: Due::Simple,
        }],
        Due::Simple => &[Row {
            item: Item::Word(Keyword::Simple),
            tells: Tells::Nothing,
            then: Due::SimpleValue,
        }],
        Due::SimpleValue => &[
            Row {
                item: Item::Word(Keyword::No),
                tells: Tells::Nothing,
                then: Due::Implicit,
            },
            Row {
                item: Item::Word(Keyword::Yes),
                tells: Tells::Out(Feature::Link),
                then: Due::SimpleNumber,
            },
        ],
        Due::SimpleNumber => &[Row {
            item: Item::Number,
            tells: Tells::Nothing,
            then: Due::Implicit,
        }],
        Due::Implicit => &[Row {
            item: Item::Word(Keyword::Implicit),
            tells: Tells::Nothing,
            then: Due::ImplicitValue,
        }],
        Due::ImplicitValue => &[
            Row {
                item: Item::Word(Keyword::No),
                tells: Tells::Nothing,
                then: Due::Explicit,
            },
            Row {
                item: Item::Word(Keyword::Yes),
                tells: Tells::Out(Feature::Link),
                then: Due::Explicit,
            },
        ],
        Due::Explicit => &[Row {
            item: Item::Word(Keyword::Explicit),
            tells: Tells::Nothing,
            then: Due::ExplicitValue,
        }],
        Due::ExplicitValue => &[
            Row {
                item: Item::Word(Keyword::No),
                tells: Tells::Nothing,
                then: Due::Other,
            },
            Row {
                item: Item::Word(Keyword::Yes),
                tells: Tells::Out(Feature::Link),
                then: Due::ExplicitNumber,
            },
        ],
        Due::ExplicitNumber => &[Row {
            item: Item::Number,
            tells: Tells::Nothing,
            then: Due::Other,
        }],
        Due::Other => &[Row {
            item: Item::Word(Keyword::Other),
            tells: Tells::Nothing,
            then: Due::Concur,
        }],
        Due::Concur => &[Row {
            item: Item::Word(Keyword::Concur),
            tells: Tells::Nothing,
            then: Due::ConcurValue,
        }],
        Due::ConcurValue => &[
            Row {
                item: Item::Word(Keyword::No),
                tells: Tells::Nothing,
                then: Due::Subdoc,
            },
            Row {
                item: Item::Word(Keyword::Yes),
                tells: Tells::Out(Feature::Concur),
                then: Due::ConcurNumber,
            },
        ],
        Due::ConcurNumber => &[Row {
            item: Item::Number,
            tells: Tells::Nothing,
            then: Due::Subdoc,
        }],
        Due::Subdoc => &[Row {
            item: Item::Word(Keyword::Subdoc),
            tells: Tells::Nothing,
            then: Due::SubdocValue,
        }],
        Due::SubdocValue => &[
            Row {
                item: Item::Word(Keyword::No),
                tells: Tells::Nothing,
                then: Due::Formal,
            },
            Row {
                item: Item::Word(Keyword::Yes),
                tells: Tells::Out(Feature::Subdoc),
                then: Due::SubdocNumber,
            },
        ],
        Due::SubdocNumber => &[Row {
            item: Item::Number,
            tells: Tells::Nothing,
            then: Due::Formal,
        }],
        Due::Formal => &[Row {
            item: Item::Word(Keyword::Formal),
            tells: Tells::Nothing,
            then: Due::FormalValue,
        }],
        Due::FormalValue => &[
            Row {
                item: Item::Word(Keyword::No),
                tells: Tells::Nothing,
                then: Due::Appinfo,
            },
            Row {
                item: Item::Word(Keyword::Yes),
                tells: Tells::Nothing,
                then: Due::Appinfo,
            },
        ],
        Due::Appinfo => &[Row {
            item: Item::Word(Keyword::Appinfo),
            tells: Tells::Nothing,
            then: Due::AppinfoValue,
        }],
        Due::AppinfoValue => &[
            Row {
                item: Item::Word(Keyword::None),
                tells: Tells::Nothing,
                then: Due::End,
            },
            Row {
                item: Item::Literal(Content::Any),
                tells: Tells::Appinfo,
                then: Due::End,
            },
        ],
        Due::End => &[Row {
            item: Item::End,
            tells: Tells::Nothing,
            then: Due::End,
        }],
    }
}
