// What is due in an SGML declaration.

/// What is due at a place of an SGML declaration.
#[derive(Clone, Copy)]
pub enum Due {
    /// The literal after `<!SGML`.
    Heading,
    /// `CHARSET`.
    Charset,
    /// `BASESET` of the document character set.
    DocumentBase,
    /// The public identifier of a base set of the document character set.
    DocumentBaseName,
    /// `DESCSET` of the document character set.
    DocumentDescset,
    /// The first described character number of a base set of the document character set.
    DocumentFirst,
    /// The number of characters of a description of the document character set.
    DocumentCount,
    /// What described characters of the document character set are.
    DocumentMeaning,
    /// What follows a description of the document character set.
    DocumentNext,
    /// `PUBLIC` or `SGMLREF` of the capacity set.
    Capacity,
    /// The public identifier of the capacity set.
    CapacityName,
    /// The name of a capacity, or `SCOPE`.
    CapacityList,
    /// The number of a capacity.
    CapacityNumber,
    /// `SCOPE`.
    Scope,
    /// `DOCUMENT` or `INSTANCE`.
    ScopeValue,
    /// `SYNTAX`.
    Syntax,
    /// `PUBLIC`, or `SHUNCHAR` of a declared syntax.
    SyntaxForm,
    /// The public identifier of the syntax.
    SyntaxName,
    /// `FEATURES`, or `SWITCHES`.
    SyntaxNext,
    /// The character number that is switched.
    SwitchedFrom,
    /// The character number that it is switched to.
    SwitchedTo,
    /// `FEATURES`, or the next character number that is switched.
    SwitchesNext,
    /// What is shunned.
    Shunned,
    /// One more number that is shunned, or `BASESET`.
    ShunnedNext,
    /// `BASESET` of the syntax-reference character set.
    SyntaxBase,
    /// The public identifier of a base set of the syntax-reference character set.
    SyntaxBaseName,
    /// `DESCSET` of the syntax-reference character set.
    SyntaxDescset,
    /// The first described character number of a base set of the syntax-reference character set.
    SyntaxFirst,
    /// The number of characters of a description of the syntax-reference character set.
    SyntaxCount,
    /// What described characters of the syntax-reference character set are.
    SyntaxMeaning,
    /// What follows a description of the syntax-reference character set.
    SyntaxSetNext,
    /// `RE`.
    RecordEnd,
    /// The number of RE.
    RecordEndNumber,
    /// `RS`.
    RecordStart,
    /// The number of RS.
    RecordStartNumber,
    /// `SPACE`.
    Space,
    /// The number of SPACE.
    SpaceNumber,
    /// `TAB`.
    Tab,
    /// `SEPCHAR`.
    TabClass,
    /// The number of TAB.
    TabNumber,
    /// `NAMING`.
    Naming,
    /// `LCNMSTRT`.
    LowerStart,
    /// What begins names, in lower case.
    LowerStartMarks,
    /// `UCNMSTRT`.
    UpperStart,
    /// The same in upper case.
    UpperStartMarks,
    /// `LCNMCHAR`.
    LowerMore,
    /// What goes on names, in lower case.
    LowerMoreMarks,
    /// `UCNMCHAR`.
    UpperMore,
    /// The same in upper case.
    UpperMoreMarks,
    /// `NAMECASE`.
    Namecase,
    /// `GENERAL` of the case of names.
    General,
    /// Whether general names are folded.
    GeneralCase,
    /// `ENTITY`.
    Entity,
    /// Whether entity names are folded.
    EntityCase,
    /// `DELIM`.
    Delim,
    /// `GENERAL` of the delimiters.
    DelimGeneral,
    /// `SGMLREF` of the delimiters.
    DelimSet,
    /// `SHORTREF`.
    Shortref,
    /// Which short references there are.
    ShortrefSet,
    /// `NAMES`.
    Names,
    /// `SGMLREF` of the reserved names.
    NamesSet,
    /// `QUANTITY`.
    Quantity,
    /// `SGMLREF` of the quantities.
    QuantitySet,
    /// The name of a quantity, or `FEATURES`.
    QuantityList,
    /// The number of a quantity.
    QuantityNumber,
    /// `MINIMIZE`.
    Minimize,
    /// `DATATAG`.
    Datatag,
    /// Whether DATATAG is used.
    DatatagValue,
    /// `OMITTAG`.
    Omittag,
    /// Whether tags may be omitted.
    OmittagValue,
    /// `RANK`.
    Rank,
    /// Whether RANK is used.
    RankValue,
    /// `SHORTTAG`.
    Shorttag,
    /// Whether tags may be short.
    ShorttagValue,
    /// `LINK`.
    Link,
    /// `SIMPLE`.
    Simple,
    /// Whether simple links are used.
    SimpleValue,
    /// The number that follows `YES`.
    SimpleNumber,
    /// `IMPLICIT`.
    Implicit,
    /// Whether implicit links are used.
    ImplicitValue,
    /// `EXPLICIT`.
    Explicit,
    /// Whether explicit links are used.
    ExplicitValue,
    /// The number that follows `YES`.
    ExplicitNumber,
    /// `OTHER`.
    Other,
    /// `CONCUR`.
    Concur,
    /// Whether CONCUR is used.
    ConcurValue,
    /// The number that follows `YES`.
    ConcurNumber,
    /// `SUBDOC`.
    Subdoc,
    /// Whether SUBDOC is used.
    SubdocValue,
    /// The number that follows `YES`.
    SubdocNumber,
    /// `FORMAL`.
    Formal,
    /// Whether public identifiers are formal.
    FormalValue,
    /// `APPINFO`.
    Appinfo,
    /// `NONE`, or the application's text.
    AppinfoValue,
    /// The `>` that ends the declaration.
    End,
}
