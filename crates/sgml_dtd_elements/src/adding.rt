// A declaration that goes into the rows, the places and the table of names.
ghost use Rattle.std.specs.Prelude.{◌≡◌, ◌+◌, ◌<◌, ◌∷◌, ◌++◌, [], None, IfOk, IfErr, OnOk, OnErr, length, map, take};
ghost use Rattle.sgml_names.specs.Index.{table_limit};
ghost use Rattle.sgml_names.specs.Naming.{general_names};
ghost use Rattle.sgml_dtd_elements.specs.Naming.{with_names, is_twice};
ghost use Rattle.sgml_dtd_elements.specs.Folded.{folded, folded_content};
ghost use Rattle.sgml_dtd_elements.specs.Kept.{declared, form_of, IsRead, AreKept};
ghost use Rattle.sgml_dtd_elements.specs.Rows.{first_reason, IsAmbiguousContent, IsUnambiguousContent, content_reason};
ghost use Rattle.sgml_dtd_elements.specs.Errors.{IsFirstRefusal, IsRefusedFirst};

use crate::content::{Content, Exceptions};
use crate::judging::{content_of, has_long};
use crate::naming::enter_names;
use crate::places::push_places;
use crate::row::{Place, Row};
use sgml_decl_forms::{ContentForm, ElementBody, ElementDeclaration};
use sgml_names::{NameIndex, TABLE_LIMIT, general_names};
use sgml_syntax::Syntax;
use sgml_text::{Memory, Name, Reason, RefusalError};
use std::alloc::Global;

fn folded_exceptions(
    alloc: Global,
    syntax: &Syntax,
    body: &ElementBody,
) -> Result<Exceptions, Memory>
    ensures included { IfOk result (λ e. e.included ≡ general_names syntax.now body.now.included) }
    ensures excluded { IfOk result (λ e. e.excluded ≡ general_names syntax.now body.now.excluded) }
{
    let included = general_names(alloc, syntax, body.included.items())?;
    let excluded = general_names(alloc, syntax, body.excluded.items())?;
    Ok(Exceptions { included, excluded })
}

// Enters the names of a declaration, and gives what may stand in its elements. An error may leave
// some of the names entered.
fn entered(
    alloc: Global,
    syntax: &Syntax,
    index: &mut NameIndex,
    names: &[Name],
    form: &ContentForm,
) -> Result<Content, RefusalError>
    requires { length index.old + length names.now < table_limit }
    ensures front { take (length index.old) index.new ≡ index.old }
    ensures entered { OnOk result (index.new ≡ with_names index.old names.now) }
    ensures form { IfOk result (λ c. form_of c ≡ folded_content syntax.now form.now) }
    ensures read { IfOk result (λ c. IsRead c) }
    ensures unambiguous { OnOk result (IsUnambiguousContent (folded_content syntax.now form.now)) }
    ensures none { OnOk result (content_reason syntax.now form.now (is_twice index.old names.now) ≡ None) }
    ensures refused { IfErr result (IsFirstRefusal (content_reason syntax.now form.now (is_twice index.old names.now))
        (IsAmbiguousContent (folded_content syntax.now form.now))) }
{
    let new = enter_names(index, names)?;
    content_of(alloc, syntax, form, !new)
}

// Adds a declaration, or leaves all as it was.
pub(crate) fn add_declaration(
    alloc: Global,
    syntax: &Syntax,
    rows: &mut Vec<Row>,
    places: &mut Vec<Place>,
    index: &mut NameIndex,
    declaration: &ElementDeclaration,
) -> Result<(), RefusalError>
    requires { AreKept rows.old.items places.old.items index.old }
    ensures kept { AreKept rows.new.items places.new.items index.new }
    ensures none { OnOk result (first_reason syntax.now (map declared rows.old.items) declaration.now ≡ None) }
    ensures unambiguous { OnOk result (IsUnambiguousContent (folded syntax.now declaration.now).body.content) }
    ensures ok { OnOk result (map declared rows.new.items ≡ map declared rows.old.items ++ folded syntax.now declaration.now ∷ []) }
    ensures refused { IfErr result (IsRefusedFirst syntax.now (map declared rows.old.items) declaration.now) }
    ensures err { OnErr result (rows.new.items ≡ rows.old.items) }
{
    if has_long(syntax, declaration) {
        return Err(RefusalError::Refused(Reason::NameLength));
    }
    let names = general_names(alloc, syntax, declaration.names.items())?;
    let exceptions = folded_exceptions(alloc, syntax, &declaration.body)?;
    let count = names.items().len();
    if count >= TABLE_LIMIT - places.len() || rows.len() + 1 >= TABLE_LIMIT {
        return Err(RefusalError::Memory);
    }
    rows.reserve(1)?;
    places.reserve(count)?;
    let before = index.len();
    match entered(
        alloc,
        syntax,
        index,
        names.items(),
        &declaration.body.content,
    ) {
        Ok(content) => {
            push_places(places, rows.len() as u32, names.items());
            rows.push_reserved(Row {
                names,
                omits: declaration.omits,
                content,
                exceptions,
            });
            Ok(())
        }
        Err(error) => {
            index.truncate(before);
            Err(error)
        }
    }
}
