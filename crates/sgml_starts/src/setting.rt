// Current values.
ghost use Rattle.std.specs.Prelude.{◌≡◌, ◌<◌, ℕ, true, length, IfSome, OnOk, OnErr};
ghost use Rattle.sgml_dtd.specs.dtd_elements.Types.{types};
ghost use Rattle.sgml_starts.specs.Starts.{list_for};
ghost use Rattle.sgml_starts.specs.Filled.{is_among};
ghost use Rattle.sgml_starts.specs.Setting.{SetsAll, SetsAllIn, IsSetTo};

use sgml_attr::{AttrValue, Currents};
use sgml_dtd::Dtd;
use sgml_text::Memory;
use std::alloc::Global;

/// Sets the values of these attributes of the list of an element type, all or none.
#[inline(always)]
pub(crate) fn set_all(
    alloc: Global,
    dtd: &Dtd,
    element: u32,
    attributes: &[u32],
    values: &[AttrValue],
    currents: &mut Currents,
) -> Result<(), Memory>
    requires element { element < length (types dtd.now.elements) }
    requires lists { length currents.old ≡ length dtd.now.lists }
    requires within { (i : ℕ) → is_among i attributes.now ≡ true → i < length values.now }
    ensures ok { OnOk result (SetsAllIn (list_for dtd.now element) currents.old currents.new attributes.now values.now) }
    ensures err { OnErr result (currents.new ≡ currents.old) }
{
    if attributes.is_empty() {
        return Ok(());
    }
    set_some(alloc, dtd.list(element), attributes, values, currents)
}

// The same of a list or of none.
#[inline(never)]
fn set_some(
    alloc: Global,
    list: Option<u32>,
    attributes: &[u32],
    values: &[AttrValue],
    currents: &mut Currents,
) -> Result<(), Memory>
    requires list { IfSome list (λ n. n < length currents.old) }
    requires within { (i : ℕ) → is_among i attributes.now ≡ true → i < length values.now }
    ensures ok { OnOk result (SetsAllIn list currents.old currents.new attributes.now values.now) }
    ensures err { OnErr result (currents.new ≡ currents.old) }
{
    match list {
        Some(list) => set_in_list(alloc, list, attributes, values, currents),
        None => Ok(()),
    }
}

// The same of a list.
fn set_in_list(
    alloc: Global,
    list: u32,
    attributes: &[u32],
    values: &[AttrValue],
    currents: &mut Currents,
) -> Result<(), Memory>
    requires list { list < length currents.old }
    requires within { (i : ℕ) → is_among i attributes.now ≡ true → i < length values.now }
    ensures ok { OnOk result (SetsAll currents.old currents.new list attributes.now values.now) }
    ensures err { OnErr result (currents.new ≡ currents.old) }
{
    match attributes {
        [] => Ok(()),
        [one] => set_one(alloc, list, *one, values, currents),
        _ => set_several(alloc, list, attributes, values, currents),
    }
}

// The same of several.
#[inline(never)]
fn set_several(
    alloc: Global,
    list: u32,
    attributes: &[u32],
    values: &[AttrValue],
    currents: &mut Currents,
) -> Result<(), Memory>
    requires list { list < length currents.old }
    requires within { (i : ℕ) → is_among i attributes.now ≡ true → i < length values.now }
    ensures ok { OnOk result (SetsAll currents.old currents.new list attributes.now values.now) }
    ensures err { OnErr result (currents.new ≡ currents.old) }
{
    let mut after = currents.copy(alloc)?;
    for attribute in attributes {
        set_one(alloc, list, *attribute, values, &mut after)?;
    }
    *currents = after;
    Ok(())
}

#[inline(never)]
fn set_one(
    alloc: Global,
    list: u32,
    attribute: u32,
    values: &[AttrValue],
    currents: &mut Currents,
) -> Result<(), Memory>
    requires list { list < length currents.old }
    requires within { attribute < length values.now }
    ensures ok { OnOk result (IsSetTo currents.old currents.new list attribute values.now) }
    ensures err { OnErr result (currents.new ≡ currents.old) }
{
    let value = values[attribute as usize].copy(alloc)?;
    currents.set(list, attribute, value)
}
