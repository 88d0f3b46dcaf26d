// Changes of the innermost open elements, in places for all of them.
ghost use Rattle.std.specs.Prelude.{◌≡◌, ◌+◌, ◌-◌, ◌^◌, ◌<◌, ◌≤◌, ◌∷◌, All, Some, false, length, take, if◌then◌else◌};
ghost use Rattle.std.specs.Option.{option_copied};
ghost use Rattle.sgml_dtd_elements.specs.Laws.{AreDistinct};
ghost use Rattle.sgml_theory_reading.specs.Context.{begun_level};
ghost use Rattle.sgml_infer.specs.Tables.{name_at, IsNumber};
ghost use Rattle.sgml_infer.specs.Known.{AreKnown};
ghost use Rattle.sgml_infer.specs.Links.{last_link, AreLinked, last_net, KnowNet};
ghost use Rattle.sgml_infer.specs.Trees.{first_levels, taking, IsLevel, HasRoomIn, IsEnabled, AreSteps};

use crate::element;
use crate::exceptions::nearest;
use crate::known::{Known, known_at};
use crate::level::Level;
use crate::steps::Steps;
use sgml_dtd::Dtd;
use sgml_text::Name;

// The innermost of the open elements takes a token, where its model does.
#[inline(always)]
pub(crate) fn take_token(dtd: &Dtd, levels: &mut [Level], depth: usize, token: Option<&Name>)
    requires depth { depth ≤ length levels.old }
    requires levels { All (IsLevel dtd.now) (take depth levels.old) }
    requires linked { AreLinked dtd.now (take depth levels.old) }
    requires net { KnowNet (take depth levels.old) }
    requires rooms { All (HasRoomIn dtd.now) levels.old }
    ensures taken { first_levels dtd.now depth levels.new
        ≡ taking (option_copied token.entry) (first_levels dtd.now depth levels.old) }
    ensures levels { All (IsLevel dtd.now) (take depth levels.new) }
    ensures linked { AreLinked dtd.now (take depth levels.new) }
    ensures net { KnowNet (take depth levels.new) }
    ensures rooms { All (HasRoomIn dtd.now) levels.new }
{
    if depth > 0 {
        let level = &mut levels[depth - 1];
        let position = level.position;
        let reached = element::advance(dtd, level.element, &mut level.state, position, token);
        level.position = reached;
    }
}

// The same, of a start.
#[inline(always)]
pub(crate) fn take_start(
    dtd: &Dtd,
    known: &[Known],
    steps: &mut Steps,
    levels: &mut [Level],
    depth: usize,
    number: u32,
)
    requires depth { depth ≤ length levels.old }
    requires number { IsNumber dtd.now number }
    requires levels { All (IsLevel dtd.now) (take depth levels.old) }
    requires linked { AreLinked dtd.now (take depth levels.old) }
    requires net { KnowNet (take depth levels.old) }
    requires rooms { All (HasRoomIn dtd.now) levels.old }
    requires steps { AreSteps dtd.now steps.old }
    requires known { AreKnown dtd.now known.now }
    ensures taken { first_levels dtd.now depth levels.new
        ≡ taking (Some (name_at dtd.now number)) (first_levels dtd.now depth levels.old) }
    ensures levels { All (IsLevel dtd.now) (take depth levels.new) }
    ensures linked { AreLinked dtd.now (take depth levels.new) }
    ensures net { KnowNet (take depth levels.new) }
    ensures rooms { All (HasRoomIn dtd.now) levels.new }
    ensures steps { AreSteps dtd.now steps.new }
{
    if depth > 0 {
        let level = &mut levels[depth - 1];
        let position = level.position;
        let reached = element::advance_start(
            dtd,
            known,
            steps,
            level.element,
            &mut level.state,
            position,
            number,
        );
        level.position = reached;
    }
}

// How many elements are open up to the nearest one with exceptions, where one begins that has some or
// has none.
#[inline(always)]
fn link(levels: &[Level], depth: usize, has_exceptions: bool) -> u32
    requires depth { depth < length levels.now }
    requires few { length levels.now < 2 ^ 32 }
    requires within { last_link 0 (take depth levels.now) ≤ depth }
    ensures { result ≡ (if has_exceptions then depth + 1 else last_link 0 (take depth levels.now)) }
{
    if has_exceptions {
        return depth as u32 + 1;
    }
    nearest(levels, depth) as u32
}

// An element begins inside the open ones.
#[inline(always)]
pub(crate) fn begin(dtd: &Dtd, known: &[Known], levels: &mut [Level], depth: usize, element: u32)
    requires distinct { AreDistinct dtd.now.elements }
    requires depth { depth < length levels.old }
    requires few { length levels.old < 2 ^ 32 }
    requires number { IsNumber dtd.now element }
    requires known { AreKnown dtd.now known.now }
    requires levels { All (IsLevel dtd.now) (take depth levels.old) }
    requires linked { AreLinked dtd.now (take depth levels.old) }
    requires net { KnowNet (take depth levels.old) }
    requires rooms { All (HasRoomIn dtd.now) levels.old }
    ensures begun { first_levels dtd.now (depth + 1) levels.new
        ≡ begun_level dtd.now (name_at dtd.now element) false ∷ first_levels dtd.now depth levels.old }
    ensures levels { All (IsLevel dtd.now) (take (depth + 1) levels.new) }
    ensures linked { AreLinked dtd.now (take (depth + 1) levels.new) }
    ensures net { KnowNet (take (depth + 1) levels.new) }
    ensures rooms { All (HasRoomIn dtd.now) levels.new }
{
    let excepted = link(levels, depth, known_at(known, element).has_exceptions);
    let within_net = in_net(levels, depth);
    let level = &mut levels[depth];
    element::restart(dtd, element, &mut level.state);
    level.element = element;
    level.position = 0;
    level.slash = false;
    level.within_net = within_net;
    level.excepted = excepted;
}

// The innermost of the open elements enabled NET.
pub(crate) fn enable_net(levels: &mut [Level], depth: usize)
    requires places { depth ≤ length levels.old }
    requires depth { 0 < depth }
    ensures { IsEnabled levels.old levels.new (depth - 1) }
{
    let level = &mut levels[depth - 1];
    level.slash = true;
    level.within_net = true;
}

// Whether one of the first so many open elements enabled NET.
#[inline(always)]
pub(crate) fn in_net(levels: &[Level], depth: usize) -> bool
    requires { depth ≤ length levels.now }
    ensures { result ≡ last_net false (take depth levels.now) }
{
    depth > 0 && levels[depth - 1].within_net
}
