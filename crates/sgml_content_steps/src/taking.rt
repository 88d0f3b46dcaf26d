// Taking a run that was judged.
ghost use Rattle.std.specs.Prelude.{◌≡◌, ◌+◌, ◌≤◌, length, vec_capacity};
ghost use Rattle.sgml_infer.specs.Visibles.{IsNumbered, IsJudged};
ghost use Rattle.sgml_content_steps.specs.Content.{IsContent};
ghost use Rattle.sgml_content_steps.specs.Steps.{HasRoomFor};
ghost use Rattle.sgml_content_steps.specs.Runs.{room_of};
ghost use Rattle.sgml_content_steps.specs.Taken.{TakesJudged};

use crate::content::Content;
use crate::run::Run;
use crate::run_telling::{take_ends, take_starts};
use sgml_events::Event;
use sgml_infer::Visible;
use sgml_text::Place;

/// Takes the run that was judged last before a visible piece at this place, and of that piece what it does to the open
/// elements; what stands inside them is as before the piece. It takes no memory. Since the run was judged, the values of
/// the piece itself may have been taken.
#[inline(always)]
pub fn take_run(
    content: &mut Content,
    place: Place,
    visible: Visible,
    run: Run,
    told: &mut Vec<Event>,
)
    requires content { IsContent content.old }
    requires number { IsNumbered content.old.kept.doctype visible }
    requires judged { IsJudged content.old.kept.doctype content.old.tree visible run.chain }
    requires values { length run.values.items ≡ length content.old.tree.starts.items }
    requires room { HasRoomFor (room_of run) told.old }
    ensures taken { TakesJudged content.old content.new place visible run told.old.items told.new.items }
    ensures kept { content.new.kept ≡ content.old.kept }
    ensures currents { content.new.currents ≡ content.old.currents }
    ensures few { length told.new.items ≤ length told.old.items + room_of run }
    ensures capacity { vec_capacity told.new ≡ vec_capacity told.old }
{
    let chain = run.chain;
    take_ends(&content.tree, chain.ends, &mut content.inside, told);
    take_starts(
        &content.kept.dtd,
        &content.tree,
        place,
        run.values,
        &mut content.inside,
        told,
    );
    content.tree.take_judged(&content.kept.dtd, visible, chain);
}
