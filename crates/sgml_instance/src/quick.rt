// Plain tokens, one after another.
ghost use Rattle.std.specs.Prelude.{◌≡◌, ◌<◌, Bool};
ghost use Rattle.sgml_declared.specs.theory_standing.Next.{left_to_read};
ghost use Rattle.sgml_prolog_steps.specs.Found.{rest_in};
ghost use Rattle.sgml_content_tags.specs.sgml_content_steps.Content.{IsContent};
ghost use Rattle.sgml_content_tags.specs.sgml_content_steps.Plainly.{plain_state, IsScannedIn};
ghost use Rattle.sgml_content_references.specs.content_data.Alike.{TakesText};
ghost use Rattle.sgml_content_references.specs.Mapped.{mapped_state, TakesMapped};
ghost use Rattle.sgml_instance.specs.Quick.{RunsOn, mark_there, IsReach, TakesTag};

use crate::batches::ENOUGH;
use sgml_content_references::data::{look_around, try_begun_text, try_plain_text};
use sgml_content_references::try_mapped_text;
use sgml_content_tags::content_steps::{Content, scan_state};
use sgml_content_tags::{try_lone_end, try_start};
use sgml_declared::Options;
use sgml_delim::Mode;
use sgml_entity::Texts;
use sgml_events::Event;
use sgml_prolog_steps::unread;
use sgml_scan::ScanState;
use sgml_steps::Steps;
use std::alloc::Global;
use std::sync::ledger::Ledger;

/// What may stand next.
#[derive(Clone, Copy, Debug)]
pub(crate) enum Mark {
    Start,
    End,
    Other,
}

/// What of content is taken in runs.
#[derive(Clone, Copy, Debug)]
pub(crate) enum Reach {
    /// Text and tags.
    All,
    /// Tags alone, since text may hold NET.
    Tags,
    /// Tags, and text where a short reference map is in force.
    Mapped,
    Nothing,
}

/// Takes text, start-tags and end-tags that are a name alone, up to where something else stands, or events are enough;
/// where NET is tags alone, and where a short reference map is in force text up to a string that it names. What stands
/// there is to be taken by its step.
#[inline(never)]
pub(crate) fn run_plain<L: Ledger>(
    options: &Options,
    alloc: Global,
    content: &mut Content,
    texts: &Texts,
    steps: &mut Steps<L>,
    told: &mut Vec<Event>,
)
    requires content { IsContent content.old }
    ensures runs { (ended : Bool) → RunsOn options.now texts.now ended content.old content.new told.old.items told.new.items }
    ensures content { IsContent content.new }
{
    'turns: while told.len() < ENOUGH {
        let n = take_turn(options, alloc, content, texts, steps, told);
        if n == 0 {
            return;
        }
        steps.add(n);
    }
}

/// As far as it goes where content is scanned as it is there: how many bytes its last token has, or 0 where it goes no
/// further.
#[inline(always)]
fn take_turn<L: Ledger>(
    options: &Options,
    alloc: Global,
    content: &mut Content,
    texts: &Texts,
    steps: &mut Steps<L>,
    told: &mut Vec<Event>,
) -> u64
    requires content { IsContent content.old }
    ensures runs { (ended : Bool) → RunsOn options.now texts.now ended content.old content.new told.old.items told.new.items }
    ensures falls { 0 < result → left_to_read content.new.kept texts.now < left_to_read content.old.kept texts.now }
    ensures content { IsContent content.new }
{
    let state = scan_state(content);
    match reach_of(state) {
        Reach::All => take_plain(options, alloc, content, texts, steps, told),
        Reach::Tags => try_tag(alloc, content, texts, told),
        Reach::Mapped => try_mapped(alloc, content, texts, told),
        Reach::Nothing => 0,
    }
}

/// What is taken in a run where content is scanned in this state.
#[inline(always)]
fn reach_of(state: ScanState) -> Reach
    ensures { IsReach state result }
{
    match state.mode {
        Mode::Con => if state.net {
            Reach::Tags
        } else if state.maps {
            Reach::Mapped
        } else {
            Reach::All
        },
        _ => Reach::Nothing,
    }
}

/// Text, and the tag or the begun data behind it: how many bytes that has, or 0 where none is taken.
#[inline(always)]
fn take_plain<L: Ledger>(
    options: &Options,
    alloc: Global,
    content: &mut Content,
    texts: &Texts,
    steps: &mut Steps<L>,
    told: &mut Vec<Event>,
) -> u64
    requires content { IsContent content.old }
    requires plain { IsScannedIn plain_state content.old }
    ensures runs { (ended : Bool) → RunsOn options.now texts.now ended content.old content.new told.old.items told.new.items }
    ensures falls { 0 < result → left_to_read content.new.kept texts.now < left_to_read content.old.kept texts.now }
    ensures content { IsContent content.new }
{
    run_text(options, alloc, content, texts, steps, told);
    try_other(alloc, content, texts, told)
}

/// Text up to a tag.
#[inline(always)]
fn run_text<L: Ledger>(
    options: &Options,
    alloc: Global,
    content: &mut Content,
    texts: &Texts,
    steps: &mut Steps<L>,
    told: &mut Vec<Event>,
)
    requires content { IsContent content.old }
    requires plain { IsScannedIn plain_state content.old }
    ensures runs { (ended : Bool) → RunsOn options.now texts.now ended content.old content.new told.old.items told.new.items }
    ensures content { IsContent content.new }
    ensures plain { IsScannedIn plain_state content.new }
{
    let around = look_around(content);
    'text: while told.len() < ENOUGH {
        let n = try_plain_text(alloc, content, texts, around, told);
        if n == 0 {
            return;
        }
        steps.add(n);
    }
}

/// A tag, or data with the tags that are left out before it: how many bytes it has, or 0 where none is taken.
#[inline(always)]
fn try_other(alloc: Global, content: &mut Content, texts: &Texts, told: &mut Vec<Event>) -> u64
    requires content { IsContent content.old }
    ensures takes { TakesText texts.now content.old content.new told.old.items told.new.items result }
    ensures content { IsContent content.new }
{
    match mark_there(content, texts) {
        Mark::Start => try_start(alloc, content, texts, told),
        Mark::End => try_lone_end(alloc, content, texts, told),
        Mark::Other => try_begun_text(alloc, content, texts, told),
    }
}

/// A tag, whatever NET and maps are: how many bytes it has, or 0 where none is taken.
#[inline(never)]
fn try_tag(alloc: Global, content: &mut Content, texts: &Texts, told: &mut Vec<Event>) -> u64
    requires content { IsContent content.old }
    ensures takes { TakesTag texts.now content.old content.new told.old.items told.new.items result }
    ensures content { IsContent content.new }
{
    match mark_there(content, texts) {
        Mark::Start => try_start(alloc, content, texts, told),
        Mark::End => try_lone_end(alloc, content, texts, told),
        Mark::Other => 0,
    }
}

/// A tag, or text where a short reference map is in force: how many bytes it has, or 0 where none is taken.
#[inline(never)]
fn try_mapped(alloc: Global, content: &mut Content, texts: &Texts, told: &mut Vec<Event>) -> u64
    requires content { IsContent content.old }
    requires scanned { IsScannedIn mapped_state content.old }
    ensures takes { TakesMapped texts.now content.old content.new told.old.items told.new.items result }
    ensures content { IsContent content.new }
{
    match mark_there(content, texts) {
        Mark::Start => try_start(alloc, content, texts, told),
        Mark::End => try_lone_end(alloc, content, texts, told),
        Mark::Other => try_mapped_text(alloc, content, texts, told),
    }
}

/// What stands next, by its first bytes.
#[inline(always)]
fn mark_there(content: &Content, texts: &Texts) -> Mark
    requires { IsContent content.now }
    ensures { result ≡ mark_there (rest_in content.now.kept texts.now) }
{
    match unread(content.kept.dtd.entities(), texts, &content.kept.stack) {
        [b, c, ..] => if *b == b'<' {
            if *c == b'/' { Mark::End } else { Mark::Start }
        } else {
            Mark::Other
        },
        _ => Mark::Other,
    }
}
