// The open elements of a document.
ghost use Rattle.std.specs.Prelude.{◌≡◌, ◌+◌, ◌-◌, ◌<◌, ◌≤◌, ◌∷◌, [], All, IfOk, IfErr, OnOk, OnErr, Some, None, is_some, true, false, length, slice_get, option_map, take, reverse, vec_capacity};
ghost use Rattle.sgml_dtd.specs.dtd_attlists.Tables.{list_of};
ghost use Rattle.sgml_dtd.specs.Doctypes.{Doctype};
ghost use Rattle.sgml_theory_reading.specs.Pieces.{Piece, History};
ghost use Rattle.sgml_theory_reading.specs.Facets.{token};
ghost use Rattle.sgml_theory_reading.specs.Context.{context, context_after, begun_level, at_start};
ghost use Rattle.sgml_theory_reading.specs.Omission.{depth as depth_of, misfits};
ghost use Rattle.sgml_theory_reading.specs.Runs.{LongestRunFrom, context_after_run};
ghost use Rattle.sgml_theory_reading.specs.Reasons.{reason};
ghost use Rattle.sgml_theory_reading.specs.ShortTags.{net_in_force};
ghost use Rattle.sgml_infer.specs.Tables.{name_at, type_at, IsNumber};
ghost use Rattle.sgml_infer.specs.Known.{content_kind};
ghost use Rattle.sgml_theory_reading.specs.Types.{content_of, map_of_type};
ghost use Rattle.sgml_theory_reading.specs.Characters.{content_has_text, is_void};
ghost use Rattle.sgml_infer.specs.Trees.{open_levels, levels_of, taking, context_in, StandsFor, HasPlaces, IsTreeOf, IsUnchanged, KeepsOpen, IsStarted};
ghost use Rattle.sgml_infer.specs.Seen.{ending, seen_in, run_in, seen_begun, IsLastFresh};
ghost use Rattle.sgml_infer.specs.Visibles.{kind_of, is_content, begins_element, net_level, IsNumbered, IsFit, HasRoomFor, EnablesNet, EnablesNetIn, EndsAtOnce, EndsAtOnceIn, IsVisible, after_judged, IsJudged, IsRefusedIn, Accepts, Refuses};

use crate::beginning::{most_room, slots};
use crate::element;
use crate::fitting::Fit;
use crate::known::{ContentKind, Known, is_empty, known_types};
use crate::level::Level;
use crate::omitting::inside_of_enabling;
use crate::opening::{begin, enable_net, in_net, take_start, take_token};
use crate::standing::Standing;
use crate::steps::Steps;
use crate::visible::{Chain, Visible};
use crate::walk::{Kept, infer_ends, infer_starts};
use crate::wanted::Wanted;
use sgml_automaton::ModelState;
use sgml_dtd::Dtd;
use sgml_dtd_maps::MapOf;
use sgml_text::{Memory, Reason};
use std::alloc::Global;

/// The elements that are open, and what is left of each one's content model.
#[derive(Drop)]
pub struct Tree {
    // TAGLVL places, of which the open elements take the first ones, the outermost first.
    pub(crate) levels: Vec<Level>,
    pub(crate) depth: u32,
    // The document element was begun.
    pub(crate) begun: bool,
    // What the last chain ended and started.
    pub(crate) ended: Vec<u32>,
    pub(crate) starts: Vec<u32>,
    pub(crate) fresh: ModelState,
    // Steps that were found.
    pub(crate) steps: Steps,
    // The element types.
    pub(crate) known: Vec<Known>,
    // Those whose models get tables.
    pub(crate) wanted: Wanted,
}

impl Tree {
    /// No open element, with room for TAGLVL of them.
    pub fn new(alloc: Global, dtd: &Dtd) -> Result<Tree, Memory>
        ensures tree { IfOk result (λ tree. IsTreeOf dtd.now tree) }
        ensures context { IfOk result (λ tree. context_in dtd.now tree ≡ at_start dtd.now) }
        ensures started { IfOk result (λ tree. (h : History) → IsStarted dtd.now h → StandsFor dtd.now tree h) }
    {
        let room = most_room(dtd);
        let count = dtd.syntax().quantities.taglvl;
        let levels = slots(alloc, count, room)?;
        let ended = Vec::with_capacity(alloc, count as usize)?;
        let starts = Vec::with_capacity(alloc, count as usize)?;
        let fresh = ModelState::new(alloc, room)?;
        let steps = Steps::new(alloc)?;
        let known = known_types(alloc, dtd)?;
        let wanted = Wanted::new(alloc, dtd)?;
        Ok(Tree {
            levels,
            depth: 0,
            begun: false,
            ended,
            starts,
            fresh,
            steps,
            known,
            wanted,
        })
    }

    /// Makes the tables of the models of which elements have begun. They change the time that
    /// answers take, and nothing else.
    #[inline(always)]
    pub fn prepare_models(&mut self, dtd: &mut Dtd)
        ensures tree { self.new ≡ self.old }
        ensures doctype { dtd.new ≡ dtd.old }
    {
        if !self.wanted.is_empty() {
            self.wanted.prepare(dtd);
        }
    }

    /// Takes a visible piece with the longest run of omitted tags before it, or tells the reason
    /// for which it can't stand after that run.
    pub fn accept(&mut self, dtd: &Dtd, visible: Visible) -> Result<Chain, Reason>
        requires tree { IsTreeOf dtd.now self.old }
        requires number { IsNumbered dtd.now visible }
        ensures ok { IfOk result (λ chain. (h : History) → StandsFor dtd.now self.old h →
            (p : Piece) → IsVisible dtd.now visible p.kind → Accepts dtd.now h p chain self.new) }
        ensures ends { IfOk result (λ chain. chain.ends ≡ length self.new.ended.items) }
        ensures starts { IfOk result (λ chain. chain.starts ≡ length self.new.starts.items) }
        ensures refused { IfErr result (λ r. (h : History) → StandsFor dtd.now self.old h →
            (p : Piece) → IsVisible dtd.now visible p.kind → Refuses h p r) }
        ensures err { OnErr result (IsUnchanged self.old self.new) }
        ensures tree { IsTreeOf dtd.now self.new }
    {
        match self.judge(dtd, visible) {
            Ok(chain) => {
                self.take_judged(dtd, visible, chain);
                Ok(chain)
            }
            Err(reason) => Err(reason),
        }
    }

    /// Finds the longest run of omitted tags before a visible piece, or tells the reason for which
    /// the piece can't stand after that run. Nothing of it is taken: `ended` and `started` tell the
    /// run, and `take_judged` takes it with the piece.
    #[inline(always)]
    pub fn judge(&mut self, dtd: &Dtd, visible: Visible) -> Result<Chain, Reason>
        requires tree { IsTreeOf dtd.now self.old }
        requires number { IsNumbered dtd.now visible }
        ensures ok { IfOk result (λ chain. IsJudged dtd.now self.new visible chain) }
        ensures refused { IfErr result (λ r. IsRefusedIn dtd.now (context_in dtd.now self.old) visible r) }
        ensures open { KeepsOpen self.old self.new }
        ensures context { (t : Doctype) → context_in t self.new ≡ context_in t self.old }
        ensures err { OnErr result (IsUnchanged self.old self.new) }
        ensures tree { IsTreeOf dtd.now self.new }
    {
        match self.judge_plain(dtd, visible) {
            Ok(chain) => Ok(chain),
            Err(fit) => self.judge_run(dtd, visible, fit),
        }
    }

    /// The same, where it is plain that the piece may stand as it comes, with no tag left out before
    /// it; where it isn't, only how the piece fits, for `judge_run`.
    #[inline(always)]
    pub fn judge_plain(&mut self, dtd: &Dtd, visible: Visible) -> Result<Chain, Fit>
        requires tree { IsTreeOf dtd.now self.old }
        requires number { IsNumbered dtd.now visible }
        ensures ok { IfOk result (λ chain. IsJudged dtd.now self.new visible chain) }
        ensures none { OnOk result (self.new.starts.items ≡ []) }
        ensures fit { IfErr result (λ fit. IsFit (context_in dtd.now self.old) (kind_of dtd.now visible) fit) }
        ensures open { KeepsOpen self.old self.new }
        ensures context { (t : Doctype) → context_in t self.new ≡ context_in t self.old }
        ensures err { OnErr result (self.new ≡ self.old) }
        ensures tree { IsTreeOf dtd.now self.new }
    {
        let standing = Standing {
            dtd,
            levels: &self.levels[..self.depth as usize],
            begun: self.begun,
            starts: &[],
            fresh: &self.fresh,
            steps: &self.steps,
            known: &self.known,
        };
        let fit = standing.fit(visible);
        if standing.is_unopposed(visible, fit.misfit) {
            self.ended.clear();
            self.starts.clear();
            return Ok(Chain {
                ends: 0,
                starts: 0,
                included: fit.included,
            });
        }
        Err(fit)
    }

    /// The same, where a tag may be left out or the piece may be refused; it fits in the innermost
    /// element as `judge_plain` found.
    #[inline(always)]
    pub fn judge_run(&mut self, dtd: &Dtd, visible: Visible, fit: Fit) -> Result<Chain, Reason>
        requires tree { IsTreeOf dtd.now self.old }
        requires number { IsNumbered dtd.now visible }
        requires fit { IsFit (context_in dtd.now self.old) (kind_of dtd.now visible) fit }
        ensures ok { IfOk result (λ chain. IsJudged dtd.now self.new visible chain) }
        ensures refused { IfErr result (λ r. IsRefusedIn dtd.now (context_in dtd.now self.old) visible r) }
        ensures open { KeepsOpen self.old self.new }
        ensures context { (t : Doctype) → context_in t self.new ≡ context_in t self.old }
        ensures err { OnErr result (IsUnchanged self.old self.new) }
        ensures tree { IsTreeOf dtd.now self.new }
    {
        // each of these has a walk of its own
        match visible {
            Visible::Start(element) => self.judge_walk(dtd, Visible::Start(element), fit),
            Visible::Chars => self.judge_walk(dtd, Visible::Chars, fit),
            _ => self.judge_walk(dtd, visible, fit),
        }
    }

    // The same, by a walk.
    #[inline(always)]
    fn judge_walk(&mut self, dtd: &Dtd, visible: Visible, fit: Fit) -> Result<Chain, Reason>
        requires tree { IsTreeOf dtd.now self.old }
        requires number { IsNumbered dtd.now visible }
        requires fit { IsFit (context_in dtd.now self.old) (kind_of dtd.now visible) fit }
        ensures ok { IfOk result (λ chain. IsJudged dtd.now self.new visible chain) }
        ensures refused { IfErr result (λ r. IsRefusedIn dtd.now (context_in dtd.now self.old) visible r) }
        ensures open { KeepsOpen self.old self.new }
        ensures context { (t : Doctype) → context_in t self.new ≡ context_in t self.old }
        ensures err { OnErr result (IsUnchanged self.old self.new) }
        ensures tree { IsTreeOf dtd.now self.new }
    {
        let kept = self.walk(dtd, visible, fit);
        let levels = kept.levels as u32;
        if let Some(reason) = self.reason(dtd, levels, visible, kept.fit.misfit) {
            return Err(reason);
        }
        self.note_ends(levels);
        Ok(Chain {
            ends: self.depth - levels,
            starts: self.starts.len() as u32,
            included: kept.fit.included,
        })
    }

    /// Takes the visible piece that was judged last, with the run of omitted tags before it.
    #[inline(always)]
    pub fn take_judged(&mut self, dtd: &Dtd, visible: Visible, chain: Chain)
        requires tree { IsTreeOf dtd.now self.old }
        requires number { IsNumbered dtd.now visible }
        requires judged { IsJudged dtd.now self.old visible chain }
        ensures context { (p : Piece) → IsVisible dtd.now visible p.kind →
            context_in dtd.now self.new ≡ after_judged dtd.now self.old p }
        ensures began { begins_element dtd.now visible ≡ true → 0 < self.new.depth }
        ensures ended { self.new.ended.items ≡ self.old.ended.items }
        ensures starts { self.new.starts.items ≡ self.old.starts.items }
        ensures tree { IsTreeOf dtd.now self.new }
    {
        self.depth -= chain.ends;
        self.begin_starts(dtd);
        self.take(dtd, visible);
    }

    // Finds the longest run before the visible piece, which fits like this in the innermost element:
    // its starts, and how many open elements stay. The visible piece fits as it is told behind the run.
    #[inline(always)]
    fn walk(&mut self, dtd: &Dtd, visible: Visible, fit: Fit) -> Kept
        requires tree { IsTreeOf dtd.now self.old }
        requires number { IsNumbered dtd.now visible }
        requires fit { IsFit (context_in dtd.now self.old) (kind_of dtd.now visible) fit }
        ensures within { result.levels ≤ self.old.depth }
        ensures run { LongestRunFrom (context_in dtd.now self.old) (kind_of dtd.now visible)
            (run_in dtd.now self.old result.levels self.new.starts.items) }
        ensures context { context_after_run (context_in dtd.now self.old)
            (run_in dtd.now self.old result.levels self.new.starts.items)
            ≡ seen_in dtd.now self.old result.levels self.new.starts.items }
        ensures fit { IsFit (seen_in dtd.now self.old result.levels self.new.starts.items) (kind_of dtd.now visible)
            result.fit }
        ensures unchanged { IsUnchanged self.old self.new }
        ensures room { result.levels + length self.new.starts.items ≤ dtd.now.syntax.quantities.taglvl }
        ensures numbers { All (IsNumber dtd.now) self.new.starts.items }
        ensures content { is_content visible ≡ false → self.new.starts.items ≡ [] }
        ensures fresh { IsLastFresh dtd.now self.new.starts.items self.new.fresh }
        ensures tree { IsTreeOf dtd.now self.new }
    {
        self.starts.clear();
        let standing = Standing {
            dtd,
            levels: &self.levels[..self.depth as usize],
            begun: self.begun,
            starts: &[],
            fresh: &self.fresh,
            steps: &self.steps,
            known: &self.known,
        };
        let kept = infer_ends(&standing, visible, fit);
        element::note_ended(
            dtd,
            &mut self.steps,
            &self.levels[..self.depth as usize],
            kept.levels,
            visible,
        );
        let fit = infer_starts(
            dtd,
            &self.levels[..kept.levels],
            self.begun,
            &mut self.starts,
            &mut self.fresh,
            &self.steps,
            &self.known,
            visible,
            kept.fit,
        );
        Kept {
            levels: kept.levels,
            fit,
        }
    }

    // Why the visible piece can't stand after a run.
    #[inline(always)]
    fn reason(&self, dtd: &Dtd, kept: u32, visible: Visible, misfit: bool) -> Option<Reason>
        requires tree { IsTreeOf dtd.now self.now }
        requires number { IsNumbered dtd.now visible }
        requires kept { kept ≤ self.now.depth }
        requires numbers { All (IsNumber dtd.now) self.now.starts.items }
        requires content { is_content visible ≡ false → self.now.starts.items ≡ [] }
        requires fresh { IsLastFresh dtd.now self.now.starts.items self.now.fresh }
        requires misfit { misfit ≡ misfits (seen_in dtd.now self.now kept self.now.starts.items)
            (token (kind_of dtd.now visible)) }
        ensures { result ≡ reason (seen_in dtd.now self.now kept self.now.starts.items)
            (kind_of dtd.now visible) }
    {
        let standing = Standing {
            dtd,
            levels: &self.levels[..kept as usize],
            begun: self.begun,
            starts: &self.starts,
            fresh: &self.fresh,
            steps: &self.steps,
            known: &self.known,
        };
        standing.reason(visible, misfit)
    }

    // Notes which elements end where so many stay.
    #[inline(always)]
    fn note_ends(&mut self, kept: u32)
        requires within { kept ≤ self.old.depth }
        requires places { self.old.depth ≤ length self.old.levels.items }
        requires capacity { self.old.depth ≤ vec_capacity self.old.ended }
        ensures open { KeepsOpen self.old self.new }
        ensures counted { length self.new.ended.items ≡ self.old.depth - kept }
        ensures ended { self.new.ended.items ≡ ending (open_levels self.old) kept }
        ensures capacity { vec_capacity self.new.ended ≡ vec_capacity self.old.ended }
        ensures starts { self.new.starts ≡ self.old.starts }
        ensures fresh { self.new.fresh ≡ self.old.fresh }
        ensures steps { self.new.steps ≡ self.old.steps }
        ensures known { self.new.known ≡ self.old.known }
    {
        self.ended.clear();
        let mut at = self.depth;
        'ends: while at > kept {
            at -= 1;
            self.ended.push_reserved(self.levels[at as usize].element);
        }
    }

    // Begins the elements whose starts were left out.
    #[inline(always)]
    fn begin_starts(&mut self, dtd: &Dtd)
        requires tree { IsTreeOf dtd.now self.old }
        requires numbers { All (IsNumber dtd.now) self.old.starts.items }
        requires room { self.old.depth + length self.old.starts.items ≤ dtd.now.syntax.quantities.taglvl }
        ensures levels { levels_of dtd.now (open_levels self.new) ≡ (seen_begun dtd.now self.old).levels }
        ensures begun { self.new.begun ≡ (seen_begun dtd.now self.old).begun }
        ensures depth { self.new.depth ≡ self.old.depth + length self.old.starts.items }
        ensures ended { self.new.ended ≡ self.old.ended }
        ensures starts { self.new.starts ≡ self.old.starts }
        ensures tree { IsTreeOf dtd.now self.new }
    {
        let mut at = 0;
        'starts: while at < self.starts.len() {
            let element = self.starts[at];
            self.begin_inside(dtd, element);
            at += 1;
        }
    }

    // The innermost element takes a start, and the element begins.
    #[inline(always)]
    fn begin_inside(&mut self, dtd: &Dtd, element: u32)
        requires tree { IsTreeOf dtd.now self.old }
        requires number { IsNumber dtd.now element }
        requires room { self.old.depth < dtd.now.syntax.quantities.taglvl }
        ensures levels { levels_of dtd.now (open_levels self.new)
            ≡ begun_level dtd.now (name_at dtd.now element) false
            ∷ taking (Some (name_at dtd.now element)) (levels_of dtd.now (open_levels self.old)) }
        ensures begun { self.new.begun ≡ true }
        ensures depth { self.new.depth ≡ self.old.depth + 1 }
        ensures ended { self.new.ended ≡ self.old.ended }
        ensures starts { self.new.starts ≡ self.old.starts }
        ensures tree { IsTreeOf dtd.now self.new }
    {
        self.take_name(dtd, element);
        begin(
            dtd,
            &self.known,
            &mut self.levels,
            self.depth as usize,
            element,
        );
        self.depth += 1;
        self.wanted.note(element);
    }

    // The innermost element takes a start.
    #[inline(always)]
    fn take_name(&mut self, dtd: &Dtd, element: u32)
        requires tree { IsTreeOf dtd.now self.old }
        requires number { IsNumber dtd.now element }
        ensures levels { levels_of dtd.now (open_levels self.new)
            ≡ taking (Some (name_at dtd.now element)) (levels_of dtd.now (open_levels self.old)) }
        ensures begun { self.new.begun ≡ true }
        ensures depth { self.new.depth ≡ self.old.depth }
        ensures ended { self.new.ended ≡ self.old.ended }
        ensures starts { self.new.starts ≡ self.old.starts }
        ensures tree { IsTreeOf dtd.now self.new }
    {
        take_start(
            dtd,
            &self.known,
            &mut self.steps,
            &mut self.levels,
            self.depth as usize,
            element,
        );
        self.begun = true;
    }

    // Takes the visible piece.
    #[inline(always)]
    fn take(&mut self, dtd: &Dtd, visible: Visible)
        requires tree { IsTreeOf dtd.now self.old }
        requires number { IsNumbered dtd.now visible }
        requires place { HasRoomFor dtd.now visible self.old.depth }
        ensures context { (p : Piece) → p.kind ≡ kind_of dtd.now visible →
            context_after p (context_in dtd.now self.old) ≡ context_in dtd.now self.new }
        ensures began { begins_element dtd.now visible ≡ true → 0 < self.new.depth }
        ensures ended { self.new.ended ≡ self.old.ended }
        ensures starts { self.new.starts ≡ self.old.starts }
        ensures tree { IsTreeOf dtd.now self.new }
    {
        match visible {
            Visible::Start(element) => {
                if self.is_void(element) {
                    self.take_name(dtd, element);
                } else {
                    self.begin_inside(dtd, element);
                }
            }
            Visible::Chars => {
                take_token(dtd, &mut self.levels, self.depth as usize, None);
            }
            Visible::EndTag(_) => {
                self.depth -= 1;
            }
            Visible::EndCurrent => {
                self.depth -= 1;
            }
            Visible::Net => {
                self.depth -= 1;
            }
            Visible::EndDocument => {}
        }
    }

    /// An element that the last chain ends, from the inside out.
    pub fn ended(&self, index: u32) -> u32
        requires { index < length self.now.ended.items }
        ensures { slice_get self.now.ended.items index ≡ Some result }
    {
        self.ended[index as usize]
    }

    /// An element that the last chain starts, from the outside in, where no piece was refused after
    /// it.
    pub fn started(&self, index: u32) -> u32
        requires { index < length self.now.starts.items }
        ensures { slice_get self.now.starts.items index ≡ Some result }
    {
        self.starts[index as usize]
    }

    /// Whether `#PCDATA` is a token of the content of an element type.
    #[inline(always)]
    pub fn has_text(&self, number: u32) -> bool
        ensures { (t : Doctype) → IsTreeOf t self.now → IsNumber t number →
            result ≡ content_has_text (content_of (type_at t number)) }
    {
        match self.known.get(number as usize) {
            Some(known) => known.has_text,
            None => false,
        }
    }

    /// Whether an element type is declared EMPTY.
    #[inline(always)]
    pub fn is_void(&self, number: u32) -> bool
        ensures { (t : Doctype) → IsTreeOf t self.now → IsNumber t number →
            result ≡ is_void (content_of (type_at t number)) }
    {
        is_empty(self.content_kind(number))
    }

    /// Whether an element type has an attribute list.
    #[inline(always)]
    pub fn has_list(&self, number: u32) -> bool
        ensures { (t : Doctype) → IsTreeOf t self.now → IsNumber t number →
            result ≡ is_some (list_of t.lists (name_at t number)) }
    {
        match self.known.get(number as usize) {
            Some(known) => known.has_list,
            None => false,
        }
    }

    /// The short reference map of an element type: that of the first use that names it (11.6).
    #[inline(always)]
    pub fn map_of(&self, number: u32) -> MapOf
        ensures { (t : Doctype) → IsTreeOf t self.now → IsNumber t number →
            result ≡ map_of_type t (name_at t number) }
    {
        match self.known.get(number as usize) {
            Some(known) => known.map,
            None => MapOf::Parent,
        }
    }

    /// What may stand in the elements of a type.
    #[inline(always)]
    pub fn content_kind(&self, number: u32) -> ContentKind
        ensures { (t : Doctype) → IsTreeOf t self.now → IsNumber t number →
            result ≡ content_kind (content_of (type_at t number)) }
    {
        match self.known.get(number as usize) {
            Some(known) => known.content,
            None => ContentKind::Empty,
        }
    }

    /// How many elements are open.
    pub fn depth(&self) -> u32
        requires { HasPlaces self.now }
        ensures depth { result ≡ self.now.depth }
        ensures context { (t : Doctype) → result ≡ depth_of (context_in t self.now) }
        ensures open { (t : Doctype) (h : History) → StandsFor t self.now h → result ≡ depth_of (context h) }
    {
        self.depth
    }

    /// An open element, where 0 is the outermost.
    pub fn path(&self, level: u32) -> u32
        requires places { HasPlaces self.now }
        requires level { level < self.now.depth }
        ensures context { (t : Doctype) →
            option_map (λ l. l.element) (slice_get (reverse (context_in t self.now).levels) level)
            ≡ Some (name_at t result) }
        ensures open { (t : Doctype) (h : History) → StandsFor t self.now h →
            option_map (λ l. l.element) (slice_get (reverse (context h).levels) level) ≡ Some (name_at t result) }
        ensures number { (t : Doctype) → IsTreeOf t self.now → IsNumber t result }
    {
        self.levels[level as usize].element
    }

    /// The innermost element ends as soon as it was started, as one with a specified `#CONREF`
    /// attribute does (11.3.4).
    pub fn end_at_once(&mut self)
        requires places { HasPlaces self.old }
        requires depth { 0 < self.old.depth }
        ensures stands { EndsAtOnce self.old self.new }
        ensures context { EndsAtOnceIn self.old self.new }
        ensures ended { self.new.ended.items ≡ self.old.ended.items }
        ensures tree { (t : Doctype) → IsTreeOf t self.old → IsTreeOf t self.new }
    {
        self.depth -= 1;
    }

    /// The innermost element's start-tag enabled NET (7.4.1.3).
    pub fn enable_net(&mut self)
        requires places { HasPlaces self.old }
        requires depth { 0 < self.old.depth }
        ensures stands { EnablesNet self.old self.new }
        ensures context { EnablesNetIn self.old self.new }
        ensures ended { self.new.ended.items ≡ self.old.ended.items }
        ensures tree { (t : Doctype) → IsTreeOf t self.old → IsTreeOf t self.new }
    {
        enable_net(&mut self.levels, self.depth as usize);
    }

    /// The open element that NET ends, where 0 is the outermost: the innermost one that enabled it
    /// (7.5.1.3).
    pub fn net_level(&self) -> Option<u32>
        requires { HasPlaces self.now }
        ensures context { (t : Doctype) → result ≡ net_level self.now.depth (context_in t self.now) }
        ensures open { (t : Doctype) (h : History) → StandsFor t self.now h →
            result ≡ net_level self.now.depth (context h) }
    {
        match inside_of_enabling(&self.levels[..self.depth as usize]) {
            Some(inside) => Some(self.depth - 1 - inside as u32),
            None => None,
        }
    }

    /// Whether NET is in force (7.4.1.3).
    pub fn net(&self) -> bool
        requires { HasPlaces self.now }
        ensures context { (t : Doctype) → result ≡ net_in_force (context_in t self.now) }
        ensures open { (t : Doctype) (h : History) → StandsFor t self.now h → result ≡ net_in_force (context h) }
    {
        in_net(&self.levels, self.depth as usize)
    }
}
