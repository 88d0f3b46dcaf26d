// Reading a group.
ghost use Rattle.std.specs.Prelude.{◌≡◌, Some, None, map, IfOk, IfErr};
ghost use Rattle.sgml_model.specs.Model.{model_of};
ghost use Rattle.sgml_model.specs.Group.{Spells};
ghost use Rattle.sgml_model.specs.Reading.{reading};
ghost use Rattle.sgml_model.specs.ReaderView.{sign};
ghost use Rattle.sgml_model.specs.Limits.{passed};
ghost use Rattle.sgml_model.specs.Answers.{IsRefusal, Refuses};
ghost use Rattle.sgml_model.specs.declared.read.GroupError.TheVariants.{Memory};
ghost use Rattle.sgml_model.specs.Reads.{IsReadAs, AreSizes, IsBuildable};

use crate::model::Model;
use crate::outline::Outline;
use crate::reader::Reader;
use crate::token::{GroupLimits, GroupToken, Which};
use sgml_text::Memory;
use std::alloc::{AllocError, AllocFailed, Global};

/// Why a group wasn't read.
#[derive(Debug, Drop)]
pub enum GroupError {
    Memory,
    /// No group goes on at this token, or ends before it where it is the number of tokens.
    BadGroup { at: usize },
    /// A group, but too large.
    GroupLimit(Which),
}

impl From<AllocError> for GroupError {
    ghost from_gives = { λ _ e. e ≡ Memory };

    fn from(_: AllocError) -> Self {
        GroupError::Memory
    }
}

impl<T: Drop> From<AllocFailed<T>> for GroupError {
    ghost from_gives = { λ _ e. e ≡ Memory };

    fn from(_: AllocFailed<T>) -> Self {
        GroupError::Memory
    }
}

impl From<Memory> for GroupError {
    ghost from_gives = { λ _ e. e ≡ Memory };

    fn from(_: Memory) -> Self {
        GroupError::Memory
    }
}

// How large the groups of a model are.
#[derive(Clone, Copy)]
struct Sizes {
    widest: usize,
    total: usize,
    level: usize,
}

impl Sizes {
    ghost use Rattle.std.specs.Prelude.{◌≡◌};
    ghost use Rattle.sgml_model.specs.Limits.{first_passed};

    // The first limit that is passed.
    fn first_passed(self, limits: GroupLimits) -> Option<Which>
        ensures { result ≡ first_passed limits self.widest self.total self.level }
    {
        if (limits.count as usize) < self.widest {
            Some(Which::Count)
        } else if (limits.total as usize) < self.total {
            Some(Which::Total)
        } else if (limits.level as usize) < self.level {
            Some(Which::Level)
        } else {
            None
        }
    }
}

// Judges the tokens, and says how large the groups are.
fn judged(alloc: Global, tokens: &[GroupToken]) -> Result<Sizes, GroupError>
    ensures sizes { IfOk result (λ z. AreSizes (map sign tokens.now) z.widest z.total z.level) }
    ensures bad { IfErr result (λ e. IsRefusal (map sign tokens.now) e) }
{
    let mut outline = Outline::new(alloc);
    for at in 0..tokens.len() {
        let goes_on = outline.step(&tokens[at])?;
        if !goes_on {
            return Err(GroupError::BadGroup { at });
        }
    }
    if !outline.closed() {
        return Err(GroupError::BadGroup { at: tokens.len() });
    }
    Ok(Sizes {
        widest: outline.widest,
        total: outline.total,
        level: outline.level,
    })
}

// The model that the tokens spell.
fn built(alloc: Global, tokens: &[GroupToken]) -> Result<Model, Memory>
    requires { IsBuildable (map sign tokens.now) }
    ensures { IfOk result (λ m. IsReadAs (map sign tokens.now) (model_of m)) }
{
    let mut reader = Reader::new(alloc);
    for token in tokens {
        reader.step(alloc, token)?;
    }
    Ok(Model::of(reader.whole().unwrap()))
}

/// The model that the tokens spell. An error says where no group goes on, or else which of the
/// limits is the first that the group passes.
///
/// A group past a limit is judged and not built, so that it takes little memory and no depth.
pub fn read_group(
    alloc: Global,
    tokens: &[GroupToken],
    limits: GroupLimits,
) -> Result<Model, GroupError>
    ensures read { IfOk result (λ m. Spells (map sign tokens.now) (model_of m)) }
    ensures same { IfOk result (λ m. reading (map sign tokens.now) ≡ Some (model_of m)) }
    ensures within { IfOk result (λ m. passed limits (model_of m) ≡ None) }
    ensures refused { IfErr result (λ e. Refuses (map sign tokens.now) limits e) }
{
    let sizes = judged(alloc, tokens)?;
    if let Some(which) = sizes.first_passed(limits) {
        return Err(GroupError::GroupLimit(which));
    }
    Ok(built(alloc, tokens)?)
}
