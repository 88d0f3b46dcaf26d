// Which attributes are specified.
ghost use Rattle.std.specs.Prelude.{◌≡◌, ◌<◌, true, false, length, get_or, set, replicate, IfOk};

use sgml_text::Memory;
use std::alloc::Global;
use std::marker::Model;

// So many are noted without memory of their own.
const FEW: usize = 16;

/// Whether each of some attributes is specified.
#[derive(Drop)]
pub(crate) struct Flags {
    many: usize,
    few: [bool; 16],
    more: Vec<bool>,
}

impl Model for Flags {
    ghost use Rattle.sgml_starts.specs.Noted.{Noted, noted};

    ghost Value = { Noted };

    ghost view = { λ a. noted a.many a.few a.more.items };
}

impl Flags {
    /// None of so many.
    #[inline(always)]
    pub(crate) fn none(alloc: Global, many: usize) -> Result<Flags, Memory>
        ensures { IfOk result (λ flags. flags.items ≡ replicate many false) }
    {
        if many > FEW {
            return Ok(Flags {
                many,
                few: [false; 16],
                more: vec![in alloc; false; many]?,
            });
        }
        Ok(Flags {
            many,
            few: [false; 16],
            more: Vec::new(alloc),
        })
    }

    /// Whether this one is specified.
    #[inline(always)]
    pub(crate) fn has(&self, i: usize) -> bool
        requires { i < length self.now.items }
        ensures { result ≡ get_or self.now.items i result }
    {
        if self.many > FEW {
            return self.more[i];
        }
        self.few[i]
    }

    /// Notes that it is.
    #[inline(always)]
    pub(crate) fn note(&mut self, i: usize)
        requires { i < length self.old.items }
        ensures { self.new.items ≡ set self.old.items i true }
    {
        if self.many > FEW {
            self.more[i] = true;
        } else {
            self.few[i] = true;
        }
    }
}
