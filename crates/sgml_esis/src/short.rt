// Few bytes, which are put at once.
ghost use Rattle.std.specs.Prelude.{◌≡◌, ◌++◌, ◌∷◌, ◌<◌, ◌≤◌, [], length, take};
ghost use Rattle.sgml_esis.specs.Grammar.{is_none};
ghost use Rattle.sgml_esis.specs.Short.{short_end};

use std::marker::Model;

/// At most 24 bytes, in place.
#[derive(Drop)]
pub struct Short {
    size: usize,
    bytes: [u8; 24],
}

impl Model for Short {
    ghost use Rattle.std.specs.Prelude.{◌≤◌, List, ℕ, take};

    ghost Value = { List ℕ };

    ghost view = { λ s. take s.size s.bytes };

    ghost invariant = { λ s. s.size ≤ 24 };
}

impl Short {
    /// These bytes and the end of their line, or none where they are too many.
    pub fn ended(bytes: &[u8]) -> Short
        ensures { result ≡ short_end bytes.now }
    {
        if bytes.len() < 24 {
            return Short::of(bytes);
        }
        Short::none()
    }

    fn none() -> Short
        ensures { result ≡ [] }
    {
        Short {
            size: 0,
            bytes: [0; 24],
        }
    }

    fn of(bytes: &[u8]) -> Short
        requires { length bytes.now < 24 }
        ensures { result ≡ bytes.now ++ 10 ∷ [] }
    {
        let mut room = [0; 24];
        room[..bytes.len()].copy_from_slice(bytes);
        room[bytes.len()] = 10;
        Short {
            size: bytes.len() + 1,
            bytes: room,
        }
    }

    /// Whether there are none.
    #[inline(always)]
    pub fn is_empty(&self) -> bool
        ensures { result ≡ is_none self.now }
    {
        self.size == 0
    }

    // How many there are.
    #[inline(always)]
    pub(crate) fn len(&self) -> usize
        ensures length { result ≡ length self.now }
        ensures within { result ≤ 24 }
    {
        self.size
    }

    // The room, at whose front they stand.
    #[inline(always)]
    pub(crate) fn room(&self) -> &[u8; 24]
        ensures front { take (length self.now) result.now ≡ self.now }
        ensures length { length result.now ≡ 24 }
    {
        &self.bytes
    }
}
