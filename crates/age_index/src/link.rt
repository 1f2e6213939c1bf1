//! A slot, or none, in four bytes.

ghost use Rattle.std.specs.Prelude.{◌≡◌, ◌<◌, IfSome};

use std::marker::Model;

/// A slot or none. The greatest `u32` stands for none, so that a node takes 24 bytes and not 32.
#[derive(Debug, Drop, Clone, Copy)]
pub(crate) struct Link {
    slot: u32,
}

impl Model for Link {
    ghost use Rattle.std.specs.Prelude.{ℕ, Option, unwrap_or};
    ghost use Rattle.age_index.specs.Links.{link_of};

    ghost Value = { Option ℕ };

    ghost view = { λ l. link_of l.slot };

    ghost inverse = { λ o. record { slot = unwrap_or o 4294967295 } };
}

impl Link {
    /// The link to a slot, or to none.
    pub(crate) fn new(slot: Option<u32>) -> Link
        requires { IfSome slot (λ s. s < 4294967295) }
        ensures { result ≡ slot }
    {
        Link {
            slot: slot.unwrap_or(u32::MAX),
        }
    }

    /// The slot, where there is one.
    pub(crate) fn slot(self) -> Option<u32>
        ensures { result ≡ self }
    {
        if self.slot == u32::MAX {
            None
        } else {
            Some(self.slot)
        }
    }
}
