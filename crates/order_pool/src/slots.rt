//! The slots of a pool's items.

ghost use Rattle.std.specs.Prelude.{◌≡◌, IsSome, Some};
ghost use Rattle.std.specs.Borrow.{Lends, sem};
ghost use Rattle.order_pool.specs.Slots.{item_in};

/// What a place holds: nothing, or an item.
#[derive(Clone, Copy)]
pub enum Slot<T> {
    Free,
    Held(T),
}

impl<T> Slot<T> {
    ghost use Rattle.order_pool.specs.contracts.slots.Slot.{the_row};

    /// The item that the slot holds.
    pub fn item(&self) -> &T
        requires { IsSome (item_in self.now) }
        ensures { item_in self.now ≡ Some result.now }
    {
        match self {
            Slot::Held(item) => item,
            Slot::Free => unreachable!(),
        }
    }

    /// The item that the slot holds, for writing.
    pub fn item_mut(&mut self) -> &mut T
        requires { IsSome (item_in self.old) }
        ensures* lends { sem 𝓛 (Lends (the_row T.row) T.row self.entry result Slot.Held) }
        ensures value { item_in self.old ≡ Some result.now }
    {
        match self {
            Slot::Held(item) => item,
            Slot::Free => unreachable!(),
        }
    }
}
