ghost use Rattle.std.specs.Prelude.{◌≡◌};
ghost use Rattle.model.specs.Items.{is_there};

use crate::item::Item;

/// An output queue, by the class and the station of its items and its number there.
#[derive(Clone, Copy, PartialEq, Eq)]
pub struct Queue {
    // Kept as a number, as in an item.
    pub class: u8,
    pub station: u8,
    pub queue: u8,
}

impl From<&Item> for Queue {
    ghost from_gives = { λ item queue. queue ≡ record { class = item.now.class; station = item.now.station; queue = item.now.queue } };

    fn from(item: &Item) -> Queue {
        Queue {
            class: item.class,
            station: item.station,
            queue: item.queue,
        }
    }
}

impl Queue {
    /// Does the item wait in this queue?
    pub fn takes(&self, item: &Item) -> bool
        ensures { result ≡ is_there self.now.class self.now.station self.now.queue item.now }
    {
        Queue::from(item) == *self
    }
}
