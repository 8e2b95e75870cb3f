ghost use Rattle.std.specs.Prelude.{◌≡◌};
ghost use Rattle.model.specs.Items.{end_of, jitter_of};

use crate::item::Item;

/// What a set of times gives one item.
#[derive(Clone, Copy, Default)]
pub struct Times {
    /// The late time: its latest release.
    pub late: u32,
    /// How long it waits from its release, beside its own duration.
    pub wait: u32,
}

impl Times {
    /// When the item ends at the latest.
    pub fn end(&self, item: &Item) -> u64
        ensures { result ≡ end_of item.now self.now }
    {
        let duration = item.duration;
        u64::from(self.late) + u64::from(self.wait) + u64::from(duration)
    }

    /// How far its release may move.
    pub fn jitter(&self, item: &Item) -> u32
        ensures { result ≡ jitter_of item.now self.now }
    {
        self.late.saturating_sub(item.offset)
    }
}
