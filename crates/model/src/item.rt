ghost use Rattle.std.specs.Prelude.{◌≡◌, true};
ghost use Rattle.model.specs.Items.{has_period, has_limits, has_start, shares_station, Valid};

/// An item is one activity of the machine: a process, or a message on one hop. All its times are
/// counted in ticks of 1 µs.
#[derive(Clone, Copy, Default)]
pub struct Item {
    /// Which kind of resource it uses.
    // Kept as a number: any record may be entered, and each rule has classes of its own.
    pub class: u8,
    /// Which resource of that class.
    pub station: u8,
    /// 1: released at its offset and at no other time; 0: at its offset or later.
    // Kept as a number: any record may be entered, and a mark above 1 is refused by its question.
    pub mark: u8,
    /// Smaller numbers are stronger.
    pub priority: u8,
    /// Into which output queue of its node a message is put.
    pub queue: u8,
    /// In bytes.
    pub size: u8,
    pub period: u32,
    pub duration: u32,
    /// The held stretch: for how long, at worst, a running process cannot be interrupted.
    pub held: u32,
    /// When the item can be released at the earliest, from the start of its period.
    pub offset: u32,
    pub deadline: u32,
}

impl Item {
    /// Does the period lie between 1 and 1,000,000?
    pub fn has_period(&self) -> bool
        ensures { result ≡ has_period self.now }
    {
        (1..=1_000_000).contains(&self.period)
    }

    /// Do duration, deadline and period follow each other in size, from 1 on?
    pub fn has_limits(&self) -> bool
        ensures { result ≡ has_limits self.now }
    {
        1 <= self.duration && self.duration <= self.deadline && self.deadline <= self.period
    }

    /// Is the mark one of the two, held within the duration, and the offset within the period?
    pub fn has_start(&self) -> bool
        ensures { result ≡ has_start self.now }
    {
        self.mark <= 1 && self.held <= self.duration && self.offset < self.period
    }

    /// Is the other item of the same class and station?
    // Two fields of eleven: a derived comparison would ask about all.
    pub fn shares_station(&self, other: &Item) -> bool
        ensures { result ≡ shares_station self.now other.now }
    {
        self.class == other.class && self.station == other.station
    }

    /// Are all three answered with yes?
    pub fn is_valid(self) -> bool
        ensures yes { result ≡ true → Valid self }
        ensures no { Valid self → result ≡ true }
    {
        self.has_period() && self.has_limits() && self.has_start()
    }
}
