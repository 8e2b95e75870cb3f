ghost use Rattle.std.specs.Prelude.{◌≡◌, replicate, if◌then◌else◌, Some, None, slice_set};
ghost use Rattle.rules.specs.Stations.{station_at, is_free};

/// The stations that one class has in a cell, by number, each with its figures.
#[derive(Drop)]
pub struct Stations<T> {
    // An array: a station's number is its index.
    figures: [Option<T>; 8],
}

impl<T: Copy> Stations<T> {
    /// No station at all.
    pub fn none() -> Stations<T>
        ensures { result.figures ≡ replicate 8 None }
    {
        Stations { figures: [None; 8] }
    }

    /// The figures of a station, if the cell has it.
    pub fn get(&self, station: u8) -> Option<T>
        ensures { result ≡ station_at self.now.figures station }
    {
        self.figures.get(usize::from(station)).copied().flatten()
    }

    /// Adds a station, if its number is 0 to 7 and new here. Otherwise all stays as it was.
    // A `bool`, as `insert` of a set answers: there is nothing to tell beside.
    pub fn add(&mut self, station: u8, figures: T) -> bool
        ensures answer { result ≡ is_free self.old.figures station }
        ensures left { self.new.figures ≡ (if result then slice_set self.old.figures station (Some figures) else self.old.figures) }
    {
        if station >= 8 || self.get(station).is_some() {
            return false;
        }
        self.figures[usize::from(station)] = Some(figures);
        true
    }
}
