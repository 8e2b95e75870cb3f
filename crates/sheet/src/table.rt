ghost use Rattle.std.specs.Prelude.{◌≡◌, ◌-◌, ◌<◌, ◌≤◌, [], ◌∷◌, ◌++◌, length, slice_set};
ghost use Rattle.model.specs.Items.{end_of, Valid};
ghost use Rattle.model.specs.Lawful.{end_at};
ghost use Rattle.promise.specs.State.{empty, fresh, item_at};
ghost use Rattle.promise.specs.Calls.{joined};
ghost use Rattle.promise.specs.Promise.{room};
ghost use Rattle.promise.specs.Steps.{latest, written, broken_off};
ghost use Rattle.sheet.specs.Tables.{Fit};

use model::arc::Arc;
use model::asked::Asked;
use model::item::Item;
use model::times::Times;
use std::marker::Model;

/// What a sheet holds beside its rule; in a clause, the state that the calls speak of.
// Not the table of the rules: one name, two things. Arrays with counts: a table is `Copy`, which a
// vector of fixed room is not. What is not in use is blank, so that the state tells the whole table.
#[derive(Clone, Copy)]
pub struct Table {
    count: usize,
    items: [Item; 64],
    arc_count: usize,
    arcs: [Arc; 128],
    // Beside the items: a set of times is a list of its own.
    times: [Times; 64],
    // A flag: the fourth part of the state, beside no value of its own.
    broken: bool,
}

impl Model for Table {
    ghost use Rattle.promise.specs.State.{State};

    ghost Value = { State };

    ghost use Rattle.sheet.specs.Tables.{state_of, table_of, Whole};

    ghost view = { state_of };

    ghost invariant = { Whole };

    ghost inverse = { table_of };

    ghost inverse_ok = { λ _ whole. whole.blank };
}

// What is not in use.
const NO_ITEM: Item = Item {
    class: 0,
    station: 0,
    mark: 0,
    priority: 0,
    queue: 0,
    size: 0,
    period: 0,
    duration: 0,
    held: 0,
    offset: 0,
    deadline: 0,
};

const NO_ARC: Arc = Arc { from: 0, to: 0 };

const NO_TIMES: Times = Times { late: 0, wait: 0 };

/// How much late and wait of an item may come to.
fn slack(item: &Item) -> u32
    ensures { result ≡ item.now.deadline - item.now.duration }
{
    item.deadline.saturating_sub(item.duration)
}

// Each method asks for `i` inside: a type for such numbers could say inside which table only by
// borrowing from it, and some methods change it.
impl Table {
    /// A table with nothing in it.
    pub(crate) fn empty() -> Table
        ensures value { result ≡ empty }
        ensures fit { Fit result }
    {
        Table {
            count: 0,
            items: [NO_ITEM; 64],
            arc_count: 0,
            arcs: [NO_ARC; 128],
            times: [NO_TIMES; 64],
            broken: false,
        }
    }

    pub(crate) fn items(&self) -> &[Item]
        ensures value { result.now ≡ self.now.items }
        ensures few { length result.now ≤ 64 }
        ensures fit { Fit self.now }
    {
        &self.items[..self.count]
    }

    pub(crate) fn arcs(&self) -> &[Arc]
        ensures { result.now ≡ self.now.arcs }
    {
        &self.arcs[..self.arc_count]
    }

    pub(crate) fn times(&self) -> &[Times]
        ensures { result.now ≡ self.now.times }
    {
        &self.times[..self.count]
    }

    pub(crate) fn is_broken(&self) -> bool
        ensures { result ≡ self.now.broken }
    {
        self.broken
    }

    /// Item `i` as the rule is asked about it.
    pub(crate) fn ask(&self, i: usize) -> Asked<'_>
        requires { i < length self.now.items }
        ensures items { result.items.now ≡ self.now.items }
        ensures times { result.times.now ≡ self.now.times }
        ensures i { result.i ≡ i }
    {
        Asked {
            items: self.items(),
            times: self.times(),
            i,
        }
    }

    /// Sets all times back, and makes the table unbroken.
    fn reset(&mut self)
        ensures value { self.new ≡ fresh self.old.items self.old.arcs }
        ensures fit { Fit self.new }
    {
        self.times = [NO_TIMES; 64];
        self.broken = false;
    }

    /// Appends an item, and sets all times back.
    pub(crate) fn push(&mut self, item: Item)
        requires room { length self.old.items < 64 }
        requires valid { Valid item }
        ensures value { self.new ≡ fresh (self.old.items ++ (item ∷ [])) self.old.arcs }
        ensures fit { Fit self.new }
    {
        self.reset();
        self.items[self.count] = item;
        self.count += 1;
    }

    /// Adds an arc, and sets all times back.
    pub(crate) fn join(&mut self, from: usize, to: usize)
        requires room { length self.old.arcs < 128 }
        requires start { from < length self.old.items }
        requires end { to < length self.old.items }
        ensures value { self.new ≡ fresh self.old.items (self.old.arcs ++ (joined from to ∷ [])) }
        ensures fit { Fit self.new }
    {
        let place = self.arc_count;
        // Cast: there are at most 64 items, so nothing is lost, and `try_from` would add an error that
        // never comes.
        self.arcs[place] = Arc {
            from: from as u8,
            to: to as u8,
        };
        self.arc_count = place + 1;
        self.reset();
    }

    /// Replaces the record of item `i`, and sets all times back.
    pub(crate) fn replace(&mut self, i: usize, item: Item)
        requires inside { i < length self.old.items }
        requires place { i < 64 }
        requires valid { Valid item }
        ensures value { self.new ≡ fresh (slice_set self.old.items i item) self.old.arcs }
        ensures fit { Fit self.new }
    {
        self.items[i] = item;
        self.reset();
    }

    /// Writes the times of item `i`, which end it within its deadline.
    pub(crate) fn write(&mut self, i: usize, new: Times)
        requires inside { i < length self.old.items }
        requires place { i < 64 }
        requires in_time { end_of (item_at self.old i) new ≤ (item_at self.old i).deadline }
        ensures value { self.new ≡ written self.old i new }
        ensures fit { Fit self.new }
    {
        self.times[i] = new;
    }

    /// Marks the table as broken, and touches no time.
    pub(crate) fn break_off(&mut self)
        ensures value { self.new ≡ broken_off self.old }
        ensures fit { Fit self.new }
    {
        self.broken = true;
    }

    /// The end of item `i` by the times that the table holds.
    pub(crate) fn end(&self, i: usize) -> u32
        requires { i < length self.now.items }
        ensures value { result ≡ end_at self.now.items self.now.times i }
        ensures small { result ≤ 3000000 }
    {
        let mine = self.ask(i).mine();
        mine.times.late + mine.times.wait + mine.item.duration
    }

    /// The sum of deadline − duration over the items: how far times may rise.
    pub(crate) fn room(&self) -> u64
        ensures value { result ≡ room self.now }
        ensures small { result ≤ 64000000 }
    {
        let items = self.items();
        items.iter().map(|item| u64::from(slack(item))).sum()
    }

    /// The larger of the item's offset and all ends with an arc to it.
    pub(crate) fn latest(&self, i: usize) -> u32
        requires inside { i < length self.now.items }
        ensures value { result ≡ latest self.now.items self.now.times i self.now.arcs (item_at self.now i).offset }
        ensures small { result ≤ 3000000 }
    {
        let mut late = self.ask(i).mine().item.offset;
        // A loop and no `fold`: each end keeps its own bound, by the arc's start that is there.
        for arc in &self.arcs[..self.arc_count] {
            if usize::from(arc.to) == i {
                late = late.max(self.end(usize::from(arc.from)));
            }
        }
        late
    }
}
