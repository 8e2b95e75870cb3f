ghost use Rattle.std.specs.Prelude.{◌≡◌, not, ◌&&◌, ◌==◌, IfOk};
ghost use Rattle.model.specs.Items.{Valid};
ghost use Rattle.promise.specs.State.{meaning};
ghost use Rattle.promise.specs.Calls.{Call, rivals, is_unused, is_new_arc, keeps_fields, entry_ask, entry_answer, arc_ask, change_ask};
ghost use Rattle.promise.specs.Promise.{Leaves};

use crate::ask::ask;
use crate::sheet::Sheet;
use model::arc::Arc;
use model::item::Item;
use model::rule::Rule;
use promise::outcome::Refusal;

/// Do the two have one priority at one class and station?
fn rivals(item: &Item, other: &Item) -> bool
    ensures { result ≡ rivals item.now other.now }
{
    item.shares_station(other) && item.priority == other.priority
}

/// Does no item but `number`, which this one is or becomes, have its priority?
fn is_unused(items: &[Item], number: usize, item: &Item) -> bool
    ensures { result ≡ is_unused items.now number item.now }
{
    // A loop: of `any` behind `enumerate` the proof learns too little.
    for (j, other) in items.iter().enumerate() {
        if j != number && rivals(item, other) {
            return false;
        }
    }
    true
}

// Numbers and no `Arc`, here and in `arc`: they need not be those of items.
fn is_new_arc(arcs: &[Arc], from: usize, to: usize) -> bool
    ensures { result ≡ is_new_arc arcs.now from to }
{
    !arcs.iter().any(|arc| usize::from(arc.from) == from && usize::from(arc.to) == to)
}

// Written out: a derived comparison would ask about all eleven fields.
/// Does the new record leave class, station, mark and period alone?
fn keeps_fields(old: &Item, item: &Item) -> bool
    ensures { result ≡ keeps_fields old.now item.now }
{
    old.shares_station(item) && old.mark == item.mark && old.period == item.period
}

impl<R: Rule> Sheet<R> {
    fn ask_entry(&self, item: Item) -> Result<(), Refusal>
        ensures { result ≡ entry_ask (meaning R.Rule self.now.rule) self.now.table item }
    {
        let items = self.table.items();
        ask(items.len() < 64, Refusal::ManyItems)?;
        ask(item.has_period(), Refusal::BadPeriod)?;
        ask(item.has_limits(), Refusal::BadLimits)?;
        ask(item.has_start(), Refusal::BadStart)?;
        ask(is_unused(items, items.len(), &item), Refusal::TakenPriority)?;
        ask(self.rule.admits(&item), Refusal::NotAdmitted)
    }

    fn ask_arc(&self, from: usize, to: usize) -> Result<(), Refusal>
        ensures { result ≡ arc_ask self.now.table from to }
    {
        let items = self.table.items();
        let arcs = self.table.arcs();
        ask(from < items.len() && to < items.len(), Refusal::NoItem)?;
        ask(
            from < to && items[from].period == items[to].period,
            Refusal::BadArc,
        )?;
        ask(is_new_arc(arcs, from, to), Refusal::KnownArc)?;
        ask(arcs.len() < 128, Refusal::ManyArcs)
    }

    fn ask_change(&self, number: usize, item: Item) -> Result<(), Refusal>
        ensures value { result ≡ change_ask (meaning R.Rule self.now.rule) self.now.table number item }
        ensures valid { IfOk result (λ _. Valid item) }
    {
        let items = self.table.items();
        ask(number < items.len(), Refusal::NoItem)?;
        let old = self.table.ask(number).mine().item;
        ask(keeps_fields(old, &item), Refusal::FixedFields)?;
        ask(item.has_limits(), Refusal::BadLimits)?;
        ask(item.has_start(), Refusal::BadStart)?;
        ask(is_unused(items, number, &item), Refusal::TakenPriority)?;
        ask(self.rule.admits(&item), Refusal::NotAdmitted)
    }

    /// Puts an item behind the others and tells its number. All times are then 0 again, and the
    /// sheet counts as unbroken. A refusal changes nothing.
    pub fn entry(&mut self, item: Item) -> Result<usize, Refusal>
        ensures answer { result ≡ entry_answer (meaning R.Rule self.old.rule) self.old.table item }
        ensures leaves { Leaves (meaning R.Rule self.old.rule) self.old.table (Call.entry item) self.new.table }
        ensures rule { self.new.rule ≡ self.old.rule }
    {
        self.ask_entry(item)?;
        let number = self.count();
        self.table.push(item);
        Ok(number)
    }

    /// Adds an arc, and starts the times over as an entry does.
    pub fn arc(&mut self, from: usize, to: usize) -> Result<(), Refusal>
        ensures answer { result ≡ arc_ask self.old.table from to }
        ensures leaves { Leaves (meaning R.Rule self.old.rule) self.old.table (Call.arc from to) self.new.table }
        ensures rule { self.new.rule ≡ self.old.rule }
    {
        self.ask_arc(from, to)?;
        self.table.join(from, to);
        Ok(())
    }

    /// Exchanges the record of an item, and starts the times over as an entry does.
    pub fn change(&mut self, number: usize, item: Item) -> Result<(), Refusal>
        ensures answer { result ≡ change_ask (meaning R.Rule self.old.rule) self.old.table number item }
        ensures leaves { Leaves (meaning R.Rule self.old.rule) self.old.table (Call.change number item) self.new.table }
        ensures rule { self.new.rule ≡ self.old.rule }
    {
        self.ask_change(number, item)?;
        self.table.replace(number, item);
        Ok(())
    }
}
