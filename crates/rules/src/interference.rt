ghost use Rattle.std.specs.Prelude.{◌≡◌, ℕ, ◌^◌, ◌<◌, ◌≤◌};
ghost use Rattle.model.specs.declared.item.Item.{Item};
ghost use Rattle.rules.specs.Figures.{Gives};
ghost use Rattle.rules.specs.Sums.{⌈◌/◌⌉, ⌊◌/◌⌋, capped, is_stronger, is_weaker, arrivals as arrivals_of, Part, Fair, over_stronger, largest_of_weaker, waiting, loading};

use model::asked::{Asked, Timed};
use model::item::Item;

/// ⌈amount / divisor⌉; a divisor below 1 counts as 1.
pub(crate) fn ceiling(amount: u64, divisor: u32) -> u64
    ensures { result ≡ ⌈ amount / divisor ⌉ }
{
    amount.div_ceil(u64::from(divisor.max(1)))
}

/// ⌊amount / divisor⌋; a divisor below 1 counts as 1.
fn floor(amount: u64, divisor: u32) -> u64
    ensures { result ≡ ⌊ amount / divisor ⌋ }
{
    amount / u64::from(divisor.max(1))
}

/// A wait as a rule answers it: 1,000,001 stands for any larger number.
pub(crate) fn cap(wait: u64) -> u32
    ensures { result ≡ capped wait }
{
    // Cast: the number is small by now, and `try_from` would add an error that never comes.
    wait.min(1_000_001) as u32
}

/// Is the other item of the same class and station, with a smaller priority number?
fn is_stronger(mine: &Item, other: &Item) -> bool
    ensures { result ≡ is_stronger mine.now other.now }
{
    mine.shares_station(other) && other.priority < mine.priority
}

/// Is the other item of the same class and station, with a larger priority number?
fn is_weaker(mine: &Item, other: &Item) -> bool
    ensures { result ≡ is_weaker mine.now other.now }
{
    is_stronger(other, mine)
}

/// How often a message arrives while mine waits: at the start, and after each whole period.
// Two parameters: a pair of them would be no more than the two.
pub(crate) fn arrivals(mine: Timed<'_>, other: Timed<'_>) -> u64
    ensures value { result ≡ arrivals_of mine.entry.times.now other.entry.item.now other.entry.times.now }
    ensures few { result ≤ 2000001 }
{
    let span = u64::from(mine.times.wait) + u64::from(other.times.jitter(other.item));
    floor(span, other.item.period) + 1
}

/// What one stronger item adds to a wait or a load.
// A trait and not a closure: the sum fits its type by the law that each part brings along.
pub(crate) trait Contribution {
    ghost part: { Part };

    fn part(mine: Timed<'_>, other: Timed<'_>) -> u64
        ensures { result ≡ part mine.entry.item.now mine.entry.times.now other.entry.item.now other.entry.times.now };

    ghost fair: { Fair (2 ^ 42) part };
}

/// The sum of the contributions of all items stronger than the one asked about.
pub(crate) fn over_stronger<C: Contribution>(asked: Asked<'_>) -> u64
    ensures { result ≡ over_stronger C.Contribution.part asked.entry.items.now asked.entry.times.now asked.entry.i }
{
    let mine = asked.mine();
    let mut sum: u64 = 0;
    // A loop: each part is bounded by its item, whose number `enumerate` counts.
    for (j, item) in asked.items.iter().enumerate() {
        if is_stronger(mine.item, item) {
            let times = &asked.times[j];
            sum += C::part(mine, Timed { item, times });
        }
    }
    sum
}

/// The largest figure among the items weaker than the one asked about.
fn largest_of_weaker<F: Fn(&Item) -> u32>(asked: Asked<'_>, figure: &F) -> u32
    requires { F.IsAlwaysCallable figure.now }
    ensures { (f : Item → ℕ) → Gives F.Fn figure.now f → result ≡ largest_of_weaker f asked.entry.items.now asked.entry.i }
{
    let mine = asked.mine().item;
    let mut largest: u32 = 0;
    // A loop as short as a chain, and told by the definition's own recursion.
    for other in asked.items {
        if is_weaker(mine, other) {
            largest = largest.max(figure(other));
        }
    }
    largest
}

/// A wait that is the blocking by the weaker, by a figure of each, and the contributions of the
/// stronger.
pub(crate) fn wait_of<C: Contribution, F: Fn(&Item) -> u32>(asked: Asked<'_>, figure: &F) -> u32
    requires { F.IsAlwaysCallable figure.now }
    ensures { (f : Item → ℕ) → Gives F.Fn figure.now f → result ≡ waiting f C.Contribution.part asked.entry.items.now asked.entry.times.now asked.entry.i }
{
    cap(u64::from(largest_of_weaker(asked, figure)) + over_stronger::<C>(asked))
}

/// A load that is the item's own size and the contributions of the stronger.
pub(crate) fn load_of<C: Contribution>(asked: Asked<'_>) -> u64
    ensures { result ≡ loading C.Contribution.part asked.entry.items.now asked.entry.times.now asked.entry.i }
{
    u64::from(asked.mine().item.size) + over_stronger::<C>(asked)
}
