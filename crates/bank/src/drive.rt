ghost use Rattle.std.specs.Prelude.{◌≡◌, true, MatchOption};
ghost use Rattle.model.specs.Laws.{Handed};
ghost use Rattle.bank.specs.Drive.{MayAsk};

use model::asked::Asked;
use model::item::Item;
use model::rule::Rule;
use model::times::Times;

/// May a rule be handed these items and times: at most 64 valid records, with one pair of times up
/// to 1,000,000 for each?
pub fn may_hand(items: &[Item], times: &[Times]) -> bool
    ensures yes { result ≡ true → Handed items.now times.now }
    ensures no { Handed items.now times.now → result ≡ true }
{
    items.len() <= 64
        && times.len() == items.len()
        && items.iter().zip(times).all(|(item, own)| item.is_valid()
            && own.late <= 1_000_000
            && own.wait <= 1_000_000)
}

/// Item `i` as a rule is asked about it, or nothing where a rule may not be asked that.
pub fn ask<'a>(items: &'a [Item], times: &'a [Times], i: usize) -> Option<Asked<'a>>
    ensures { MatchOption result (MayAsk items.now times.now i → ⊥) (λ asked. (asked.items.now ≡ items.now) × (asked.times.now ≡ times.now) × (asked.i ≡ i)) }
{
    if i < items.len() && may_hand(items, times) {
        Some(Asked { items, times, i })
    } else {
        None
    }
}

/// The wait that the rule gives item `i`, or nothing where a rule may not be asked that.
pub fn ask_wait<R: Rule>(rule: &R, items: &[Item], times: &[Times], i: usize) -> Option<u32>
    ensures { MatchOption result (MayAsk items.now times.now i → ⊥) (λ wait. MayAsk items.now times.now i × (wait ≡ R.Rule.wait rule.now items.now times.now i)) }
{
    Some(rule.wait(ask(items, times, i)?))
}

/// The load that the rule gives item `i`, or nothing where a rule may not be asked that.
pub fn ask_load<R: Rule>(rule: &R, items: &[Item], times: &[Times], i: usize) -> Option<u64>
    ensures { MatchOption result (MayAsk items.now times.now i → ⊥) (λ load. MayAsk items.now times.now i × (load ≡ R.Rule.load rule.now items.now times.now i)) }
{
    Some(rule.load(ask(items, times, i)?))
}
