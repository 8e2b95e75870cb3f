ghost use Rattle.std.specs.Prelude.{◌≡◌, false};
ghost use Rattle.bank.specs.Bank.{by_class, chosen};
ghost use Rattle.bank.specs.Laws.{bank_law, nothing_law};

use model::asked::Asked;
use model::item::Item;
use model::rule::{ClassRule, Rule};

/// The bank with no class: no record is admitted, and every wait and load is 0.
// It stands for no function: a rule with nothing in it.
#[derive(Drop)]
pub struct EmptyBank;

impl Rule for EmptyBank {
    ghost admits = { λ _ _. false };

    ghost wait = { λ _ _ _ _. 0 };

    ghost load = { λ _ _ _ _. 0 };

    ghost lawful = { λ _. nothing_law };

    fn admits(&self, _item: &Item) -> bool {
        false
    }

    fn wait(&self, _asked: Asked<'_>) -> u32 {
        0
    }

    fn load(&self, _asked: Asked<'_>) -> u64 {
        0
    }
}

/// Two rules as one: the class of an item decides which of them answers.
#[derive(Drop)]
pub struct Bank<F, B> {
    pub front: F,
    pub behind: B,
}

impl<F: ClassRule, B: Rule> Rule for Bank<F, B> {
    ghost admits = { λ b x. by_class F.ClassRule.CLASS x (F.Rule.admits b.front x) (B.Rule.admits b.behind x) };

    ghost wait = { λ b. chosen F.ClassRule.CLASS (F.Rule.wait b.front) (B.Rule.wait b.behind) };

    ghost load = { λ b. chosen F.ClassRule.CLASS (F.Rule.load b.front) (B.Rule.load b.behind) };

    ghost lawful = { λ r. bank_law _ _ _ _ _ (F.Rule.lawful r.front) (B.Rule.lawful r.behind) };

    fn admits(&self, item: &Item) -> bool {
        if item.class == F::CLASS {
            self.front.admits(item)
        } else {
            self.behind.admits(item)
        }
    }

    fn wait(&self, asked: Asked<'_>) -> u32 {
        if asked.mine().item.class == F::CLASS {
            self.front.wait(asked)
        } else {
            self.behind.wait(asked)
        }
    }

    fn load(&self, asked: Asked<'_>) -> u64 {
        if asked.mine().item.class == F::CLASS {
            self.front.load(asked)
        } else {
            self.behind.load(asked)
        }
    }
}

/// The bank with a class rule in front of another bank or rule.
pub fn pile<F: ClassRule, B: Rule>(front: F, behind: B) -> Bank<F, B>
    ensures { result ≡ record { front = front; behind = behind } }
{
    Bank { front, behind }
}
