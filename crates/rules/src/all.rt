ghost use Rattle.std.specs.Prelude.{◌≡◌};

use crate::can::Can;
use crate::gateway::Gateway;
use crate::processor::Processor;
use crate::table::Table;
use bank::bank::{Bank, EmptyBank, pile};

/// The bank of all classes.
pub type AllClasses = Bank<Table, Bank<Processor, Bank<Can, Bank<Gateway, EmptyBank>>>>;

/// Piles the four classes, each with its stations.
pub fn all_classes(table: Table, processor: Processor, can: Can, gateway: Gateway) -> AllClasses
    ensures { result ≡ record { front = table; behind = record { front = processor; behind = record { front = can; behind = record { front = gateway; behind = record {} } } } } }
{
    pile(table, pile(processor, pile(can, pile(gateway, EmptyBank))))
}
