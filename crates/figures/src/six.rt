ghost use Rattle.std.specs.Prelude.{◌≡◌};
ghost use Rattle.figures.specs.Cases.{plain as plain_item, line as line_of, six_items, six_arcs, six_lines};
ghost use Rattle.figures.specs.Figures.{Figures, lines_of, ran_on};

use model::arc::Arc;
use model::item::Item;
use promise::outcome::Line;

/// An item of station 0, queue 0 and mark 0, with nothing held, period and deadline 10,000, and
/// offset 0.
fn plain(class: u8, priority: u8, size: u8, duration: u32) -> Item
    ensures { result ≡ plain_item class priority size 10000 duration }
{
    Item {
        class,
        station: 0,
        mark: 0,
        priority,
        queue: 0,
        size,
        period: 10_000,
        duration,
        held: 0,
        offset: 0,
        deadline: 10_000,
    }
}

/// Six activities in a row, through all four classes: read, tell, pick, back, gate and push, of which
/// the last is released at the offset `push`.
pub fn six_items(push: u32) -> [Item; 6]
    ensures { result ≡ six_items push }
{
    [
        Item {
            mark: 1,
            offset: 1000,
            ..plain(1, 1, 0, 500)
        },
        Item {
            offset: 1500,
            ..plain(3, 1, 4, 190)
        },
        plain(2, 1, 0, 400),
        Item {
            queue: 1,
            ..plain(3, 2, 2, 150)
        },
        plain(4, 1, 2, 250),
        Item {
            mark: 1,
            offset: push,
            ..plain(1, 2, 0, 300)
        },
    ]
}

/// Each of the six needs what the one before it delivers.
pub fn six_arcs() -> [Arc; 5]
    ensures { result ≡ six_arcs }
{
    [
        Arc { from: 0, to: 1 },
        Arc { from: 1, to: 2 },
        Arc { from: 2, to: 3 },
        Arc { from: 3, to: 4 },
        Arc { from: 4, to: 5 },
    ]
}

fn line(number: usize, late: u32, wait: u32, end: u32) -> Line
    ensures { result ≡ line_of number late wait end }
{
    Line {
        number,
        late,
        wait,
        end,
    }
}

/// The lines as they stand in the worked figures.
fn lines_at_5000() -> [Line; 6]
    ensures { result ≡ six_lines (line_of 5 5000 0 5300) }
{
    [
        line(0, 1000, 0, 1500),
        line(1, 1500, 150, 1840),
        line(2, 1840, 0, 2240),
        line(3, 2240, 190, 2580),
        line(4, 2580, 2000, 4830),
        line(5, 5000, 0, 5300),
    ]
}

/// The times that a run on the six leaves, with the last of them pushed at 5000, on the machine of
/// `machine::cell`. Its contract names all the worked figures.
pub fn six_lines() -> [Line; 6]
    ensures figures { Figures }
    ensures lines { result ≡ lines_of (ran_on (six_items 5000) six_arcs).state }
{
    lines_at_5000()
}
