use crate::flat::Flat;
use model::item::Item;
use model::queue::Queue;
use promise::outcome::{Became, Cause, Ending, Line, QueueBound, Refusal, RunResult};
use sheet::sheet::Sheet;

const BLANK: Line = Line {
    number: 99,
    late: 99,
    wait: 99,
    end: 99,
};

/// Class 1, station 0, period and deadline 100, offset, held, queue and size 0.
fn item(priority: u8, duration: u32) -> Item {
    Item {
        class: 1,
        station: 0,
        mark: 0,
        priority,
        queue: 0,
        size: 0,
        period: 100,
        duration,
        held: 0,
        offset: 0,
        deadline: 100,
    }
}

fn queue(class: u8, station: u8, queue: u8) -> Queue {
    Queue {
        class,
        station,
        queue,
    }
}

/// Two items, 10 and 20 long, with an arc from the first to the second; each waits 5.
fn pair() -> Sheet<Flat> {
    let mut sheet = Sheet::new(Flat { stretch: 5 });
    let _ = sheet.entry(item(1, 10));
    let _ = sheet.entry(item(2, 20));
    let _ = sheet.arc(0, 1);
    sheet
}

fn ran(ending: Ending, steps: u64, raises: u64) -> Result<RunResult, Refusal> {
    Ok(RunResult {
        ending,
        steps,
        raises,
    })
}

#[test]
fn an_entry_is_questioned_in_order(rt: HostRuntime) {
    let mut sheet = Sheet::new(Flat { stretch: 5 });
    assert_eq!(rt;
        sheet.entry(Item {
            period: 0,
            ..item(1, 10)
        }),
        Err(Refusal::BadPeriod)
    );
    assert_eq!(rt;
        sheet.entry(Item {
            period: 1_000_001,
            mark: 2,
            ..item(1, 10)
        }),
        Err(Refusal::BadPeriod)
    );
    assert_eq!(rt;
        sheet.entry(Item {
            deadline: 9,
            ..item(1, 10)
        }),
        Err(Refusal::BadLimits)
    );
    assert_eq!(rt;
        sheet.entry(Item {
            mark: 2,
            ..item(1, 10)
        }),
        Err(Refusal::BadStart)
    );
    assert_eq!(rt;
        sheet.entry(Item {
            size: 255,
            ..item(1, 10)
        }),
        Err(Refusal::NotAdmitted)
    );
    assert_eq!(rt; sheet.entry(item(1, 10)), Ok(0));
    assert_eq!(rt;
        sheet.entry(Item {
            class: 1,
            ..item(1, 20)
        }),
        Err(Refusal::TakenPriority)
    );
    assert_eq!(rt;
        sheet.entry(Item {
            station: 1,
            ..item(1, 20)
        }),
        Ok(1)
    );
    assert_eq!(rt; sheet.count(), 2);
}

#[test]
fn there_are_at_most_64_items_and_128_arcs(rt: HostRuntime) {
    let mut sheet = Sheet::new(Flat { stretch: 5 });
    for priority in 0..64u8 {
        assert!(rt; sheet.entry(item(priority, 10)).is_ok());
    }
    assert_eq!(rt; sheet.entry(item(64, 10)), Err(Refusal::ManyItems));
    for to in 1..64usize {
        assert_eq!(rt; sheet.arc(0, to), Ok(()));
    }
    for to in 2..64usize {
        assert_eq!(rt; sheet.arc(1, to), Ok(()));
    }
    assert_eq!(rt; sheet.arc(2, 3), Ok(()));
    assert_eq!(rt; sheet.arc(2, 4), Ok(()));
    assert_eq!(rt; sheet.arc(2, 5), Ok(()));
    assert_eq!(rt; sheet.arc(2, 6), Err(Refusal::ManyArcs));
    assert_eq!(rt; sheet.arc(2, 5), Err(Refusal::KnownArc));
}

#[test]
fn an_arc_is_questioned_in_order(rt: HostRuntime) {
    let mut sheet = pair();
    assert_eq!(rt;
        sheet.entry(Item {
            period: 200,
            ..item(3, 10)
        }),
        Ok(2)
    );
    assert_eq!(rt; sheet.arc(3, 0), Err(Refusal::NoItem));
    assert_eq!(rt; sheet.arc(1, 0), Err(Refusal::BadArc));
    assert_eq!(rt; sheet.arc(0, 0), Err(Refusal::BadArc));
    assert_eq!(rt; sheet.arc(0, 2), Err(Refusal::BadArc));
    assert_eq!(rt; sheet.arc(0, 1), Err(Refusal::KnownArc));
}

#[test]
fn a_change_is_questioned_in_order_and_sets_the_times_back(rt: HostRuntime) {
    let mut sheet = pair();
    assert_eq!(rt; sheet.run(4), ran(Ending::Settled, 4, 2));
    assert_eq!(rt; sheet.change(2, item(3, 10)), Err(Refusal::NoItem));
    assert_eq!(rt;
        sheet.change(
            1,
            Item {
                station: 1,
                ..item(2, 101)
            },
        ),
        Err(Refusal::FixedFields)
    );
    assert_eq!(rt; sheet.change(1, item(2, 101)), Err(Refusal::BadLimits));
    assert_eq!(rt;
        sheet.change(
            1,
            Item {
                held: 21,
                ..item(2, 20)
            },
        ),
        Err(Refusal::BadStart)
    );
    assert_eq!(rt; sheet.change(1, item(1, 20)), Err(Refusal::TakenPriority));
    assert_eq!(rt;
        sheet.change(
            1,
            Item {
                size: 255,
                ..item(2, 20)
            },
        ),
        Err(Refusal::NotAdmitted)
    );
    assert_eq!(rt; sheet.run(2), ran(Ending::Settled, 2, 0));
    assert_eq!(rt; sheet.change(1, item(2, 30)), Ok(()));
    assert_eq!(rt; sheet.run(4), ran(Ending::Settled, 4, 2));
}

#[test]
fn a_step_answers_what_became_of_the_item_and_its_end(rt: HostRuntime) {
    let mut sheet = pair();
    assert_eq!(rt; sheet.step(2), Err(Refusal::NoItem));
    assert_eq!(rt; sheet.step(0), Ok((Became::Raised, 15)));
    assert_eq!(rt; sheet.step(0), Ok((Became::Quiet, 15)));
    assert_eq!(rt; sheet.step(1), Ok((Became::Raised, 40)));
    assert_eq!(rt;
        sheet.change(
            1,
            Item {
                deadline: 39,
                ..item(2, 20)
            },
        ),
        Ok(())
    );
    assert_eq!(rt; sheet.step(0), Ok((Became::Raised, 15)));
    assert_eq!(rt; sheet.step(1), Ok((Became::Broke(Cause::Limit), 20)));
    assert_eq!(rt; sheet.step(2), Err(Refusal::NoItem));
    assert_eq!(rt; sheet.step(1), Err(Refusal::SheetBroken));
    assert_eq!(rt; sheet.run(1), Err(Refusal::SheetBroken));
}

#[test]
fn a_run_goes_on_from_where_one_was_spent(rt: HostRuntime) {
    let mut sheet = pair();
    assert_eq!(rt; sheet.enough(), 342);
    assert_eq!(rt; sheet.run(3), ran(Ending::Spent, 3, 2));
    assert_eq!(rt; sheet.run(342), ran(Ending::Settled, 2, 0));
    let mut empty = Sheet::new(Flat { stretch: 5 });
    assert_eq!(rt; empty.run(0), ran(Ending::Settled, 0, 0));
    assert_eq!(rt; empty.enough(), 0);
}

#[test]
fn a_late_input_breaks_the_sheet_until_an_entry(rt: HostRuntime) {
    let mut sheet = Sheet::new(Flat { stretch: 5 });
    assert_eq!(rt; sheet.entry(item(1, 10)), Ok(0));
    assert_eq!(rt;
        sheet.entry(Item {
            mark: 1,
            offset: 14,
            ..item(2, 20)
        }),
        Ok(1)
    );
    assert_eq!(rt; sheet.arc(0, 1), Ok(()));
    assert_eq!(rt;
        sheet.run(100),
        ran(
            Ending::Broken {
                item: 1,
                cause: Cause::Input,
            },
            2,
            1,
        )
    );
    assert_eq!(rt; sheet.times(&mut [BLANK; 2]), Err(Refusal::SheetBroken));
    assert_eq!(rt;
        sheet.queue_bound(queue(1, 0, 0)),
        Err(Refusal::SheetBroken)
    );
    assert_eq!(rt; sheet.entry(item(3, 10)), Ok(2));
    assert_eq!(rt; sheet.step(0), Ok((Became::Raised, 15)));
}

#[test]
fn times_fills_the_first_records(rt: HostRuntime) {
    let mut sheet = pair();
    let mut table = [BLANK; 3];
    assert_eq!(rt; sheet.times(&mut table), Err(Refusal::NotSettled));
    assert_eq!(rt; sheet.run(4), ran(Ending::Settled, 4, 2));
    assert_eq!(rt; sheet.times(&mut table[0..1]), Err(Refusal::ShortTable));
    assert_eq!(rt; table[0], BLANK);
    assert_eq!(rt; sheet.times(&mut table), Ok(()));
    assert_eq!(rt;
        table[0],
        Line {
            number: 0,
            late: 0,
            wait: 5,
            end: 15,
        }
    );
    assert_eq!(rt;
        table[1],
        Line {
            number: 1,
            late: 15,
            wait: 5,
            end: 40,
        }
    );
    assert_eq!(rt; table[2], BLANK);
}

#[test]
fn a_queue_bound_names_the_first_item_that_reaches_it(rt: HostRuntime) {
    let mut sheet = Sheet::new(Flat { stretch: 5 });
    assert_eq!(rt;
        sheet.entry(Item {
            size: 3,
            ..item(1, 10)
        }),
        Ok(0)
    );
    assert_eq!(rt;
        sheet.entry(Item {
            size: 7,
            ..item(2, 10)
        }),
        Ok(1)
    );
    assert_eq!(rt;
        sheet.entry(Item {
            size: 7,
            ..item(3, 10)
        }),
        Ok(2)
    );
    assert_eq!(rt;
        sheet.entry(Item {
            size: 9,
            queue: 1,
            ..item(4, 10)
        }),
        Ok(3)
    );
    assert_eq!(rt; sheet.queue_bound(queue(1, 0, 0)), Err(Refusal::NotSettled));
    assert!(rt; sheet.run(sheet.enough()).is_ok());
    assert_eq!(rt;
        sheet.queue_bound(queue(1, 0, 0)),
        Ok(Some(QueueBound { bytes: 7, item: 1 }))
    );
    assert_eq!(rt; sheet.queue_bound(queue(1, 0, 2)), Ok(None));
}
