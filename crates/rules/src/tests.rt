use crate::all::{AllClasses, all_classes};
use crate::can::{Bus, Can};
use crate::gateway::{Gateway, Slot};
use crate::processor::Processor;
use crate::stations::Stations;
use crate::table::Table;
use bank::bank::EmptyBank;
use bank::drive::{ask_load, ask_wait};
use model::item::Item;
use model::rule::Rule;
use model::times::Times;

const NOW: Times = Times { late: 0, wait: 0 };

/// Station 0 of every class: 2 ticks per bit; round 1000, slot 250, capacity 8.
fn bank() -> AllClasses {
    let mut table = Table {
        stations: Stations::none(),
    };
    let mut processor = Processor {
        stations: Stations::none(),
    };
    let mut can = Can {
        stations: Stations::none(),
    };
    let mut gateway = Gateway {
        stations: Stations::none(),
    };
    let _ = table.stations.add(0, ());
    let _ = processor.stations.add(0, ());
    let _ = can.stations.add(0, Bus { ticks_per_bit: 2 });
    let _ = gateway.stations.add(
        0,
        Slot {
            round: 1000,
            length: 250,
            capacity: 8,
        },
    );
    all_classes(table, processor, can, gateway)
}

fn item(class: u8, priority: u8, size: u8, period: u32, duration: u32) -> Item {
    Item {
        class,
        station: 0,
        mark: 0,
        priority,
        queue: 0,
        size,
        period,
        duration,
        held: 0,
        offset: 0,
        deadline: period,
    }
}

#[test]
fn a_frame_waits_for_one_more_from_jitter_2230_on(rt: HostRuntime) {
    let pair = [item(3, 1, 8, 2500, 270), item(3, 2, 0, 2500, 110)];
    let own = Times { late: 0, wait: 270 };
    assert!(rt; bank().admits(&pair[0]) && bank().admits(&pair[1]));
    assert_eq!(rt;
        ask_wait(
            &bank(),
            &pair,
            &[
                Times {
                    late: 2229,
                    wait: 0,
                },
                own,
            ],
            1,
        ),
        Some(270)
    );
    assert_eq!(rt;
        ask_wait(
            &bank(),
            &pair,
            &[
                Times {
                    late: 2230,
                    wait: 0,
                },
                own,
            ],
            1,
        ),
        Some(540)
    );
    assert_eq!(rt; ask_wait(&bank(), &pair, &[NOW, own], 0), Some(110));
    assert_eq!(rt; ask_load(&bank(), &pair, &[NOW, own], 1), Some(8));
}

#[test]
fn a_gateway_message_waits_by_whole_rounds(rt: HostRuntime) {
    let three = [item(4, 1, 5, 10_000, 250), item(4, 2, 3, 10_000, 250)];
    let four = [item(4, 1, 5, 10_000, 250), item(4, 2, 4, 10_000, 250)];
    assert_eq!(rt; ask_wait(&bank(), &three, &[NOW, NOW], 1), Some(2000));
    assert_eq!(rt; ask_load(&bank(), &three, &[NOW, NOW], 1), Some(8));
    assert_eq!(rt; ask_wait(&bank(), &four, &[NOW, NOW], 1), Some(3000));
    assert_eq!(rt; ask_load(&bank(), &four, &[NOW, NOW], 1), Some(9));
}

#[test]
fn a_process_counts_its_own_duration(rt: HostRuntime) {
    let fits = [item(2, 1, 0, 50, 10), item(2, 2, 0, 100, 40)];
    let longer = [item(2, 1, 0, 50, 10), item(2, 2, 0, 100, 41)];
    let own = Times { late: 0, wait: 10 };
    assert_eq!(rt; ask_wait(&bank(), &fits, &[NOW, own], 1), Some(10));
    assert_eq!(rt; ask_wait(&bank(), &longer, &[NOW, own], 1), Some(20));
}

#[test]
fn admissions_are_by_class_station_and_figures(rt: HostRuntime) {
    let bank = bank();
    let frame = item(3, 1, 4, 10_000, 190);
    assert!(rt; bank.admits(&frame));
    assert!(rt;
        !bank.admits(&Item {
            duration: 189,
            ..frame
        },)
    );
    assert!(rt;
        !bank.admits(&Item {
            station: 1,
            ..frame
        },)
    );
    assert!(rt; !bank.admits(&Item { class: 5, ..frame }));
    assert!(rt; bank.admits(&item(4, 1, 8, 10_000, 250)));
    assert!(rt; !bank.admits(&item(4, 1, 9, 10_000, 250)));
    assert!(rt; !bank.admits(&item(1, 1, 0, 10_000, 500)));
    assert!(rt;
        bank.admits(&Item {
            mark: 1,
            ..item(1, 1, 0, 10_000, 500)
        },)
    );
}

#[test]
fn what_no_rule_may_be_handed_gets_no_answer(rt: HostRuntime) {
    let one = [item(2, 1, 0, 50, 10)];
    assert_eq!(rt; ask_wait(&EmptyBank, &one, &[NOW], 0), Some(0));
    assert_eq!(rt; ask_wait(&EmptyBank, &one, &[NOW], 1), None);
    assert_eq!(rt; ask_wait(&EmptyBank, &one, &[], 0), None);
    assert_eq!(rt;
        ask_load(&EmptyBank, &[item(2, 1, 0, 50, 51)], &[NOW], 0),
        None
    );
    assert_eq!(rt;
        ask_load(
            &EmptyBank,
            &one,
            &[Times {
                late: 1_000_001,
                wait: 0,
            }],
            0,
        ),
        None
    );
}
