use crate::cell::make_bank;
use crate::faulty::faulty;
use crate::names::names;
use crate::process::{check_process, make_sheet};
use model::item::Item;
use model::rule::Rule;
use promise::outcome;
use records::fault::{Fault, Layer, Refusal, SourceFile};
use records::record::{Record, first_record};
use std::test::Fail;

/// Processor 0 of a cell file.
const PROCESSOR: [u8; 16] = [12, 0, 1, 0, 2, 0, 0, 0, 0, 0, 0, 0, 0, 0, 0, 0];

/// An item of a process file: processor 0, priority 1, period and deadline 1000, duration 300,
/// offset 2, and the name `ab`.
const ITEM: [u8; 32] = [
    28, 0, 2, 0, 2, 0, 0, 1, 0, 0, 232, 3, 0, 0, 44, 1, 0, 0, 0, 0, 0, 0, 2, 0, 0, 0, 232, 3, 0, 0,
    97, 98,
];

/// Number and place of a fault.
fn told(answer: Result<(), Fault>) -> Option<(u8, usize)> {
    match answer {
        Ok(()) => None,
        Err(fault) => Some((fault.refusal.number(), fault.place)),
    }
}

fn cell_fault(file: &[u8]) -> Option<(u8, usize)> {
    let (_bank, made) = make_bank(file);
    told(made)
}

/// Number and place of the fault that the file layer alone finds in a process file.
fn checked_fault(file: &[u8]) -> Option<(u8, usize)> {
    told(check_process(file))
}

/// Number and place of the fault of a process file over a cell with processor 0.
fn process_fault(file: &[u8]) -> Option<(u8, usize)> {
    let (bank, _) = make_bank(&PROCESSOR);
    let (_sheet, made) = make_sheet(bank, file);
    told(made)
}

#[test]
fn a_file_may_be_empty_and_has_at_most_16384_bytes(rt: HostRuntime) {
    assert_eq!(rt; cell_fault(&[]), None);
    assert_eq!(rt; process_fault(&[]), None);
    assert_eq!(rt; checked_fault(&[]), None);
    let long = [0u8; 16_385];
    assert_eq!(rt; cell_fault(&long), Some((1, 0)));
    assert_eq!(rt; process_fault(&long), Some((1, 0)));
    assert_eq!(rt; checked_fault(&long), Some((1, 0)));
    assert_eq!(rt; cell_fault(&long[0..16_384]), Some((3, 0)));
}

#[test]
fn a_record_cut_anywhere_is_not_whole(rt: HostRuntime) {
    for n in 1..16usize {
        assert_eq!(rt; cell_fault(&PROCESSOR[0..n]), Some((2, 0)));
    }
    assert_eq!(rt; cell_fault(&PROCESSOR), None);
    for n in 1..32usize {
        assert_eq!(rt; process_fault(&ITEM[0..n]), Some((2, 0)));
        assert_eq!(rt; checked_fault(&ITEM[0..n]), Some((2, 0)));
    }
    assert_eq!(rt; process_fault(&ITEM), None);
    assert_eq!(rt; checked_fault(&ITEM), None);
}

#[test]
fn kinds_and_body_lengths(rt: HostRuntime) {
    assert_eq!(rt; cell_fault(&ITEM), Some((3, 0)));
    assert_eq!(rt; process_fault(&PROCESSOR), Some((3, 0)));
    assert_eq!(rt; checked_fault(&PROCESSOR), Some((3, 0)));
    assert_eq!(rt; process_fault(&[2, 0, 3, 0, 0, 1]), Some((14, 0)));
    assert_eq!(rt; checked_fault(&[2, 0, 3, 0, 0, 1]), None);
    assert_eq!(rt;
        checked_fault(&[2, 0, 3, 0, 0, 1, 1, 0, 3, 0, 0]),
        Some((4, 6))
    );
    assert_eq!(rt; process_fault(&[1, 0, 3, 0, 0]), Some((4, 0)));
    assert_eq!(rt; process_fault(&[2, 0, 2, 0, 0, 1]), Some((4, 0)));
    assert_eq!(rt; checked_fault(&[2, 0, 2, 0, 0, 1]), Some((4, 0)));
    assert_eq!(rt; cell_fault(&[0, 0, 1, 0]), Some((4, 0)));
}

#[test]
fn a_station_is_in_range_and_new_in_its_class(rt: HostRuntime) {
    let mut twice = [
        12u8, 0, 1, 0, 2, 0, 0, 0, 0, 0, 0, 0, 0, 0, 0, 0, 12, 0, 1, 0, 2, 0, 0, 0, 0, 0, 0, 0, 0,
        0, 0, 0,
    ];
    assert_eq!(rt; cell_fault(&twice), Some((6, 16)));
    twice[20] = 1;
    assert_eq!(rt; cell_fault(&twice), None);
    twice[20] = 3;
    assert_eq!(rt; cell_fault(&twice), Some((5, 16)));
    twice[22] = 100;
    assert_eq!(rt; cell_fault(&twice), None);
    twice[22] = 101;
    assert_eq!(rt; cell_fault(&twice), Some((5, 16)));
    twice[22] = 100;
    twice[21] = 8;
    assert_eq!(rt; cell_fault(&twice), Some((5, 16)));
}

#[test]
fn a_refused_cell_file_makes_a_bank_with_no_station(rt: HostRuntime) -> Result<(), Fail> {
    let Ok((Record::Item(row), _)) = first_record(SourceFile::Process, &ITEM) else {
        return Err(Fail::new("no item"));
    };
    assert_eq!(rt; row.name, "ab");
    assert!(rt; row.item.period == 1000 && row.item.duration == 300 && row.item.offset == 2);
    let (bank, _) = make_bank(&PROCESSOR);
    assert!(rt; bank.admits(&row.item));
    let torn = [12u8, 0, 1, 0, 2, 0, 0, 0, 0, 0, 0, 0, 0, 0, 0, 0, 12];
    let (bank, made) = make_bank(&torn);
    assert_eq!(rt; told(made), Some((2, 16)));
    assert!(rt; !bank.admits(&row.item));
    Ok(())
}

#[test]
fn a_name_has_small_letters_digits_and_hyphens(rt: HostRuntime) {
    let mut file = ITEM;
    file[30] = b'-';
    file[31] = b'9';
    assert_eq!(rt; process_fault(&file), None);
    assert_eq!(rt; checked_fault(&file), None);
    file[31] = b'A';
    assert_eq!(rt; process_fault(&file), Some((7, 0)));
    assert_eq!(rt; checked_fault(&file), Some((7, 0)));
    file[31] = b'`';
    assert_eq!(rt; process_fault(&file), Some((7, 0)));
    assert_eq!(rt; checked_fault(&file), Some((7, 0)));
}

/// Two items with an arc from the first to the second, each record in its place: 0, 32 and 64.
fn pair() -> [u8; 70] {
    let mut file = [0u8; 70];
    file[..32].copy_from_slice(&ITEM);
    file[32..64].copy_from_slice(&ITEM);
    file[39] = 2;
    file[63] = b'c';
    file[64] = 2;
    file[66] = 3;
    file[69] = 1;
    file
}

#[test]
fn entries_and_arcs_are_made_in_order(rt: HostRuntime) {
    let file = pair();
    let (bank, _) = make_bank(&PROCESSOR);
    let (sheet, made) = make_sheet(bank, &file);
    assert_eq!(rt; told(made), None);
    assert_eq!(rt; sheet.count(), 2);
    assert!(rt; names(&file)[0] == "ab" && names(&file)[1] == "ac" && names(&file)[2] == "");
}

#[test]
fn a_refused_process_file_makes_the_empty_sheet(rt: HostRuntime) {
    let mut file = pair();
    file[39] = 1;
    let (bank, _) = make_bank(&PROCESSOR);
    let (sheet, made) = make_sheet(bank, &file);
    assert_eq!(rt; told(made), Some((12, 32)));
    assert_eq!(rt; sheet.count(), 0);
}

#[test]
fn a_refused_entry_or_arc_has_the_number_of_its_question(rt: HostRuntime) {
    let mut file = pair();
    file[68] = 1;
    assert_eq!(rt; process_fault(&file), Some((16, 64)));
    file[68] = 0;
    file[37] = 1;
    assert_eq!(rt; process_fault(&file), Some((13, 32)));
}

#[test]
fn who_put_the_question(rt: HostRuntime) {
    let fault = Fault {
        refusal: Refusal::Call(outcome::Refusal::NotAdmitted),
        place: 0,
        file: SourceFile::Process,
    };
    assert!(rt; matches!(fault.layer(), Layer::Bank));
    let fault = Fault {
        refusal: Refusal::Call(outcome::Refusal::BadArc),
        place: 0,
        file: SourceFile::Process,
    };
    assert!(rt; matches!(fault.layer(), Layer::Sheet));
}

#[test]
fn the_faulty_part_is_in_the_file_that_the_fault_names(rt: HostRuntime) {
    let process = [2u8, 0, 3, 0, 0, 1, 1, 0, 3, 0, 7, 9];
    let short = Fault {
        refusal: Refusal::WrongLength,
        place: 6,
        file: SourceFile::Process,
    };
    assert!(rt; faulty(&PROCESSOR, &process, &short) == [1u8, 0, 3, 0, 7].as_slice());
    let torn = Fault {
        refusal: Refusal::NotWhole,
        place: 11,
        file: SourceFile::Process,
    };
    assert!(rt; faulty(&PROCESSOR, &process, &torn) == [9u8].as_slice());
    let long = Fault {
        refusal: Refusal::TooLong,
        place: 0,
        file: SourceFile::Process,
    };
    assert_eq!(rt; faulty(&PROCESSOR, &process, &long).len(), 0);
    let strange = Fault {
        refusal: Refusal::StrangeKind,
        place: 0,
        file: SourceFile::Cell,
    };
    assert!(rt; faulty(&PROCESSOR, &process, &strange) == PROCESSOR.as_slice());
    assert!(rt; matches!(strange.layer(), Layer::File));
}

#[test]
fn a_fault_prints_its_file_place_and_number(rt: HostRuntime) -> Result<(), Fail> {
    let fault = Fault {
        refusal: Refusal::BadName,
        place: 38,
        file: SourceFile::Process,
    };
    let text = format!(in rt.alloc(); "{fault}")?;
    assert!(rt; text.as_str() == "fault process 38 7");
    Ok(())
}
