use crate::machine::cell;
use crate::six::{six_items, six_lines};
use bank::drive::ask_wait;
use model::times::Times;
use promise::outcome::Line;

/// The times of a line.
// Not `From`: both types are of other crates.
fn of(line: Line) -> Times {
    Times {
        late: line.late,
        wait: line.wait,
    }
}

/// Handed the times of the lines, the bank answers the waits that stand in them.
#[test]
fn the_six_wait_as_the_bank_answers(rt: HostRuntime) {
    let items = six_items(5000);
    let [read, tell, pick, back, gate, push] = six_lines();
    let times = [of(read), of(tell), of(pick), of(back), of(gate), of(push)];
    assert_eq!(rt; ask_wait(&cell(), &items, &times, 3), Some(back.wait));
    assert_eq!(rt; ask_wait(&cell(), &items, &times, 4), Some(gate.wait));
    assert_eq!(rt; gate.end, 4830);
}
