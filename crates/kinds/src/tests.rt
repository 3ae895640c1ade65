use super::clock::{Clock, ClockStep};
use super::facts::LinkFacts;
use super::turns::{TimeAndTurns, TimeThenTurns, TurnStep};
use super::{delay, green, run};
use crate::kind::Kind;
use mapfile::link::Link;
use mapfile::signal::Signal;

// Green from 100 to 299, from 700 to 899, and so on.
const SAMPLE: Signal = Signal {
    cycle: 600,
    start: 100,
    length: 200,
};

#[test]
fn next_greens(rt: HostRuntime) {
    assert_eq!(rt; green::next_green(SAMPLE, 99), 100);
    assert_eq!(rt; green::next_green(SAMPLE, 299), 299);
    assert_eq!(rt; green::next_green(SAMPLE, 300), 700);
    let short = Signal {
        cycle: 1,
        start: 0,
        length: 1,
    };
    assert_eq!(rt; green::next_green(short, u32::MAX), u64::from(u32::MAX));
    let always = Signal {
        cycle: 600,
        start: 599,
        length: 600,
    };
    assert_eq!(rt; green::next_green(always, 0), 0);
}

#[test]
fn delays(rt: HostRuntime) {
    let expected = [
        0, 0, 10, 15, 20, 25, 30, 40, 45, 50, 60, 70, 80, 90, 100, 120,
    ];
    // By enumerate and a cast: of numbers zipped with the list the check does not find that they are at most 15.
    for (class, delay) in expected.iter().enumerate() {
        let link = Link {
            from: 0,
            to: 1,
            run: 7,
            class: class as u8,
            signal: None,
            grade: 0,
        };
        assert_eq!(rt; delay::elapsed(&link), 7 + *delay);
    }
}

#[test]
fn turns_at_the_top(rt: HostRuntime) {
    let late = TimeAndTurns {
        time: 4_294_967_290,
        turns: 7,
    };
    let top = TimeAndTurns {
        time: u32::MAX,
        turns: u32::MAX,
    };
    assert_eq!(rt;
        TimeThenTurns.after(
            late,
            TurnStep {
                elapsed: 10,
                turn: false,
            },
        ),
        top
    );
    assert_eq!(rt;
        TimeThenTurns.after(
            late,
            TurnStep {
                elapsed: 5,
                turn: true,
            },
        ),
        TimeAndTurns {
            time: u32::MAX,
            turns: 8,
        }
    );
}

#[test]
fn clock_waits(rt: HostRuntime) {
    let link = Link {
        from: 0,
        to: 1,
        run: 50,
        class: 0,
        signal: Some(0),
        grade: 0,
    };
    let step = Clock.step(&LinkFacts {
        link,
        signal: Some(SAMPLE),
    });
    assert_eq!(rt; Clock.after(290, step), 700);
    assert_eq!(rt; Clock.after(u32::MAX, step), u32::MAX);
    assert_eq!(rt;
        run::cost_of(
            &Clock,
            290,
            &[
                step,
                ClockStep {
                    elapsed: 30,
                    signal: None,
                },
            ],
        ),
        730
    );
}
