// The sample day, read part for part, and written again.
use crate::day::DayFile;
use crate::day_write::write_day;
use crate::read::read_run;
use crate::records::CardEntry;
use crate::step::Step;
use crate::write::write_run;
use orders::chosen::AnyOrder;
use orders::entries::{Entry, Mark};
use std::test::Fail;

// Line by line: one run, at byte 12, of 108 bytes; its header (one card, one word, sc, one entry, five steps);
// the initial word 7; load 0; perform 0, 1 and 2; cache 0; perform 3 with the word 7.
const DAY: [u8; 120] = *b"\x01\0\0\0\x0c\0\0\0\x6c\0\0\0\
    \x01\0\0\0\x01\0\0\0\x01\0\0\0\x01\0\0\0\x24\0\0\0\x05\0\0\0\x30\0\0\0\x20\0\0\0\
    \x07\0\0\0\
    \0\x01\0\0\0\0\0\0\0\0\0\0\
    \x01\0\0\0\0\0\0\0\0\0\0\0\
    \x01\0\0\0\x01\0\0\0\0\0\0\0\
    \x01\0\0\0\x02\0\0\0\0\0\0\0\
    \x03\0\0\0\0\0\0\0\0\0\0\0\
    \x02\0\0\0\x03\0\0\0\x07\0\0\0";

#[test]
fn sample_day(rt: HostRuntime) -> Result<(), Fail> {
    let day = DayFile::open(&DAY).ok().ok_or("the day is refused")?;
    assert_eq!(rt; day.count(), 1);
    let run = day.run(0).ok_or("the day has no run")?;
    assert_eq!(rt; run.place, 0);
    assert!(rt; run.bytes == &DAY[12..120]);
    assert!(rt; day.run(1).is_none());
    assert!(rt; DayFile::open(&DAY[0..119]).is_err());
    Ok(())
}

fn is_load(row: CardEntry) -> bool {
    matches!(
        row,
        CardEntry {
            card: 0,
            entry: Entry::Load {
                mark: Mark::Plain,
                address: 0
            }
        }
    )
}

fn is_step(step: Step, kind: u8, place: u32) -> bool {
    match step {
        Step::Perform { card: 0, position } => kind == 1 && position == place,
        Step::PerformRecorded {
            card: 0,
            position,
            word: 7,
        } => kind == 2 && position == place,
        Step::Cache { card: 0, address } => kind == 3 && address == place,
        Step::Purge { card: 0, address } => kind == 5 && address == place,
        _ => false,
    }
}

// Each table has one row more than the run needs, which stays.
#[test]
fn sample_run(rt: HostRuntime) -> Result<(), Fail> {
    let mut words = [9; 2];
    let mut entries = [CardEntry {
        card: 9,
        entry: Entry::Barrier { mask: 9 },
    }; 2];
    let mut steps = [Step::Purge {
        card: 0,
        address: 9,
    }; 6];
    let header = read_run(&DAY[12..120], &mut words, &mut entries, &mut steps)
        .ok()
        .ok_or("the run is refused")?;
    assert!(rt; header.cards == 1 && header.size == 1 && header.entries == 1 && header.steps == 5);
    assert!(rt; matches!(header.memory_order(), AnyOrder::Sc));
    assert!(rt; words == [7, 9] && is_load(entries[0]) && !is_load(entries[1]));
    assert!(rt; is_step(steps[0], 1, 0) && is_step(steps[1], 1, 1) && is_step(steps[2], 1, 2));
    assert!(rt; is_step(steps[3], 3, 0) && is_step(steps[4], 2, 3) && is_step(steps[5], 5, 9));
    Ok(())
}

// Each table has one byte more than the file needs, which stays.
#[test]
fn sample_written(rt: HostRuntime) -> Result<(), Fail> {
    let entries = [CardEntry {
        card: 0,
        entry: Entry::Load {
            mark: Mark::Plain,
            address: 0,
        },
    }];
    let steps = [
        Step::Perform {
            card: 0,
            position: 0,
        },
        Step::Perform {
            card: 0,
            position: 1,
        },
        Step::Perform {
            card: 0,
            position: 2,
        },
        Step::Cache {
            card: 0,
            address: 0,
        },
        Step::PerformRecorded {
            card: 0,
            position: 3,
            word: 7,
        },
    ];
    let mut run = [9; 109];
    let len = write_run(Some(AnyOrder::Sc), 1, &[7], &entries, &steps, &mut run)
        .ok()
        .ok_or("the run is not written")?;
    assert!(rt; len == 108 && run[108] == 9);
    assert!(rt; &run[0..108] == &DAY[12..120]);
    let mut day = [9; 121];
    let end = write_day(&[&run[0..108]], &mut day)
        .ok()
        .ok_or("the day is not written")?;
    assert!(rt; end == 120 && day[120] == 9);
    assert!(rt; &day[0..120] == &DAY[0..120]);
    Ok(())
}
