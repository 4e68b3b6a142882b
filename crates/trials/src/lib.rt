// Tests of the bounds, worked through the public calls over tables of their own.
#![tactic(auto)]

use crf::span::Span;
use memory::interface::Memory;
use memory::word_table::WordTable;
use orders::chosen::AnyOrder;
use orders::entries::{Entry, Mark, Shape};
use orders::order::MemoryOrder;
use run::rows::{CardRecord, Cell, CodeRow, StepRow, Tables};
use run::states::{Draft, Running};

// What opening a draft of that many cards over 8 records answers: 0, or the refusal's number.
fn opening<M: Memory<Word = u32> + Drop>(memory: M, count: u32) -> u32 {
    let mut cards = [CardRecord::EMPTY; 8];
    let opened = Draft::open(memory, AnyOrder::Sc, count, &mut cards);
    opened.err().map_or(0, |refused| refused.why.number())
}

// What the last of that many loads on one card answers.
fn last_entry<M: Memory<Word = u32> + Drop>(memory: M, order: AnyOrder, tries: u32) -> u32 {
    let mut cards = [CardRecord::EMPTY; 1];
    let mut code = [CodeRow::empty(); 256];
    match Draft::open(memory, order, 1, &mut cards) {
        Ok(draft) => last_load(draft, &mut cards, &mut code, tries),
        Err(refused) => refused.why.number(),
    }
}

fn last_load<M: Memory<Word = u32> + Drop>(
    mut draft: Draft<M, AnyOrder>,
    cards: &mut [CardRecord],
    code: &mut [CodeRow<u32>],
    tries: u32,
) -> u32 {
    let mut answer = 0;
    for _ in 0..tries {
        let load = Entry::Load {
            mark: Mark::Plain,
            address: 0,
        };
        let added = draft.add(cards, code, 0, load);
        answer = added.err().map_or(0, |why| why.number());
    }
    let _ = draft.into_memory();
    answer
}

// What the last of that many steps answers: caching and purging one cell in turn, with a step list of 5,000 rows.
fn last_step<M: Memory<Word = u32> + Drop>(memory: M, tries: u32) -> u32 {
    let mut cards = [CardRecord::EMPTY; 1];
    let mut code = [CodeRow::empty(); 256];
    let mut cells = [Cell::Absent; 1];
    let mut steps = [StepRow::Unused; 5000];
    match Draft::open(memory, AnyOrder::Sc, 1, &mut cards) {
        Ok(draft) => match draft.start(&mut cells) {
            Ok(run) => {
                let mut tables = Tables {
                    cards: &mut cards,
                    code: &mut code,
                    cells: &mut cells,
                    steps: &mut steps,
                };
                last_background(run, &mut tables, tries)
            }
            Err(refused) => refused.why.number(),
        },
        Err(refused) => refused.why.number(),
    }
}

fn last_background<M: Memory<Word = u32> + Drop>(
    mut run: Running<M>,
    tables: &mut Tables<'_, u32>,
    tries: u32,
) -> u32 {
    let mut answer = 0;
    for k in 0..tries {
        let stepped = if k % 2 == 0 {
            run.cache(tables, 0, 0)
        } else {
            run.purge(tables, 0, 0)
        };
        answer = stepped.err().map_or(0, |why| why.number());
    }
    let _ = run.close().into_memory();
    answer
}

// How many masks of the 256 an order takes, and how many fences stand at those barriers in all.
fn masks_taken(order: AnyOrder) -> (u32, u32) {
    let mut taken: u32 = 0;
    let mut fences: u32 = 0;
    for mask in 0..=u8::MAX {
        let shape = Shape::Barrier(mask);
        if order.takes(shape) {
            taken = taken.saturating_add(1);
            fences = fences.saturating_add(order.before(shape).count() as u32);
        }
    }
    (taken, fences)
}

#[cfg(test)]
mod tests {
    use super::*;
    use orders::translation::translate;
    use std::test::Fail;

    #[test]
    fn spans(rt: HostRuntime) {
        assert!(rt; Span::new(5, 5).is_ok());
        assert!(rt; Span::new(5, 4).is_err());
        assert!(rt; Span::new(0, 1023).is_ok());
        assert!(rt; Span::new(0, 1024).is_err());
    }

    #[test]
    fn cards(rt: HostRuntime) {
        let mut words = [0u32; 1];
        assert_eq!(rt; opening(WordTable::over(&mut words), 0), 12);
        assert_eq!(rt; opening(WordTable::over(&mut words), 1), 0);
        assert_eq!(rt; opening(WordTable::over(&mut words), 8), 0);
        assert_eq!(rt; opening(WordTable::over(&mut words), 9), 12);
    }

    #[test]
    fn entries(rt: HostRuntime) {
        let mut words = [0u32; 1];
        assert_eq!(rt;
            last_entry(WordTable::over(&mut words), AnyOrder::Rmo, 64),
            0
        );
        assert_eq!(rt;
            last_entry(WordTable::over(&mut words), AnyOrder::Rmo, 65),
            5
        );
        assert_eq!(rt;
            last_entry(WordTable::over(&mut words), AnyOrder::Sc, 64),
            0
        );
        assert_eq!(rt;
            last_entry(WordTable::over(&mut words), AnyOrder::Sc, 65),
            5
        );
    }

    #[test]
    fn steps(rt: HostRuntime) {
        let mut words = [0u32; 1];
        assert_eq!(rt; last_step(WordTable::over(&mut words), 4096), 0);
        assert_eq!(rt; last_step(WordTable::over(&mut words), 4097), 11);
    }

    #[test]
    fn masks(rt: HostRuntime) {
        assert_eq!(rt; masks_taken(AnyOrder::Sc), (0, 0));
        assert_eq!(rt; masks_taken(AnyOrder::Tso), (1, 1));
        assert_eq!(rt; masks_taken(AnyOrder::Pso), (1, 2));
        assert_eq!(rt; masks_taken(AnyOrder::Rmo), (15, 32));
        assert_eq!(rt; masks_taken(AnyOrder::Ibm370), (1, 1));
        assert_eq!(rt; masks_taken(AnyOrder::Ia64), (1, 4));
    }

    // A barrier of all kinds has four fences, and a load of sc four instructions; a clone of each has as many.
    #[test]
    fn clones(rt: HostRuntime) -> Result<(), Fail> {
        let fences = AnyOrder::Rmo.before(Shape::Barrier(15));
        assert_eq!(rt; fences.clone()?.count(), 4);
        assert_eq!(rt; fences.count(), 4);
        let load: Entry<u32> = Entry::Load {
            mark: Mark::Plain,
            address: 3,
        };
        let translated = translate(&AnyOrder::Sc, load);
        assert!(rt; translated.is_ok());
        if let Ok(translation) = translated {
            assert_eq!(rt; translation.clone()?.count(), 4);
            assert_eq!(rt; translation.count(), 4);
        }
        Ok(())
    }
}
