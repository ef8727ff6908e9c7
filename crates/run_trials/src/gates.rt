// What a gate is told.
use crate::trial::{FOUR_SUMS, words_of};
use ends::Gate;
use memory_ends::{MemSink, MemSource};
use rec_top::{Workers, run};
use std::alloc::Global;
use std::process::Abort;
use std::sync::Wait;
use std::sync::atomic::{AtomicBool, AtomicU32, Ordering};
use std::test::Fail;
use std::thread::{Threads, yield_now};

// Notes the numbers that it is told, each one more than the term's.
#[derive(Drop)]
struct Noting {
    before: AtomicU32,
    after: AtomicU32,
}

impl Gate for Noting {
    fn before(&self, term: u32) {
        self.before
            .fetch_add(term.wrapping_add(1), Ordering::SeqCst);
    }

    fn after(&self, term: u32) {
        let begun = self.before.load(Ordering::SeqCst);
        self.after
            .fetch_add(term.wrapping_add(begun), Ordering::SeqCst);
    }
}

const THREE: &[u8] = b"REC-SPEC A SORTS S CONS a : -> S EVAL a a a END-SPEC";

const THREE_NAMES: &[u8] = b"REC-SPEC A SORTS S CONS a b c : -> S EVAL a b c END-SPEC";

const FOUR_NAMES: &[u8] = b"REC-SPEC A SORTS S CONS a b c d : -> S EVAL a b c d END-SPEC";

const SECOND_IS_LARGER: &[u8] =
    b"REC-SPEC A SORTS S CONS a : -> S f : S -> S EVAL a f(a) a END-SPEC";

// The words, the input, the status, and the sums of what a gate notes.
#[derive(Clone, Copy)]
struct Told {
    words: &'static [&'static str],
    input: &'static [u8],
    status: u8,
    before: u32,
    after: u32,
}

#[test]
fn the_gate_is_told_round_each_term_also_where_the_store_is_full(
    rt: HostRuntime,
) -> Result<(), Fail> {
    let alloc = rt.alloc();
    let rows = [
        // Before: 1, 2 and 3. After: 0 + 1, 1 + 3 and 2 + 6.
        Told {
            words: &["rewrite"],
            input: THREE,
            status: 0,
            before: 6,
            after: 13,
        },
        // The store is full at the second term. Before: 1 and 2. After: 0 + 1 and 1 + 3.
        Told {
            words: &["rewrite", "--rows", "1"],
            input: SECOND_IS_LARGER,
            status: 4,
            before: 3,
            after: 5,
        },
        Told {
            words: &["rewrite"],
            input: b"",
            status: 3,
            before: 0,
            after: 0,
        },
    ];
    for told in rows {
        let gate = Noting {
            before: AtomicU32::new(0),
            after: AtomicU32::new(0),
        };
        let words = words_of(alloc, told.words)?;
        let mut source = MemSource::new(alloc, told.input, 4096, &[])?;
        let mut out = MemSink::new(alloc, 100, 100, &[])?;
        let mut err = MemSink::new(alloc, 100, 100, &[])?;
        let outcome = run(&rt, alloc, &words, &mut source, &mut out, &mut err, &gate);
        assert_eq!(rt; outcome.status, told.status);
        assert_eq!(rt; gate.before.load(Ordering::SeqCst), told.before);
        assert_eq!(rt; gate.after.load(Ordering::SeqCst), told.after);
    }
    Ok(())
}

// How often a term that is held looks whether it may go on.
const MOST_TURNS: u32 = 1_000_000;

// Holds term 0 until term 1 has begun, and notes whether it waited in vain.
#[derive(Drop)]
struct UntilBegun {
    begun: AtomicBool,
    in_vain: AtomicBool,
}

// Waits until a flag is set, and notes where it waited in vain.
fn await_set(flag: &AtomicBool, in_vain: &AtomicBool) {
    for _turn in 0..MOST_TURNS {
        if flag.load(Ordering::SeqCst) {
            return;
        }
        yield_now();
    }
    in_vain.store(true, Ordering::SeqCst);
}

impl Gate for UntilBegun {
    fn before(&self, term: u32) {
        match term {
            0 => await_set(&self.begun, &self.in_vain),
            1 => self.begun.store(true, Ordering::SeqCst),
            _ => {}
        }
    }

    fn after(&self, _term: u32) {}
}

// Rewrites the terms of an input by two workers under a gate, and compares the output with what is
// wanted. Tells the worker of each term.
fn rewrite_by_two<R: Abort + Alloc<A = Global> + Threads + Wait + Sync, G: Gate>(
    rt: &R,
    input: &[u8],
    wanted: &[u8],
    gate: &G,
) -> Result<Workers, Fail> {
    let alloc = rt.alloc();
    let words = words_of(alloc, &["rewrite", "--workers", "2"])?;
    let mut source = MemSource::new(alloc, input, 4096, &[])?;
    let mut out = MemSink::new(alloc, 100, 100, &[])?;
    let mut err = MemSink::new(alloc, 100, 100, &[])?;
    let outcome = run(rt, alloc, &words, &mut source, &mut out, &mut err, gate);
    assert_eq!(rt; outcome.status, 0);
    assert_eq!(rt; out.taken(), wanted);
    Ok(outcome.workers)
}

#[test]
fn two_workers_are_at_work_at_the_same_time(rt: HostRuntime) -> Result<(), Fail> {
    let rows = [
        (
            FOUR_SUMS,
            b"s(s(z))\ns(s(z))\ns(s(z))\ns(s(z))\n".as_slice(),
        ),
        (FOUR_NAMES, b"a\nb\nc\nd\n".as_slice()),
    ];
    for (input, wanted) in rows {
        let gate = UntilBegun {
            begun: AtomicBool::new(false),
            in_vain: AtomicBool::new(false),
        };
        let workers = rewrite_by_two(&rt, input, wanted, &gate)?;
        assert!(rt; !gate.in_vain.load(Ordering::SeqCst));
        assert_eq!(rt; workers.as_slice().len(), 4);
        assert!(rt; workers.as_slice()[0] != workers.as_slice()[1]);
    }
    Ok(())
}

// Holds term 0 until terms 1 and 2 have ended, and notes whether it waited in vain.
#[derive(Drop)]
struct UntilEnded {
    first: AtomicBool,
    second: AtomicBool,
    in_vain: AtomicBool,
}

impl Gate for UntilEnded {
    fn before(&self, term: u32) {
        if term == 0 {
            await_set(&self.first, &self.in_vain);
            await_set(&self.second, &self.in_vain);
        }
    }

    fn after(&self, term: u32) {
        match term {
            1 => self.first.store(true, Ordering::SeqCst),
            2 => self.second.store(true, Ordering::SeqCst),
            _ => {}
        }
    }
}

// The terms end in the order b, c, a, and the lines stand in that of the terms.
#[test]
fn the_other_worker_takes_all_terms_while_one_is_held(rt: HostRuntime) -> Result<(), Fail> {
    let gate = UntilEnded {
        first: AtomicBool::new(false),
        second: AtomicBool::new(false),
        in_vain: AtomicBool::new(false),
    };
    let workers = rewrite_by_two(&rt, THREE_NAMES, b"a\nb\nc\n", &gate)?;
    assert!(rt; !gate.in_vain.load(Ordering::SeqCst));
    let by_the_second = workers.as_slice() == [0, 1, 1].as_slice();
    let by_the_first = workers.as_slice() == [1, 0, 0].as_slice();
    assert!(rt; by_the_second || by_the_first);
    Ok(())
}
