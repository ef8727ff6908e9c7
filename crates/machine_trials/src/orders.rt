//! Every order of the steps of two seats, from a new store or from their last steps on.
use crate::courses::{Course, Play, started};
use crate::outcomes::{BAD, GOOD};
use crate::searches::explored;
use faults::Memory;
use std::alloc::Global;
use std::test::Fail;

// Constants 0 and 2 stand in bucket 1 of two, and constant 1 in bucket 0.
const ZERO: (u32, u32) = (0, 1);

const ONE: (u32, u32) = (1, 0);

const TWO: (u32, u32) = (2, 1);

// How many steps a creation of a constant takes in a new store, up to so many.
fn steps_alone(alloc: Global) -> Result<u32, Memory> {
    let mut course = started(alloc, Play::Creations(ZERO, ZERO))?;
    turns_of(&mut course)
}

fn turns_of(course: &mut Course) -> Result<u32, Memory> {
    for steps in 0..40 {
        if !course.turn(0)? {
            return Ok(steps);
        }
    }
    Ok(40)
}

// How many orders there are, and how many of them are bad.
fn counted(alloc: Global, play: Play, turns: u32) -> Result<(u32, u32), Memory> {
    let tally = explored(alloc, play, turns)?;
    let (good, bad) = (tally[GOOD], tally[BAD]);
    Ok((good.wrapping_add(bad), bad))
}

#[test]
fn a_creation_alone_takes_ten_steps(rt: HostRuntime) -> Result<(), Fail> {
    assert_eq!(rt; steps_alone(rt.alloc())?, 10);
    Ok(())
}

// Constants 0 and 1 stand in different buckets of two, so each creation takes its ten steps
// whatever the other does: the load of the head, of the claim and of the free count, the draw, the
// load of the free place, the stores of two words, of the birth number and of the link, and the
// exchange. There are 20 over 10 orders.
#[test]
fn every_order_of_two_creations_in_two_buckets_is_legal(rt: HostRuntime) -> Result<(), Fail> {
    let counts = counted(rt.alloc(), Play::Creations(ZERO, ONE), 80)?;
    assert_eq!(rt; counts, (184756, 0));
    Ok(())
}

// Constants 0 and 2 stand in one bucket of two: a lost exchange walks the new part of the chain,
// and publishes again. Two creations of one constant: whatever the order, one makes it and the
// other finds it. Two that leave have each the stores of two words, of the birth number and of the
// link, the exchange and the lower to make, and the loser of the exchange more.
static MORE: [(&str, Play, u32); 4] = [
    ("one bucket", Play::Creations(ZERO, TWO), 100_000),
    ("one constant", Play::Creations(ZERO, ZERO), 100_000),
    (
        "one constant, and then both leave",
        Play::Leaving(0, 0),
        924,
    ),
    (
        "two constants, and then both leave",
        Play::Leaving(0, 1),
        924,
    ),
];

#[test]
fn every_order_of_two_creations_in_one_bucket_is_legal(rt: HostRuntime) -> Result<(), Fail> {
    for (what, play, least) in &MORE {
        let (orders, bad) = counted(rt.alloc(), *play, 80)?;
        assert_eq!(rt; (bad, orders > *least), (0, true), "{what}");
    }
    Ok(())
}

// A creation that comes first takes 19 steps, and one after the collection two fewer, since the
// chain is empty. The collector takes, asks and peeks; then it makes 32 steps up to the store of
// the claim, unasks and gives. In which order the two programs can come was counted by a program
// that knows the lock alone, and by hand:
// - Before: the peek comes after the 19 steps, and the ask after the look, in gap g of them from 2
//   on, with the take in one of g + 1 gaps: 3 + 4 + .. + 20.
// - After: the look comes after the unask. After the give the raise has 35 gaps since the peek;
//   between the two it has 34, and the give 16 among what is left of the creation: 35 + 34 * 16.
// - The creator is kept out where it looks between the ask and the unask. After the peek, in gap g
//   of 33, the raise has g + 1 gaps and the lower 35 - g; before the peek all of it fits in 3 ways:
//   7,667 + 3.
// - The collector is kept out where the creator is in at the peek: with the ask in gap a from 2 to
//   18 of the 19 steps, and the peek in gap p from a to 18, the take has a + 1 gaps, and the unask
//   and the give have (20 - p) * (21 - p) / 2; or all but the give comes before the look:
//   38,097 + 57.
// - Both are kept out where the creator looks while it is asked, and is seen: 9 ways with the look
//   before the peek, and 9 after it.
#[test]
fn every_schedule_of_a_creation_and_a_collection_is_legal(rt: HostRuntime) -> Result<(), Fail> {
    let tally = explored(rt.alloc(), Play::Sweeping, 60)?;
    assert_eq!(rt; tally, [207, 579, 7670, 38154, 18, 0]);
    Ok(())
}
