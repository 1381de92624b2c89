//! Pages on two threads that hold one another, pages with delays, with helpers and without, and
//! what the document's side parses itself.

use crate::counting::{count_page, count_pages, long_comment};
use crate::running::{Sending, run_alone, run_slowly};
use crate::slow_lists::{is_same, text_of_list};
use crate::thread_pages::{PAGES, STEADY};
use crate::trials::{Held, run_held, run_held_in_place};
use html_types::NoMemory;
use page_runner::Status;
use rand_core::utils::NextWord;
use rand_pcg::Pcg32;
use std::alloc::Global;
use std::sync::Wait;
use std::test::Fail;
use std::thread::Threads;

// How often the page of which a call is held is run on two threads.
const HELD_RUNS: u32 = 20;

// How many runs have delays.
const SLOW_RUNS: u32 = 200;

// How many runs of a list have delays.
const LIST_RUNS: u32 = 10;

// How many runs of the page of which that call is held are done.
fn count_held<R: Threads + Wait + Copy + Send + Sync + 'static>(
    rt: &R,
    alloc: Global,
    held: Held,
) -> Result<u32, NoMemory> {
    let mut done: u32 = 0;
    for _ in 0..HELD_RUNS {
        if run_held(rt, alloc, held)? == Status::Done {
            done = done.saturating_add(1);
        }
    }
    Ok(done)
}

// How a page is sent in a run of that seed, and by how many helpers.
fn sending_of(seed: u64) -> Sending {
    let mut random = Pcg32::new(seed, 3);
    Sending {
        piece: 1 + random.next_word() % 60,
        ahead: 1 + random.next_word() % 8,
        helpers: random.next_word() % 4,
    }
}

// How many runs with delays, each of another seed and the pages in turn, come to what the page
// comes to without.
fn count_slow<R: Threads + Wait + Copy + Send + Sync + 'static>(
    rt: &R,
    alloc: Global,
) -> Result<u32, NoMemory> {
    let mut same: u32 = 0;
    for seed in 0..SLOW_RUNS {
        let page = PAGES[seed as usize % PAGES.len()];
        let wanted = run_alone(alloc, page)?;
        let seed = u64::from(seed);
        let written = run_slowly(rt, alloc, page, sending_of(seed), seed)?;
        if written.status == wanted.status && written.sink.bytes() == wanted.sink.bytes() {
            same = same.saturating_add(1);
        }
    }
    Ok(same)
}

// How many runs of a list with delays, each of another seed, give the text of its pages.
fn count_lists<R: Threads + Wait + Copy + Send + Sync + 'static>(
    rt: &R,
    alloc: Global,
) -> Result<u32, NoMemory> {
    let text = text_of_list(alloc)?;
    let mut same: u32 = 0;
    for seed in 0..LIST_RUNS {
        if is_same(rt, alloc, &text, u64::from(seed))? {
            same = same.saturating_add(1);
        }
    }
    Ok(same)
}

// Each run on two threads is done. On one thread the read gives up, since no second reply is given
// while it is held.
#[test]
fn a_held_fetch_meets_the_second_reply(rt: HostRuntime) -> Result<(), Fail> {
    assert_eq!(rt; count_held(&rt, rt.alloc(), Held::Fetch)?, HELD_RUNS);
    assert_eq!(rt; run_held_in_place(rt.alloc(), Held::Fetch)?.exit(), 7);
    Ok(())
}

#[test]
fn a_held_write_meets_the_second_reply(rt: HostRuntime) -> Result<(), Fail> {
    assert_eq!(rt; count_held(&rt, rt.alloc(), Held::Write)?, HELD_RUNS);
    assert_eq!(rt; run_held_in_place(rt.alloc(), Held::Write)?.exit(), 8);
    Ok(())
}

// With reads of 1, of 7 and of 4,096 bytes. What the document's side parses is a count that no
// contract sees.
#[test]
fn the_other_side_parses_all_where_no_script_fails(rt: HostRuntime) -> Result<(), Fail> {
    for piece in [1, 7, 4096] {
        let all = count_pages(&rt, rt.alloc(), &STEADY, piece)?;
        assert_eq!(rt; all.failed, 0, "{piece}");
        assert_eq!(rt; all.parsed, 0, "{piece}");
    }
    Ok(())
}

// The state within the comment is too long to be held, so that the document's side parses some of
// it itself.
#[test]
fn a_long_comment_is_parsed_here(rt: HostRuntime) -> Result<(), Fail> {
    let page = long_comment(rt.alloc())?;
    let count = count_page(&rt, rt.alloc(), page.as_str(), 4096)?;
    assert!(rt; count.parsed > 0);
    Ok(())
}

#[test]
fn delays_change_no_answer(rt: HostRuntime) -> Result<(), Fail> {
    assert_eq!(rt; count_slow(&rt, rt.alloc())?, SLOW_RUNS);
    Ok(())
}

#[test]
fn delays_change_no_list(rt: HostRuntime) -> Result<(), Fail> {
    assert_eq!(rt; count_lists(&rt, rt.alloc())?, LIST_RUNS);
    Ok(())
}
