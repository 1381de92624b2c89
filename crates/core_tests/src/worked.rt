//! A page event by event, with the numbers of requests and of dropped replies that were worked out
//! for it.

use crate::events::Kind;
use crate::running::{Page, entities, run};
use html_types::Ending;
use std::test::Fail;

// The page is the 42 characters up to the script's end tag, and a letter; then it ends.
const PAGE: Page<'static> = Page {
    text: "<div><script>document.write(\"x\");</script>b",
    cut: 42,
    ahead: 2,
    ending: Ending::End,
};

const TREE: &str =
    "<html><head></head><body><div><script>document.write(\"x\");</script>xb</div></body></html>";

const EVENTS: [Kind; 21] = [
    Kind::Send,
    Kind::Send,
    Kind::Pick,
    Kind::Give,
    Kind::Pick,
    Kind::Give,
    Kind::Take,
    Kind::Do,
    // The script runs, and fails.
    Kind::Do,
    // The reply to the second request is dropped.
    Kind::Take,
    // The letter is sent again, and the ending.
    Kind::Send,
    Kind::Send,
    Kind::Pick,
    Kind::Give,
    Kind::Pick,
    Kind::Give,
    Kind::Take,
    Kind::Do,
    Kind::Take,
    Kind::Do,
    // A script may arrive whenever its name wasn't fetched.
    Kind::Arrive,
];

#[test]
fn four_requests_are_sent_and_one_reply_is_dropped(rt: HostRuntime) -> Result<(), Fail> {
    let alloc = rt.alloc();
    let told = run(alloc, &entities(alloc)?, PAGE, &EVENTS)?;
    assert!(rt; told.done && told.written.is("", TREE));
    // No other events are enabled.
    assert!(rt; told.events == 21 && told.others == 0);
    assert!(rt; told.sent == 4 && told.dropped == 1);
    Ok(())
}
