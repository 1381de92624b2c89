//! What a fetcher does.

ghost use Rattle.std.specs.Prelude.{◌≡◌, []};
ghost use Rattle.outside.specs.Outside.{KeepsOthers};
ghost use Rattle.preload.specs.Fetching.{GivesOne, BeginsOne, FetchedAll};

use crate::messages::{Fetched, Wanted};
use crate::name::ScriptName;
use core_steps::Fetch;
use html_types::NoMemory;
use op_queue::{Put, PutEnd, Take, TakeEnd};
use outside::{Outside, Port};
use page_turns::fetch_script;
use std::alloc::Global;
use std::sync::Wait;

/// The ends of both lanes, once the fetcher takes and puts no more.
#[derive(Drop)]
pub struct FetchEnds {
    pub asked: TakeEnd<Wanted>,
    pub answers: PutEnd<Fetched>,
}

// Fetches one script.
fn fetch_one<F: Outside>(alloc: Global, dir: &str, helper: &mut F, name: &ScriptName) -> Fetched
    ensures given { GivesOne dir.now (F.seen helper.old) (F.seen helper.new) name.now result }
    ensures begins { BeginsOne dir.now name.now (F.seen helper.old) (F.seen helper.new) result }
    ensures others { KeepsOthers Port.Script (F.seen helper.old) (F.seen helper.new) }
{
    match fetch_script(alloc, helper, dir, name.as_str()) {
        Ok(Fetch::Got(bytes)) => Fetched::Got(bytes),
        Ok(Fetch::Missing) => Fetched::Missing,
        Ok(Fetch::Faulted) => Fetched::Tried,
        Err(NoMemory) => Fetched::NoMemory,
    }
}

/// Takes names until it is told to stop, and gives one answer to each, in order. The helper and the
/// ends of the lanes come back in every case.
pub fn fetch_all<R: Wait, F: Outside>(
    rt: &R,
    alloc: Global,
    dir: &str,
    asked: Take<Wanted>,
    answers: Put<Fetched>,
    helper: F,
) -> (F, FetchEnds)
    requires first { (asked.taken ≡ []) × (answers.put ≡ []) }
    ensures asked { result.1.asked.lane ≡ asked.lane }
    ensures answers { result.1.answers.lane ≡ answers.lane }
    ensures fetched { FetchedAll dir.now (F.seen helper) (F.seen result.0) result.1.asked.taken
        result.1.answers.put }
{
    let mut asked = asked;
    let mut answers = answers;
    let mut helper = helper;
    for _ in rt.forever() {
        match asked.take(rt) {
            Wanted::Stop => {
                let ends = FetchEnds {
                    asked: asked.end(),
                    answers: answers.end(),
                };
                return (helper, ends);
            }
            Wanted::Ask(name) => {
                let answer = fetch_one(alloc, dir, &mut helper, &name);
                answers.put(rt, answer);
            }
        }
    }
    unreachable!()
}
