//! The helpers of a run: each with its thread while it goes on, and all of them back in their
//! places.

ghost use Rattle.std.specs.Prelude.{◌≡◌, ◌<◌, ◌≤◌, ◌+◌, [], ◌++◌, map, length, false, Some, None};
ghost use Rattle.std.specs.Prelude.{slice_get, IfOk, IfSome, IfNone, OnErr, IsTrue, vec_len};
ghost use Rattle.std.specs.Str.{chars};
ghost use Rattle.std.specs.String.{string_bytes};
ghost use Rattle.std.specs.Vec.{vec_capacity};
ghost use Rattle.core_steps.specs.Journals.{found};
ghost use Rattle.page_turns.specs.Scripts.{AreDistinct, IsGiven, GivesMore, MayHelp, AnyOf};
ghost use Rattle.page_turns.specs.Early.{TakesNext};
ghost use Rattle.preload.specs.Names.{is_listed};
ghost use Rattle.preload.specs.Teams.{Placed, CameBackEach, CameAs, IsAsked, IsMember, AreMembers};
ghost use Rattle.preload.specs.Teams.{helper_of, IsIn, AreIn, names_to, names_in, given_of};
ghost use Rattle.preload.specs.Teams.{given_to, given_in, to_come_of, to_come_to, to_come_in};
ghost use Rattle.preload.specs.Teams.{AsksMore, SameHelper, SameMember, SameMembers, IsPlace};
ghost use Rattle.preload.specs.Teams.{HasPlace, IsUnasked, AreUnasked, HasRoom, CameBack, GaveOwn};
ghost use Rattle.preload.specs.Teams.{HelpedEach, names_through, given_through, helps_first};

use crate::helper::{Helper, HelperLanes, start};
use crate::listing::names;
use crate::messages::Fetched;
use crate::name::ScriptName;
use core_steps::{Fetch, Journal};
use html_types::{NoMemory, Text};
use outside::Outside;
use page_turns::{Early, Prefetch};
use speculation::{InForce, Reply};
use std::alloc::Global;
use std::marker::Model;
use std::mem;
use std::sync::Wait;
use std::thread::Threads;

/// The most names that one fetcher is asked for.
const MOST_NAMES: usize = 64;

/// A fetcher, and what it was asked for.
#[derive(Drop)]
pub(crate) struct Fetcher<F: Outside + Drop> {
    pub(crate) helper: Helper<F>,
    // The names, in order.
    pub(crate) names: Vec<ScriptName>,
    // Of each answer that was taken, whether its script hadn't arrived then: what came of it is
    // given only so.
    pub(crate) told: Vec<bool>,
}

/// A helper with its fetcher, or one for which no memory was to be had.
#[derive(Drop)]
pub(crate) enum Member<F: Outside + Drop> {
    Works(Fetcher<F>),
    Idle(F),
}

// What comes of the script of that name, as the answer says.
fn early_of(name: Text, answer: Fetched) -> Early
    ensures { CameAs name answer result }
{
    match answer {
        Fetched::Got(bytes) => Early::Came(name, Fetch::Got(bytes)),
        Fetched::Missing => Early::Came(name, Fetch::Missing),
        Fetched::Tried => Early::Nothing,
        Fetched::NoMemory => Early::Nothing,
    }
}

// Whether the script of that name hasn't arrived.
fn is_new(journal: &Journal, name: &str) -> bool
    ensures { IsTrue result → found (chars name.now) journal.now.fetches ≡ None }
{
    match journal.find(name) {
        Some(_) => false,
        None => true,
    }
}

// The place of the name among those.
fn place_among(names: &[ScriptName], name: &str) -> Option<usize>
    ensures some { IfSome result (λ k. slice_get names.now k ≡ Some (chars name.now)) }
    ensures none { IfNone result (is_listed (chars name.now) names.now ≡ false) }
{
    for k in 0..names.len() {
        if names[k].is(name) {
            return Some(k);
        }
    }
    None
}

impl<F: Outside + Drop> Fetcher<F> {
    // Asks for a name more. Where memory runs out it isn't asked for it.
    fn ask<R: Wait>(&mut self, rt: &R, alloc: Global, name: &ScriptName)
        requires asked { IsAsked F.Outside self.old }
        requires room { vec_len self.old.names < 64 }
        requires once { is_listed name.now self.old.names.items ≡ false }
        ensures asked { IsAsked F.Outside self.new }
        ensures same { SameHelper self.old.helper self.new.helper }
        ensures names { AsksMore name.now self.old.names.items self.new.names.items }
        ensures given { given_of self.new ≡ given_of self.old }
        ensures to_come { to_come_of self.new ≤ to_come_of self.old }
    {
        let Ok(copy) = name.copy(alloc) else {
            return;
        };
        let Ok(message) = name.copy(alloc) else {
            return;
        };
        self.names.push_reserved(copy);
        self.helper.ask(rt, message);
    }

    // Whether an answer is to come for the name at the place.
    fn awaits(&self, place: usize) -> bool
        ensures { IsTrue result → vec_len self.now.told ≤ place }
    {
        self.told.len() <= place
    }

    // Takes the answer that comes next, waiting for it.
    fn take_next<R: Wait>(
        &mut self,
        rt: &R,
        alloc: Global,
        journal: &Journal,
    ) -> Result<Early, NoMemory>
        requires asked { IsAsked F.Outside self.old }
        requires some { vec_len self.old.told < vec_len self.old.names }
        ensures asked { IsAsked F.Outside self.new }
        ensures same { SameHelper self.old.helper self.new.helper }
        ensures names { self.new.names ≡ self.old.names }
        ensures next { IfOk result (λ early. TakesNext early journal.now.fetches
            (given_of self.old) (given_of self.new) (to_come_of self.old) (to_come_of self.new)) }
        ensures err { OnErr result (given_of self.new ≡ given_of self.old) }
    {
        let name = self.names[self.told.len()].to_text(alloc)?;
        let is_told = is_new(journal, name.as_str());
        let answer = self.helper.next(rt);
        self.told.push_reserved(is_told);
        if is_told {
            Ok(early_of(name, answer))
        } else {
            Ok(Early::Nothing)
        }
    }
}

// Gives a helper its fetcher. Where memory runs out it has none.
fn member_of<R: Threads + Wait + Copy + Send + Sync + 'static, F: Outside + Drop + Send + 'static>(
    rt: &R,
    alloc: Global,
    dir: &str,
    helper: F,
) -> Member<F>
    ensures member { IsMember F.Outside result }
    ensures folder { IsIn dir.now result }
    ensures was { helper_of result ≡ helper }
    ensures names { names_to result ≡ [] }
    ensures given { given_to result ≡ [] }
{
    let Ok(names) = Vec::with_capacity(alloc, MOST_NAMES) else {
        return Member::Idle(helper);
    };
    let Ok(told) = Vec::with_capacity(alloc, MOST_NAMES) else {
        return Member::Idle(helper);
    };
    match start(rt, alloc, dir, helper) {
        Err(back) => Member::Idle(back),
        Ok(helper) => Member::Works(Fetcher {
            helper,
            names,
            told,
        }),
    }
}

impl<F: Outside + Drop> Member<F> {
    // Whether it may be asked for one name more.
    fn has_room(&self) -> bool
        ensures { IsTrue result → HasRoom self.now }
    {
        match self {
            Member::Works(fetcher) => {
                fetcher.names.len() < MOST_NAMES && fetcher.helper.is_there()
            }
            Member::Idle(_) => false,
        }
    }

    // The place of the name among those that it was asked for.
    fn place_of(&self, name: &str) -> Option<usize>
        ensures some { IfSome result (λ k. IsPlace (chars name.now) k self.now) }
        ensures none { IfNone result (IsUnasked (chars name.now) self.now) }
    {
        match self {
            Member::Works(fetcher) => place_among(&fetcher.names, name),
            Member::Idle(_) => None,
        }
    }

    // Asks for a name more.
    fn ask<R: Wait>(&mut self, rt: &R, alloc: Global, name: &ScriptName)
        requires member { IsMember F.Outside self.old }
        requires room { HasRoom self.old }
        requires once { IsUnasked name.now self.old }
        ensures member { IsMember F.Outside self.new }
        ensures same { SameMember self.old self.new }
        ensures names { AsksMore name.now (names_to self.old) (names_to self.new) }
        ensures given { given_to self.new ≡ given_to self.old }
        ensures to_come { to_come_to self.new ≤ to_come_to self.old }
    {
        match self {
            Member::Works(fetcher) => fetcher.ask(rt, alloc, name),
            Member::Idle(_) => {}
        }
    }

    // Takes the answer that comes next, where it is to come for the name at the place, or one
    // behind it.
    fn take_next<R: Wait>(
        &mut self,
        rt: &R,
        alloc: Global,
        place: usize,
        journal: &Journal,
    ) -> Result<Early, NoMemory>
        requires member { IsMember F.Outside self.old }
        requires place { (name : _) × IsPlace name place self.old }
        ensures member { IsMember F.Outside self.new }
        ensures same { SameMember self.old self.new }
        ensures names { names_to self.new ≡ names_to self.old }
        ensures next { IfOk result (λ early. TakesNext early journal.now.fetches
            (given_to self.old) (given_to self.new) (to_come_to self.old) (to_come_to self.new)) }
        ensures err { OnErr result (given_to self.new ≡ given_to self.old) }
    {
        match self {
            Member::Works(fetcher) => {
                if fetcher.awaits(place) {
                    fetcher.take_next(rt, alloc, journal)
                } else {
                    Ok(Early::Unasked)
                }
            }
            Member::Idle(_) => Ok(Early::Unasked),
        }
    }
}

// Who was asked for the name, and the place among its names.
fn place_in<F: Outside + Drop>(members: &[Member<F>], name: &str) -> Option<(usize, usize)>
    ensures some { IfSome result (λ at. HasPlace (chars name.now) at.0 at.1 members.now) }
    ensures none { IfNone result (AreUnasked (chars name.now) members.now) }
{
    for who in 0..members.len() {
        if let Some(place) = members[who].place_of(name) {
            return Some((who, place));
        }
    }
    None
}

// The first from a place on that may be asked for one name more.
fn first_with_room<F: Outside + Drop>(members: &[Member<F>], from: usize) -> Option<usize>
    ensures { IfSome result (λ who. (m : _) × (slice_get members.now who ≡ Some m) × HasRoom m) }
{
    for who in from..members.len() {
        if members[who].has_room() {
            return Some(who);
        }
    }
    None
}

// The same, and round.
fn next_from<F: Outside + Drop>(members: &[Member<F>], turn: usize) -> Option<usize>
    ensures { IfSome result (λ who. (m : _) × (slice_get members.now who ≡ Some m) × HasRoom m) }
{
    match first_with_room(members, turn) {
        Some(who) => Some(who),
        None => first_with_room(members, 0),
    }
}

// Asks for the name, where there is one who may be asked for it, from a place on and round. Says
// who is asked next.
fn ask_next<R: Wait, F: Outside + Drop>(
    rt: &R,
    alloc: Global,
    members: &mut Vec<Member<F>>,
    turn: usize,
    name: &ScriptName,
) -> usize
    requires members { AreMembers F.Outside members.old.items }
    requires once { AreUnasked name.now members.old.items }
    requires apart { AreDistinct (names_in members.old.items) }
    ensures members { AreMembers F.Outside members.new.items }
    ensures same { SameMembers members.old.items members.new.items }
    ensures apart { AreDistinct (names_in members.new.items) }
    ensures given { given_in members.new.items ≡ given_in members.old.items }
    ensures to_come { to_come_in members.new.items ≤ to_come_in members.old.items }
    ensures count { vec_len members.new ≡ vec_len members.old }
{
    match next_from(members.as_slice(), turn) {
        None => turn,
        Some(who) => {
            let member = &mut members[who];
            member.ask(rt, alloc, name);
            who + 1
        }
    }
}

// Asks for the name, where it hasn't arrived and wasn't asked for. Says who is asked next.
#[tactic(auto, using(crate::proofs::Teams::same_members))]
fn ask_if_new<R: Wait, F: Outside + Drop>(
    rt: &R,
    alloc: Global,
    members: &mut Vec<Member<F>>,
    turn: usize,
    name: &ScriptName,
    journal: &Journal,
) -> usize
    requires members { AreMembers F.Outside members.old.items }
    requires apart { AreDistinct (names_in members.old.items) }
    ensures members { AreMembers F.Outside members.new.items }
    ensures same { SameMembers members.old.items members.new.items }
    ensures apart { AreDistinct (names_in members.new.items) }
    ensures given { given_in members.new.items ≡ given_in members.old.items }
    ensures to_come { to_come_in members.new.items ≤ to_come_in members.old.items }
    ensures count { vec_len members.new ≡ vec_len members.old }
{
    if !is_new(journal, name.as_str()) {
        return turn;
    }
    match place_in(members.as_slice(), name.as_str()) {
        Some(_) => turn,
        None => ask_next(rt, alloc, members, turn, name),
    }
}

// Asks for those of the names that haven't arrived and weren't asked for.
fn ask_all<R: Wait, F: Outside + Drop>(
    rt: &R,
    alloc: Global,
    members: &mut Vec<Member<F>>,
    turn: usize,
    names: Vec<ScriptName>,
    journal: &Journal,
) -> usize
    requires members { AreMembers F.Outside members.old.items }
    requires apart { AreDistinct (names_in members.old.items) }
    ensures members { AreMembers F.Outside members.new.items }
    ensures same { SameMembers members.old.items members.new.items }
    ensures apart { AreDistinct (names_in members.new.items) }
    ensures given { given_in members.new.items ≡ given_in members.old.items }
    ensures to_come { to_come_in members.new.items ≤ to_come_in members.old.items }
    ensures count { vec_len members.new ≡ vec_len members.old }
{
    let mut next = turn;
    for name in names {
        next = ask_if_new(rt, alloc, members, next, &name, journal);
    }
    next
}

// Takes the answer that comes next of the one who was asked for the name at the place.
fn take_next_in<R: Wait, F: Outside + Drop>(
    rt: &R,
    alloc: Global,
    members: &mut Vec<Member<F>>,
    at: (usize, usize),
    journal: &Journal,
) -> Result<Early, NoMemory>
    requires members { AreMembers F.Outside members.old.items }
    requires place { (name : _) × HasPlace name at.0 at.1 members.old.items }
    ensures members { AreMembers F.Outside members.new.items }
    ensures same { SameMembers members.old.items members.new.items }
    ensures names { names_in members.new.items ≡ names_in members.old.items }
    ensures next { IfOk result (λ early. TakesNext early journal.now.fetches
        (given_in members.old.items) (given_in members.new.items)
        (to_come_in members.old.items) (to_come_in members.new.items)) }
    ensures err { OnErr result (given_in members.new.items ≡ given_in members.old.items) }
    ensures count { vec_len members.new ≡ vec_len members.old }
{
    let (who, place) = at;
    let member = &mut members[who];
    member.take_next(rt, alloc, place, journal)
}

/// The helpers of a run at work. A contract sees the folder, how many of them may be used, what
/// they were before, and what was given.
pub struct Fetchers<'a, R, F: Outside + Drop> {
    rt: &'a R,
    alloc: Global,
    dir: String,
    // The helpers that may be used, and the others behind them.
    members: Vec<Member<F>>,
    rest: Vec<F>,
    // Room for all of them, and for what goes through the lanes.
    back: Vec<F>,
    helped: Vec<Option<HelperLanes>>,
    // Who is asked next.
    turn: usize,
}

impl<'a, R, F: Outside + Drop> Model for Fetchers<'a, R, F> {
    ghost use Rattle.std.specs.Prelude.{◌≡◌, ◌≤◌, ◌+◌, ◌++◌, [], map, length, vec_len};
    ghost use Rattle.std.specs.String.{string_bytes};
    ghost use Rattle.std.specs.Vec.{vec_capacity};
    ghost use Rattle.page_turns.specs.Scripts.{AreDistinct};
    ghost use Rattle.preload.specs.Teams.{Team, AreMembers, AreIn, helper_of, names_in, given_in};
    ghost use Rattle.preload.specs.Teams.{to_come_in};

    ghost Value = { Team F };

    ghost view = { λ t. record {
      dir = string_bytes t.dir;
      used = length t.members.items;
      was = map helper_of t.members.items ++ t.rest.items;
      given = given_in t.members.items;
      to_come = to_come_in t.members.items;
    } };

    ghost invariant = { λ t. AreMembers F.Outside t.members.items × AreIn (string_bytes t.dir)
        t.members.items
        × AreDistinct (names_in t.members.items) × (t.back.items ≡ []) × (t.helped.items ≡ [])
        × (vec_len t.members + vec_len t.rest ≤ vec_capacity t.back)
        × (vec_len t.members ≤ vec_capacity t.helped) };
}

// Gives a helper its fetcher, or puts it aside where there are as many as may be.
fn place_helper<
    R: Threads + Wait + Copy + Send + Sync + 'static,
    F: Outside + Drop + Send + 'static,
>(
    rt: &R,
    alloc: Global,
    dir: &str,
    most: usize,
    helper: F,
    members: &mut Vec<Member<F>>,
    rest: &mut Vec<F>,
)
    requires room { (vec_len members.old < vec_capacity members.old)
        × (vec_len rest.old < vec_capacity rest.old) }
    ensures placed { Placed F.Outside dir.now most helper members.old.items members.new.items
        rest.old.items rest.new.items }
    ensures room { (vec_capacity members.new ≡ vec_capacity members.old)
        × (vec_capacity rest.new ≡ vec_capacity rest.old) }
    ensures few { (vec_len members.new ≤ vec_len members.old + 1)
        × (vec_len rest.new ≤ vec_len rest.old + 1) }
{
    let is_used = members.len() < most;
    if is_used {
        members.push_reserved(member_of(rt, alloc, dir, helper));
    } else {
        rest.push_reserved(helper);
    }
}

// Gives the first so many helpers their fetchers, and puts the others aside.
fn share_out<R: Threads + Wait + Copy + Send + Sync + 'static, F: Outside + Drop + Send + 'static>(
    rt: &R,
    alloc: Global,
    dir: &str,
    most: usize,
    all: Vec<F>,
    members: &mut Vec<Member<F>>,
    rest: &mut Vec<F>,
)
    requires none { (members.old.items ≡ []) × (rest.old.items ≡ []) }
    requires room { (vec_len all ≤ vec_capacity members.old)
        × (vec_len all ≤ vec_capacity rest.old) }
    ensures members { AreMembers F.Outside members.new.items }
    ensures folder { AreIn dir.now members.new.items }
    ensures was { map helper_of members.new.items ++ rest.new.items ≡ all.items }
    ensures names { names_in members.new.items ≡ [] }
    ensures given { given_in members.new.items ≡ [] }
    ensures used { vec_len members.new ≤ most }
    ensures count { vec_len members.new + vec_len rest.new ≡ vec_len all }
{
    for helper in all {
        place_helper(rt, alloc, dir, most, helper, members, rest);
    }
}

impl<
    'a,
    R: Threads + Wait + Copy + Send + Sync + 'static,
    F: Outside + Drop + Send + 'static,
> Fetchers<'a, R, F> {
    /// Gives the first so many helpers their threads. The list is empty until they come back. Where
    /// memory runs out it is as it was.
    #[tactic(auto, using(crate::proofs::Teams::distinct_none))]
    pub fn start(
        rt: &'a R,
        alloc: Global,
        dir: &str,
        most: usize,
        helpers: &mut Vec<F>,
    ) -> Result<Fetchers<'a, R, F>, NoMemory>
        ensures dir { IfOk result (λ t. t.dir ≡ dir.now) }
        ensures was { IfOk result (λ t. t.was ≡ helpers.old.items) }
        ensures used { IfOk result (λ t. t.used ≤ most) }
        ensures given { IfOk result (λ t. t.given ≡ []) }
        ensures err { OnErr result (helpers.new.items ≡ helpers.old.items) }
    {
        let many = helpers.len();
        let own_dir = String::from_str(alloc, dir)?;
        let mut members = Vec::with_capacity(alloc, many)?;
        let mut rest = Vec::with_capacity(alloc, many)?;
        let back = Vec::with_capacity(alloc, many)?;
        let helped = Vec::with_capacity(alloc, many)?;
        let all = mem::replace(helpers, Vec::new(alloc));
        share_out(rt, alloc, dir, most, all, &mut members, &mut rest);
        Ok(Fetchers {
            rt,
            alloc,
            dir: own_dir,
            members,
            rest,
            back,
            helped,
            turn: 0,
        })
    }
}

// Ends one.
fn end_one<R: Threads + Wait, F: Outside + Drop>(
    rt: &R,
    member: Member<F>,
) -> (F, Option<HelperLanes>)
    requires { IsMember F.Outside member }
    ensures back { CameBack F.Outside member result.1 (F.seen result.0) }
    ensures own { GaveOwn F.Outside member (F.seen result.0) }
{
    match member {
        Member::Works(fetcher) => {
            let Fetcher {
                helper,
                names: _names,
                told: _told,
            } = fetcher;
            let (helper, lanes) = helper.finish(rt);
            (helper, Some(lanes))
        }
        Member::Idle(helper) => (helper, None),
    }
}

// Ends the members, and puts the helpers into the list, and what went through their lanes.
fn end_members<R: Threads + Wait, F: Outside + Drop>(
    rt: &R,
    dir: &str,
    members: Vec<Member<F>>,
    back: &mut Vec<F>,
    helped: &mut Vec<Option<HelperLanes>>,
)
    requires members { AreMembers F.Outside members.items }
    requires folder { AreIn dir.now members.items }
    requires none { (back.old.items ≡ []) × (helped.old.items ≡ []) }
    requires room { vec_len back.old + vec_len members ≤ vec_capacity back.old }
    requires room_helped { vec_len helped.old + vec_len members ≤ vec_capacity helped.old }
    ensures back { CameBackEach F.Outside dir.now members.items helped.new.items
        (map F.seen back.new.items) }
    ensures count { vec_len back.new ≡ vec_len back.old + vec_len members }
    ensures capacity { vec_capacity back.new ≡ vec_capacity back.old }
{
    let _dir = dir;
    for member in members {
        let (helper, lanes) = end_one(rt, member);
        back.push_reserved(helper);
        helped.push_reserved(lanes);
    }
}

// Puts those that weren't used behind them.
fn put_back<F: Drop>(rest: Vec<F>, back: &mut Vec<F>)
    requires room { vec_len back.old + vec_len rest ≤ vec_capacity back.old }
    ensures { back.new.items ≡ back.old.items ++ rest.items }
{
    for unused in rest {
        back.push_reserved(unused);
    }
}

// Ends all of them, and puts the helpers into the list, each in its place, and what went through
// their lanes.
fn end_all<R: Threads + Wait, F: Outside + Drop>(
    rt: &R,
    dir: &str,
    members: Vec<Member<F>>,
    rest: Vec<F>,
    back: &mut Vec<F>,
    helped: &mut Vec<Option<HelperLanes>>,
)
    requires members { AreMembers F.Outside members.items }
    requires folder { AreIn dir.now members.items }
    requires none { (back.old.items ≡ []) × (helped.old.items ≡ []) }
    requires room { vec_len members + vec_len rest ≤ vec_capacity back.old }
    requires room_helped { vec_len members ≤ vec_capacity helped.old }
    ensures back { HelpedEach dir.now helped.new.items
        (map F.seen (map helper_of members.items ++ rest.items)) (map F.seen back.new.items) }
    ensures used { length helped.new.items ≡ length members.items }
    ensures names { names_through helped.new.items ≡ names_in members.items }
    ensures through { GivesMore (given_in members.items) (given_through helped.new.items) }
    ensures given { (name : _) (came : _) → IsGiven name came (given_in members.items)
        → AnyOf (MayHelp dir.now name came)
        (helps_first (length members.items) (map F.seen (map helper_of members.items ++ rest.items))
        (map F.seen back.new.items)) }
{
    end_members(rt, dir, members, back, helped);
    put_back(rest, back);
}

impl<'a, R: Threads + Wait, F: Outside + Drop> Fetchers<'a, R, F> {
    /// Tells each fetcher to stop, waits until it has, and puts all helpers back into the list, in
    /// their places. Says what went through the lanes of those that might be used; none where there
    /// were no lanes.
    pub fn finish(self, helpers: &mut Vec<F>) -> Vec<Option<HelperLanes>>
        ensures back { HelpedEach self.entry.dir result.items (map F.seen self.entry.was)
            (map F.seen helpers.new.items) }
        ensures used { length result.items ≡ self.entry.used }
        // No name was asked for twice, of whichever helper.
        ensures once { AreDistinct (names_through result.items) }
        ensures through { GivesMore self.entry.given (given_through result.items) }
        ensures given { (name : _) (came : _) → IsGiven name came self.entry.given
            → AnyOf (MayHelp self.entry.dir name came)
            (helps_first self.entry.used (map F.seen self.entry.was)
            (map F.seen helpers.new.items)) }
    {
        let Fetchers {
            rt,
            alloc: _alloc,
            dir,
            members,
            rest,
            mut back,
            mut helped,
            turn: _turn,
        } = self;
        end_all(rt, dir.as_str(), members, rest, &mut back, &mut helped);
        *helpers = back;
        helped
    }
}

impl<'a, E: InForce, R: Threads + Wait, F: Outside + Drop> Prefetch<E> for Fetchers<'a, R, F> {
    ghost use Rattle.preload.specs.Teams.{crew_of};

    ghost crew = { λ t. crew_of F.Outside t };

    ghost given = { λ t. t.given };

    ghost to_come = { λ t. t.to_come };

    #[tactic(auto, using(crate::proofs::Teams::ins_same, crate::proofs::Teams::helpers_same, crate::proofs::Teams::count_same))]
    fn hear(&mut self, reply: &Reply<E>, journal: &Journal) {
        if self.members.is_empty() {
            return;
        }
        let Ok(names) = names(self.alloc, reply) else {
            return;
        };
        self.turn = ask_all(
            self.rt,
            self.alloc,
            &mut self.members,
            self.turn,
            names,
            journal,
        );
    }

    #[tactic(auto, using(crate::proofs::Teams::ins_same, crate::proofs::Teams::helpers_same, crate::proofs::Teams::count_same))]
    fn next(&mut self, name: &str, journal: &Journal) -> Result<Early, NoMemory> {
        match place_in(&self.members, name) {
            None => Ok(Early::Unasked),
            Some(at) => take_next_in(self.rt, self.alloc, &mut self.members, at, journal),
        }
    }
}
