//! Pages on two threads that hold one another or take a while, with helpers and without, and how
//! much of a page each side parses. With them the tests of `parser_thread`.
#![tactic(auto)]

#[cfg(test)]
mod calls;
#[cfg(test)]
mod counting;
#[cfg(test)]
mod delays;
#[cfg(test)]
mod held;
#[cfg(test)]
mod lanes;
#[cfg(test)]
mod meeting;
#[cfg(test)]
mod paired;
#[cfg(test)]
mod preloads;
#[cfg(test)]
mod running;
#[cfg(test)]
mod slow_lists;
#[cfg(test)]
mod thread_pages;
#[cfg(test)]
mod threads;
#[cfg(test)]
mod trials;
#[cfg(test)]
mod watching;
