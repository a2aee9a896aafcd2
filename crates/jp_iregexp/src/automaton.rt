//! A pattern as states: each state waits for one scalar of its class, and says which states wait after it. A text runs through
//! one word, which holds the states that wait.

ghost use Rattle.std.specs.Prelude.{◌≡◌, ◌↔◌, ◌<◌, ◌≤◌, ℕ, IsTrue, IfOk, Some, None, bit_and, length, get_or, map};
ghost use Rattle.std.specs.Option.{IfSome};
ghost use Rattle.std.specs.Str.{chars};
ghost use Rattle.jp_model.specs.Pattern.Language.{Occurs};
ghost use Rattle.jp_iregexp.specs.States.{AreMasks, AreSets, HasState, IsPassed, IsStep, Leads, WaitsAfter, is_chained, is_link, set_after};
ghost use Rattle.jp_iregexp.specs.Layouts.{state_of};

use crate::class::Class;
use crate::codes::codes_of;
use std::alloc::{AllocError, Global};

/// The bit of the end of the text.
pub(crate) const END: u64 = 1 << 63;

/// As many states as there may be.
pub(crate) const MOST_STATES: usize = 63;

/// One state.
#[derive(Drop)]
pub(crate) struct State {
    pub(crate) class: Class,
    pub(crate) after: u64,
}

/// The states of a pattern, and those that wait at the start of a text.
#[derive(Drop)]
pub(crate) struct Automaton {
    pub(crate) states: Vec<State>,
    pub(crate) starts: u64,
    /// The states after which only the one with the next number waits.
    chained: u64,
    /// By ASCII scalar the states whose class has it.
    ascii: Vec<u64>,
    ghost few: { length states.items ≤ 63 },
    ghost links: { (p : ℕ) → HasState chained p ↔ IsTrue (is_chained (map state_of states.items) p) },
    ghost masks: { AreMasks (map state_of states.items) ascii.items },
    ghost all: { length ascii.items ≡ 128 },
}

impl Automaton {
    /// If memory is refused, the answer is an error.
    pub(crate) fn new(
        alloc: Global,
        states: Vec<State>,
        starts: u64,
    ) -> Result<Automaton, AllocError>
        requires { length states.items ≤ 63 }
        ensures states { IfOk result (λ automaton. automaton.states.items ≡ states.items) }
        ensures starts { IfOk result (λ automaton. automaton.starts ≡ starts) }
    {
        let ascii = ascii_masks(alloc, states.as_slice())?;
        let chained = chained(states.as_slice());
        Ok(Automaton {
            states,
            starts,
            chained,
            ascii,
        })
    }

    /// What waits after the scalar.
    fn step(&self, waiting: u64, scalar: char) -> u64
        ensures { IsStep (map state_of self.now.states.items) waiting scalar result }
    {
        if scalar.is_ascii() {
            self.ascii_step(waiting, scalar as u8)
        } else {
            asked_step(self.states.as_slice(), waiting, scalar)
        }
    }

    /// The states that wait after an ASCII scalar.
    #[inline(always)]
    fn ascii_step(&self, waiting: u64, scalar: u8) -> u64
        requires { scalar < 128 }
        ensures { IsStep (map state_of self.now.states.items) waiting scalar result }
    {
        self.after(waiting & self.ascii[scalar as usize])
    }

    /// What waits after any of the states that are ready. Those that are chained move on at once.
    #[inline(always)]
    fn after(&self, ready: u64) -> u64
        ensures { (q : ℕ) → HasState result q ↔ WaitsAfter (map state_of self.now.states.items) ready q }
    {
        let moved = (ready & self.chained) << 1;
        moved | after_each(self.states.as_slice(), ready & !self.chained)
    }

    /// Of the states that wait, those that take an ASCII scalar. None where the byte is not ASCII.
    #[inline(always)]
    fn ready(&self, waiting: u64, byte: u8) -> Option<u64>
        ensures ascii { IfSome result (λ ready. byte < 128) }
        ensures ready { IfSome result (λ ready. ready ≡ bit_and waiting (get_or self.now.ascii.items byte 0)) }
    {
        match self.ascii.get(byte as usize) {
            Some(mask) => Some(waiting & *mask),
            None => None,
        }
    }

    /// Whether the text leads from the start to the end. No scalar is decoded, up to the first that is not ASCII.
    #[inline(never)]
    pub(crate) fn accepts(&self, text: &str) -> bool
        ensures { IsTrue result ↔ Leads (map state_of self.now.states.items) self.now.starts (chars text.now) }
    {
        let mut waiting = self.starts;
        for byte in text.as_bytes() {
            let Some(ready) = self.ready(waiting, *byte) else {
                return self.accepts_any(text);
            };
            if ready == 0 {
                return false;
            }
            waiting = self.after(ready);
        }
        has_end(waiting)
    }

    /// Whether the states lead over a text that need not be ASCII.
    #[inline(never)]
    fn accepts_any(&self, text: &str) -> bool
        ensures { IsTrue result ↔ Leads (map state_of self.now.states.items) self.now.starts (chars text.now) }
    {
        let mut waiting = self.starts;
        for scalar in text.chars() {
            waiting = self.step(waiting, scalar);
            if waiting == 0 {
                return false;
            }
        }
        has_end(waiting)
    }

    /// Whether a part of the text leads from the start to the end. No scalar is decoded, up to the first that is not ASCII.
    #[inline(never)]
    pub(crate) fn finds(&self, text: &str) -> bool
        ensures { IsTrue result ↔ Occurs (Leads (map state_of self.now.states.items) self.now.starts) (chars text.now) }
    {
        let mut waiting = self.starts;
        if has_end(waiting) {
            return true;
        }
        for byte in text.as_bytes() {
            let Some(ready) = self.ready(waiting, *byte) else {
                return self.finds_any(text);
            };
            if ready == 0 {
                waiting = self.starts;
            } else {
                waiting = self.after(ready) | self.starts;
                if has_end(waiting) {
                    return true;
                }
            }
        }
        false
    }

    /// Whether a part of a text that need not be ASCII is one to which the states lead.
    #[inline(never)]
    fn finds_any(&self, text: &str) -> bool
        ensures { IsTrue result ↔ Occurs (Leads (map state_of self.now.states.items) self.now.starts) (chars text.now) }
    {
        let mut waiting = self.starts;
        for scalar in text.chars() {
            if has_end(waiting) {
                return true;
            }
            waiting = self.step(waiting, scalar) | self.starts;
        }
        has_end(waiting)
    }
}

/// Whether the end of the text is in the set.
#[inline(always)]
fn has_end(set: u64) -> bool
    ensures { IsTrue result ↔ HasState set 63 }
{
    (set >> 63) & 1 == 1
}

/// The states after which only the one with the next number waits. They are numbered as they are read, so most are.
fn chained(states: &[State]) -> u64
    requires { length states.now ≤ 63 }
    ensures { (p : ℕ) → HasState result p ↔ IsTrue (is_chained (map state_of states.now) p) }
{
    let mut all = 0;
    for (number, state) in states.iter().enumerate() {
        if is_link(state.after, number) {
            all |= 1 << number;
        }
    }
    all
}

/// Whether the word has the state with the next number alone.
fn is_link(word: u64, number: usize) -> bool
    requires { number < 63 }
    ensures { result ≡ is_link word number }
{
    word == 1 << (number + 1)
}

/// By ASCII scalar the states that wait for it.
fn ascii_masks(alloc: Global, states: &[State]) -> Result<Vec<u64>, AllocError>
    requires { length states.now ≤ 63 }
    ensures masks { IfOk result (λ masks. AreMasks (map state_of states.now) masks.items) }
    ensures all { IfOk result (λ masks. length masks.items ≡ 128) }
{
    let sets = ascii_sets(alloc, states)?;
    let mut masks = Vec::new(alloc);
    masks.reserve(128)?;
    for code in 0u8..128 {
        masks.push(having(sets.as_slice(), code))?;
    }
    Ok(masks)
}

/// By state the ASCII scalars that it waits for.
fn ascii_sets(alloc: Global, states: &[State]) -> Result<Vec<u128>, AllocError>
    ensures { IfOk result (λ sets. AreSets (map state_of states.now) sets.items) }
{
    let mut sets = Vec::new(alloc);
    sets.reserve(states.len())?;
    for state in states {
        sets.push(codes_of(&state.class))?;
    }
    Ok(sets)
}

/// The numbers of the sets that have the ASCII scalar with this code.
fn having(sets: &[u128], code: u8) -> u64
    requires few { length sets.now ≤ 63 }
    requires ascii { code < 128 }
    ensures { (number : ℕ) → HasState result number ↔ HasState (get_or sets.now number 0) code }
{
    let mut all = 0;
    for (number, codes) in sets.iter().enumerate() {
        if (*codes >> code) & 1 == 1 {
            all |= 1 << number;
        }
    }
    all
}

/// What waits after any of the states that are ready: each of them is asked.
#[inline(always)]
fn after_each(states: &[State], ready: u64) -> u64
    ensures { (q : ℕ) → HasState result q ↔ WaitsAfter (map state_of states.now) ready q }
{
    let mut next = 0;
    let mut rest = ready;
    while rest != 0 {
        next |= word_after(states, rest.trailing_zeros() as usize);
        rest &= rest - 1;
    }
    next
}

/// The states that wait after the one with this number. None do where there is no such state.
#[inline(always)]
fn word_after(states: &[State], number: usize) -> u64
    ensures { result ≡ set_after (map state_of states.now) number }
{
    match states.get(number) {
        Some(state) => state.after,
        None => 0,
    }
}

/// What waits after the scalar: each state that waits is asked.
fn asked_step(states: &[State], waiting: u64, scalar: char) -> u64
    ensures { IsStep (map state_of states.now) waiting scalar result }
{
    let mut next = 0;
    let mut rest = waiting;
    while rest != 0 {
        if let Some(behind) = asked(states, rest.trailing_zeros() as usize, scalar) {
            next |= behind;
        }
        rest &= rest - 1;
    }
    next
}

/// What waits after the state with this number, or `None` where no such state waits for the scalar.
fn asked(states: &[State], number: usize, scalar: char) -> Option<u64>
    ensures some { IfSome result (λ behind. IsPassed (map state_of states.now) number scalar behind) }
    ensures none { result ≡ None → (behind : ℕ) → IsPassed (map state_of states.now) number scalar behind → ⊥ }
{
    let Some(state) = states.get(number) else {
        return None;
    };
    let after = state.after;
    if state.class.contains(scalar) {
        Some(after)
    } else {
        None
    }
}
