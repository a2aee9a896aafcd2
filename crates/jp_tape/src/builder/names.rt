//! The names of an object: whether two of them are equal.

ghost use Rattle.std.specs.Prelude.{◌≡◌, ◌<◌, ◌≤◌, ◌^◌, length, true, Some, nat_eq, refl, IfOk, IsSorted};
ghost use Rattle.std.specs.Ordering.{nat_cmp};
ghost use Rattle.std.specs.Cmp.Lexicographic.{slice_cmp, pointwise, nat_list_eq_equiv, nat_list_cmp_total, texts_po, texts_ties};
ghost use Rattle.std.specs.Cmp.{on_equiv, on_per, on_po, on_total, partial_equiv_from_equiv};
ghost use Rattle.std.specs.List.{filter, list_all};
ghost use Rattle.jp_model.specs.Json.Faults.{has_repeated};
ghost use Rattle.jp_tape.specs.Keys.{slot_in, shares_slot, slot_count, FallByText};
ghost use Rattle.jp_tape.specs.Names.{points, all_points, spelled_names, IsKept, AreKept, DiffersFrom, AreApart};
ghost use Rattle.jp_tape.specs.declared.builder.kept.KeptName.{KeptName};

use super::body::Body;
use super::kept::KeptName;
use super::keys::{count_hits, is_shared};
use jp_lanes::{ends_differ, equal_bytes};
use jp_strings::{compare, equal};
use std::alloc::{AllocError, Global};
use std::cmp::Ordering;

/// There are this many slots for each name, and never fewer than `FEW_SLOTS`.
const SLOTS_OF_NAME: usize = 16;

const FEW_SLOTS: usize = 256;

/// A slot is a number below 2^32, so of more names than these there are fewer slots for each.
const MOST_SLOTTED: usize = 1 << 28;

/// Fewer names than these have no equal ones.
const PAIR: usize = 2;

/// Of no more names than these each is compared with each, which takes less than their slots do.
const FEW: usize = 5;

impl PartialEq for Body<'_> {
    ghost eq = { λ a b. pointwise nat_eq (points a) (points b) };

    ghost laws = { on_per points (partial_equiv_from_equiv nat_list_eq_equiv) };

    fn eq(&self, other: &Body<'_>) -> bool {
        if self.is_plain && other.is_plain {
            return equal_bytes(self.bytes, other.bytes);
        }
        equal(self.bytes, other.bytes)
    }
}

impl Eq for Body<'_> {
    ghost laws = { on_equiv points nat_list_eq_equiv };
}

impl PartialOrd for Body<'_> {
    ghost partial_cmp = { λ a b. Some (slice_cmp nat_cmp (points a) (points b)) };

    ghost laws = { on_po points texts_po };

    fn partial_cmp(&self, other: &Body<'_>) -> Option<Ordering> {
        Some(self.cmp(other))
    }
}

impl Ord for Body<'_> {
    ghost cmp = { λ a b. slice_cmp nat_cmp (points a) (points b) };

    ghost total = { on_total points nat_list_cmp_total };

    ghost matches_partial_cmp = { λ a b. refl };

    ghost matches_eq = { λ a b. texts_ties (points a) (points b) };

    fn cmp(&self, other: &Body<'_>) -> Ordering {
        if self.is_plain && other.is_plain {
            return self.bytes.cmp(other.bytes);
        }
        compare(self.bytes, other.bytes)
    }
}

/// Whether two neighbours are equal.
fn has_equal_neighbours(bodies: &[Body<'_>]) -> bool
    requires { IsSorted (λ a b. slice_cmp nat_cmp (points a) (points b)) bodies.now }
    ensures { result ≡ has_repeated (all_points bodies.now) }
{
    for later in 1..bodies.len() {
        if bodies[later - 1] == bodies[later] {
            return true;
        }
    }
    false
}

/// The bodies of the names that share a slot. All that are equal are among them.
#[inline(never)]
fn doubtful<'a>(
    line: &'a [u8],
    names: &[KeptName],
    hits: &[u8],
    alloc: Global,
) -> Result<Vec<Body<'a>>, AllocError>
    requires kept { AreKept line.now names.now }
    requires some { 0 < length hits.now }
    requires few { length hits.now ≤ 2 ^ 32 }
    ensures { IfOk result (λ bodies. all_points bodies.items ≡ spelled_names line.now (filter (shares_slot (slot_in line.now (length hits.now)) hits.now) names.now)) }
{
    let mut bodies = Vec::new(alloc);
    for name in names {
        if is_shared(line, *name, hits) {
            bodies.push(name.body_in(line))?;
        }
    }
    Ok(bodies)
}

/// Whether each character stands for itself in all of them.
fn are_plain(names: &[KeptName]) -> bool
    ensures { result ≡ list_all (λ (n : KeptName). n.is_plain) names.now }
{
    for name in names {
        if !name.is_plain {
            return false;
        }
    }
    true
}

/// The number of slots for some names. Where one has an escape, its bytes do not tell what it spells, and all share one slot.
#[inline(always)]
fn slots_for(names: &[KeptName]) -> usize
    ensures { result ≡ slot_count names.now }
{
    if !are_plain(names) {
        return 1;
    }
    (SLOTS_OF_NAME * names.len().min(MOST_SLOTTED)).max(FEW_SLOTS)
}

/// Whether two of some names are equal: those that share none of the slots differ, and the others are sorted.
#[inline(always)]
fn has_equal_by(
    line: &[u8],
    names: &[KeptName],
    hits: &mut [u8],
    alloc: Global,
) -> Result<bool, AllocError>
    requires kept { AreKept line.now names.now }
    requires some { 0 < length hits.old }
    requires few { length hits.old ≤ 2 ^ 32 }
    requires told { FallByText line.now names.now (slot_in line.now (length hits.old)) }
    ensures { IfOk result (λ is_repeated. is_repeated ≡ has_repeated (spelled_names line.now names.now)) }
{
    if !count_hits(line, names, hits) {
        return Ok(false);
    }
    let mut bodies = doubtful(line, names, hits, alloc)?;
    bodies.sort_unstable();
    Ok(has_equal_neighbours(&bodies))
}

/// Whether two of many names are equal. They have more slots than the stack is to hold.
#[inline(never)]
fn has_equal_of_many(line: &[u8], names: &[KeptName], alloc: Global) -> Result<bool, AllocError>
    requires { AreKept line.now names.now }
    ensures { IfOk result (λ is_repeated. is_repeated ≡ has_repeated (spelled_names line.now names.now)) }
{
    let mut hits = Vec::new(alloc);
    hits.resize(slots_for(names), 0)?;
    has_equal_by(line, names, &mut hits, alloc)
}

/// Whether a name is known to differ from others. Most have another length, or another end.
#[inline(always)]
fn differs_from(line: &[u8], name: KeptName, others: &[KeptName]) -> bool
    requires name { IsKept line.now name }
    requires others { AreKept line.now others.now }
    ensures { result ≡ true → DiffersFrom line.now name others.now (length others.now) }
{
    for other in others {
        if !ends_differ(other.bytes(line), name.bytes(line)) {
            return false;
        }
    }
    true
}

/// Whether it is known that no two of a few names are equal: each stands for itself, and is compared with those before it.
#[inline(always)]
fn are_apart(line: &[u8], names: &[KeptName]) -> bool
    requires { AreKept line.now names.now }
    ensures { result ≡ true → AreApart line.now names.now (length names.now) }
{
    for later in 0..names.len() {
        if !names[later].is_plain || !differs_from(line, names[later], &names[..later]) {
            return false;
        }
    }
    true
}

/// Whether two of two or more names are equal.
#[inline(never)]
fn has_equal_of_some(line: &[u8], names: &[KeptName], alloc: Global) -> Result<bool, AllocError>
    requires { AreKept line.now names.now }
    ensures { IfOk result (λ is_repeated. is_repeated ≡ has_repeated (spelled_names line.now names.now)) }
{
    if names.len() <= FEW && are_apart(line, names) {
        return Ok(false);
    }
    let slots = slots_for(names);
    if slots > FEW_SLOTS {
        return has_equal_of_many(line, names, alloc);
    }
    let mut hits = [0; FEW_SLOTS];
    has_equal_by(line, names, &mut hits[..slots], alloc)
}

/// Whether two names are equal. Arrays and many objects have fewer than two.
#[inline(always)]
pub(super) fn has_equal(line: &[u8], names: &[KeptName], alloc: Global) -> Result<bool, AllocError>
    requires { AreKept line.now names.now }
    ensures { IfOk result (λ is_repeated. is_repeated ≡ has_repeated (spelled_names line.now names.now)) }
{
    if names.len() < PAIR {
        return Ok(false);
    }
    has_equal_of_some(line, names, alloc)
}
