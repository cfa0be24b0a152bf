// Selects of three to five unlike futures: each is a select of a list of them.
ghost use Rattle.std.specs.Prelude.{◌≡◌, false, ◌++◌, ◌∷◌, ◌<◌, ◌≤◌, ◌+◌, ◌==◌, ◌/◌, ◌%◌, ◌^◌, [], vec_len, vec_capacity, IfOk, IfErr};
ghost use Rattle.mono_combine.specs.ListSelects.{masked_from};
ghost use Rattle.mono_combine.specs.Selects.{left_out_if};

use crate::branch::{Branch, branch_of};
use crate::select_list::SelectList;
use crate::start::Start;
use crate::unlikes::{OneOf3, OneOf4, OneOf5};
use std::alloc::Global;

/// A select of three unlike futures.
pub type Select3<A, B, D, G> = SelectList<OneOf3<A, B, D>, G>;

/// A select of four unlike futures.
pub type Select4<A, B, D, E, G> = SelectList<OneOf4<A, B, D, E>, G>;

/// A select of five unlike futures.
pub type Select5<A, B, D, E, F, G> = SelectList<OneOf5<A, B, D, E, F>, G>;

// Adds a branch, which is left out if the mask has the bit of its number.
fn push_branch<T: Drop>(branches: &mut Vec<Branch<T>>, future: T, mask: u64)
    requires room { vec_len branches.old < vec_capacity branches.old }
    requires few { vec_len branches.old < 64 }
    ensures added { branches.new.items ≡ branches.old.items ++ (left_out_if (mask / 2 ^ (vec_len branches.old) % 2 == 1) future ∷ []) }
    ensures length { vec_len branches.new ≡ vec_len branches.old + 1 }
    ensures room { vec_capacity branches.old ≤ vec_capacity branches.new }
{
    let is_left_out = (mask >> branches.len()) % 2 == 1;
    if branches.push(branch_of(future, is_left_out)).is_err() {
        unreachable!();
    }
}

/// Returns the select of three unlike futures that are not spent, with a predicate of a branch's number and its output
/// (an `Out3`). Bit `i` of the mask leaves out the branch with the number `i`; further bits have no effect. The futures
/// and the predicate come back only if the call is out of memory.
pub fn select3<A: Drop, B: Drop, D: Drop, G>(
    alloc: Global,
    a: A,
    b: B,
    d: D,
    g: G,
    mask: u64,
    start: Start,
) -> Result<Select3<A, B, D, G>, ((A, B, D), G)>
    ensures made { IfOk result (λ form. form.branches.items ≡ masked_from mask 0 (OneOf3.First a ∷ OneOf3.Second b ∷ OneOf3.Third d ∷ [])) }
    ensures test { IfOk result (λ form. form.test ≡ g) }
    ensures start { IfOk result (λ form. form.start ≡ start) }
    ensures fresh { IfOk result (λ form. form.has_answered ≡ false) }
    ensures handed_back { IfErr result (λ back. back ≡ ((a, b, d), g)) }
{
    let Ok(mut branches) = Vec::with_capacity(alloc, 3) else {
        return Err(((a, b, d), g));
    };
    push_branch(&mut branches, OneOf3::First(a), mask);
    push_branch(&mut branches, OneOf3::Second(b), mask);
    push_branch(&mut branches, OneOf3::Third(d), mask);
    Ok(SelectList {
        branches,
        test: g,
        start,
        has_answered: false,
    })
}

/// Returns the select of four unlike futures that are not spent, with a predicate of a branch's number and its output
/// (an `Out4`). Bit `i` of the mask leaves out the branch with the number `i`; further bits have no effect. The futures
/// and the predicate come back only if the call is out of memory.
pub fn select4<A: Drop, B: Drop, D: Drop, E: Drop, G>(
    alloc: Global,
    a: A,
    b: B,
    d: D,
    e: E,
    g: G,
    mask: u64,
    start: Start,
) -> Result<Select4<A, B, D, E, G>, ((A, B, D, E), G)>
    ensures made { IfOk result (λ form. form.branches.items ≡ masked_from mask 0 (OneOf4.First a ∷ OneOf4.Second b ∷ OneOf4.Third d ∷ OneOf4.Fourth e ∷ [])) }
    ensures test { IfOk result (λ form. form.test ≡ g) }
    ensures start { IfOk result (λ form. form.start ≡ start) }
    ensures fresh { IfOk result (λ form. form.has_answered ≡ false) }
    ensures handed_back { IfErr result (λ back. back ≡ ((a, b, d, e), g)) }
{
    let Ok(mut branches) = Vec::with_capacity(alloc, 4) else {
        return Err(((a, b, d, e), g));
    };
    push_branch(&mut branches, OneOf4::First(a), mask);
    push_branch(&mut branches, OneOf4::Second(b), mask);
    push_branch(&mut branches, OneOf4::Third(d), mask);
    push_branch(&mut branches, OneOf4::Fourth(e), mask);
    Ok(SelectList {
        branches,
        test: g,
        start,
        has_answered: false,
    })
}

/// Returns the select of five unlike futures that are not spent, with a predicate of a branch's number and its output
/// (an `Out5`). Bit `i` of the mask leaves out the branch with the number `i`; further bits have no effect. The futures
/// and the predicate come back only if the call is out of memory.
pub fn select5<A: Drop, B: Drop, D: Drop, E: Drop, F: Drop, G>(
    alloc: Global,
    a: A,
    b: B,
    d: D,
    e: E,
    f: F,
    g: G,
    mask: u64,
    start: Start,
) -> Result<Select5<A, B, D, E, F, G>, ((A, B, D, E, F), G)>
    ensures made { IfOk result (λ form. form.branches.items ≡ masked_from mask 0 (OneOf5.First a ∷ OneOf5.Second b ∷ OneOf5.Third d ∷ OneOf5.Fourth e ∷ OneOf5.Fifth f ∷ [])) }
    ensures test { IfOk result (λ form. form.test ≡ g) }
    ensures start { IfOk result (λ form. form.start ≡ start) }
    ensures fresh { IfOk result (λ form. form.has_answered ≡ false) }
    ensures handed_back { IfErr result (λ back. back ≡ ((a, b, d, e, f), g)) }
{
    let Ok(mut branches) = Vec::with_capacity(alloc, 5) else {
        return Err(((a, b, d, e, f), g));
    };
    push_branch(&mut branches, OneOf5::First(a), mask);
    push_branch(&mut branches, OneOf5::Second(b), mask);
    push_branch(&mut branches, OneOf5::Third(d), mask);
    push_branch(&mut branches, OneOf5::Fourth(e), mask);
    push_branch(&mut branches, OneOf5::Fifth(f), mask);
    Ok(SelectList {
        branches,
        test: g,
        start,
        has_answered: false,
    })
}
