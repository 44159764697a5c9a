// Sets of the numbers 0 to 63 as words.
#![tactic(auto)]

ghost use Rattle.std.specs.Prelude.{◌≡◌, not, ◌&&◌, ◌||◌, ℕ, ◌≤◌, ◌<◌, eqb};
ghost use Rattle.sets.specs.Sets.{member};
ghost use Rattle.sets.specs.Inner.Promises.{MembersWithin, NextMember};

pub fn has(set: u64, i: u8) -> bool
    requires { i < 64 }
    ensures { result ≡ member set i }
{
    (set >> i) % 2 == 1
}

// Whether a number, whichever it is, is a member: from 64 on none is.
pub fn is_member(set: u64, i: u8) -> bool
    ensures { result ≡ member set i }
{
    if 64 <= i {
        return false;
    }
    has(set, i)
}

pub fn with(set: u64, i: u8) -> u64
    requires { i < 64 }
    ensures { (k : ℕ) → member result k ≡ (eqb k i || member set k) }
{
    set | (1 << i)
}

pub fn with_if(set: u64, i: u8, is_in: bool) -> u64
    requires { i < 64 }
    ensures { (k : ℕ) → member result k ≡ ((eqb k i && is_in) || member set k) }
{
    if is_in {
        return with(set, i);
    }
    set
}

pub fn union(a: u64, b: u64) -> u64
    ensures { (k : ℕ) → member result k ≡ (member a k || member b k) }
{
    a | b
}

pub fn common(a: u64, b: u64) -> u64
    ensures { (k : ℕ) → member result k ≡ (member a k && member b k) }
{
    a & b
}

// The members of `a` that `b` lacks.
pub fn without(a: u64, b: u64) -> u64
    ensures { (k : ℕ) → member result k ≡ (member a k && not (member b k)) }
{
    a ^ (a & b)
}

// Whether every member of `a` is one of `b`.
pub fn is_within(a: u64, b: u64) -> bool
    ensures { MembersWithin a b result }
{
    a & b == a
}

// The first member at a place or after it.
pub fn next_member(set: u64, from: u8) -> Option<u8>
    requires { from ≤ 64 }
    ensures { NextMember set from result }
{
    if from == 64 {
        return None;
    }
    let rest = set >> from;
    if rest == 0 {
        return None;
    }
    Some(from + u64::trailing_zeros(rest) as u8)
}
