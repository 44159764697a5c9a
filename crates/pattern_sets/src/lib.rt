// Sets of fact patterns, the numbers 0 to 255, as four words.
#![tactic(auto)]

ghost use Rattle.std.specs.Prelude.{◌≡◌, not, ◌&&◌, ◌||◌, true, false, ℕ, ◌<◌, ◌≤◌, eqb, get_or};
ghost use Rattle.pattern_sets.specs.Inner.PatternSets.{holds, NextPattern, IsEmpty, Same};
ghost use Rattle.pattern_sets.specs.Inner.Images.{AllFlagged, ShiftedMembers, Shifted, Image, raised_at, crossed_at, raised_by, crossed_by, joined_by, Apart, Joined};

pub fn empty() -> [u64; 4]
    ensures { (y : ℕ) → holds result y ≡ false }
{
    [0u64; 4]
}

pub fn has(set: [u64; 4], x: u8) -> bool
    ensures { result ≡ holds set x }
{
    sets::has(set[(x / 64) as usize], x % 64)
}

pub fn with(set: [u64; 4], x: u8) -> [u64; 4]
    ensures { (y : ℕ) → holds result y ≡ (eqb y x || holds set y) }
{
    let mut larger = set;
    let i = (x / 64) as usize;
    larger[i] = sets::with(set[i], x % 64);
    larger
}

// The set of one pattern.
pub fn only(x: u8) -> [u64; 4]
    ensures { (y : ℕ) → holds result y ≡ eqb y x }
{
    let word = sets::with(0, x % 64);
    let i = x / 64;
    match i {
        0 => [word, 0, 0, 0],
        1 => [0, word, 0, 0],
        2 => [0, 0, word, 0],
        _ => [0, 0, 0, word],
    }
}

// A set of the words that f makes of the words of two sets.
fn by_words<F: Fn(u64, u64) -> u64>(a: [u64; 4], b: [u64; 4], f: F) -> [u64; 4]
    requires { F.IsAlwaysCallable f }
    ensures { (i : ℕ) → i < 4 → F.post f (get_or a i 0) (get_or b i 0) (get_or result i 0) }
{
    [f(a[0], b[0]), f(a[1], b[1]), f(a[2], b[2]), f(a[3], b[3])]
}

pub fn union(a: [u64; 4], b: [u64; 4]) -> [u64; 4]
    ensures { (y : ℕ) → holds result y ≡ (holds a y || holds b y) }
{
    by_words(a, b, sets::union)
}

pub fn intersection(a: [u64; 4], b: [u64; 4]) -> [u64; 4]
    ensures { (y : ℕ) → holds result y ≡ (holds a y && holds b y) }
{
    by_words(a, b, sets::common)
}

pub fn difference(a: [u64; 4], b: [u64; 4]) -> [u64; 4]
    ensures { (y : ℕ) → holds result y ≡ (holds a y && not (holds b y)) }
{
    by_words(a, b, sets::without)
}

// The patterns that have flag i.
pub fn flagged(i: u8) -> [u64; 4]
    ensures { AllFlagged i result }
{
    match i {
        0 => [0xAAAA_AAAA_AAAA_AAAA; 4],
        1 => [0xCCCC_CCCC_CCCC_CCCC; 4],
        2 => [0xF0F0_F0F0_F0F0_F0F0; 4],
        3 => [0xFF00_FF00_FF00_FF00; 4],
        4 => [0xFFFF_0000_FFFF_0000; 4],
        5 => [0xFFFF_FFFF_0000_0000; 4],
        6 => [0, 0xFFFF_FFFF_FFFF_FFFF, 0, 0xFFFF_FFFF_FFFF_FFFF],
        7 => [0, 0, 0xFFFF_FFFF_FFFF_FFFF, 0xFFFF_FFFF_FFFF_FFFF],
        _ => [0; 4],
    }
}

fn shifted_word(word: u64, n: u32) -> u64
    requires { n < 64 }
    ensures { ShiftedMembers word n result }
{
    word << n
}

// Each pattern moved to the one with flag i, if it lacks it; what else is there does not matter. Here and below i is a loop's counter, of
// which `0..8` says the bound: a type of flags would have to be made of it, and would say no more.
fn shifted(set: [u64; 4], i: u8) -> [u64; 4]
    requires { i < 8 }
    ensures { Shifted set i result }
{
    if i == 7 {
        return [0, 0, set[0], set[1]];
    }
    if i == 6 {
        return [0, set[0], set[1], set[2]];
    }
    let n = 1u32 << i;
    [
        shifted_word(set[0], n),
        shifted_word(set[1], n),
        shifted_word(set[2], n),
        shifted_word(set[3], n),
    ]
}

// Each pattern with flag i.
fn raised(set: [u64; 4], i: u8) -> [u64; 4]
    requires { i < 8 }
    ensures { Image (raised_at i) set result }
{
    intersection(flagged(i), union(set, shifted(set, i)))
}

// Each pattern with flag i if it has flag c.
fn crossed(set: [u64; 4], c: u8, i: u8) -> [u64; 4]
    requires { i < 8 }
    ensures { Image (crossed_at c i) set result }
{
    let those = flagged(c);
    union(difference(set, those), raised(intersection(set, those), i))
}

// Each pattern with the flags of x.
fn raised_by(set: [u64; 4], x: u8) -> [u64; 4]
    ensures { Image (raised_by 8 x) set result }
{
    let mut image = set;
    for i in 0..8u8 {
        if sets::has(x as u64, i) {
            let next = raised(image, i);
            image = next;
        }
    }
    image
}

// Each pattern with the flags at whose places x and it have flags.
fn crossed_by(set: [u64; 4], x: u8, firsts: [u8; 8], seconds: [u8; 8]) -> [u64; 4]
    ensures { Apart x firsts seconds → Image (crossed_by 8 x firsts seconds) set result }
{
    let mut image = set;
    for i in 0..8u8 {
        let k = i as usize;
        if sets::has(x as u64, firsts[k] % 64) {
            let next = crossed(image, seconds[k] % 64, i);
            image = next;
        }
    }
    image
}

// Each pattern joined with x.
fn joined_with(set: [u64; 4], x: u8, firsts: [u8; 8], seconds: [u8; 8]) -> [u64; 4]
    ensures { Apart x firsts seconds → Image (joined_by firsts seconds x) set result }
{
    if x == 0 {
        return set;
    }
    raised_by(crossed_by(set, x, firsts, seconds), x)
}

// The patterns of `a` joined with those of `b`.
pub fn joined_sets(a: [u64; 4], b: [u64; 4], firsts: [u8; 8], seconds: [u8; 8]) -> [u64; 4]
    ensures { ((x : ℕ) → holds a x ≡ true → Apart x firsts seconds) → Joined (joined_by firsts seconds) a b result }
{
    let mut set = empty();
    let mut from = 0;
    while let Some(x) = next(a, from) {
        let more = union(set, joined_with(b, x, firsts, seconds));
        set = more;
        from = x as usize + 1;
    }
    set
}

// The first pattern of a set at a place or after it.
pub fn next(set: [u64; 4], from: usize) -> Option<u8>
    requires { from ≤ 256 }
    ensures { NextPattern set from result }
{
    let mut at = (from % 64) as u8;
    for i in from / 64..4 {
        if let Some(k) = sets::next_member(set[i], at) {
            return Some(i as u8 * 64 + k);
        }
        at = 0;
    }
    None
}

pub fn is_empty(set: [u64; 4]) -> bool
    ensures { IsEmpty set result }
{
    same(set, empty())
}

// The promise is told by patterns, as callers use it; a bare `==` would tell of words. They are compared one by one: `==` of arrays reads
// several at once, and waits where they were stored one by one just before.
pub fn same(a: [u64; 4], b: [u64; 4]) -> bool
    ensures { Same a b result }
{
    for i in 0..4 {
        if a[i] != b[i] {
            return false;
        }
    }
    true
}
