// Free places between blocks.

ghost use Rattle.std.specs.Prelude.{◌≡◌, ◌<◌, ◌≤◌, ◌+◌, ◌++◌, length, take, drop, vec_capacity, ◌^◌, IfSome};
ghost use Rattle.mdr_region.specs.Holes.{hole, end_of, joined, found, cut, returned, below, lowered, Rise, first_fit, passed_by, is_met};

/// So many free places from `start` on, with none beside them.
#[derive(Clone, Copy)]
pub struct Hole {
    pub start: usize,
    pub len: usize,
}

// Which hole is the first of at least n places.
pub fn first_of(holes: &[Hole], n: usize) -> Option<usize>
    ensures { result ≡ first_fit n 0 holes.now }
{
    for i in 0..holes.len() {
        if n <= holes[i].len {
            return Some(i);
        }
    }
    None
}

/// Takes n places from the first hole that has as many, and says where they begin.
pub fn take_first(holes: &mut Vec<Hole>, n: usize, top: usize) -> Option<usize>
    requires { Rise 0 top holes.old.items }
    ensures start { result ≡ found n holes.old.items }
    ensures holes { holes.new.items ≡ cut n holes.old.items }
    ensures capacity { vec_capacity holes.new ≡ vec_capacity holes.old }
{
    let i = first_of(holes, n)?;
    let first = holes[i];
    if first.len == n {
        holes.remove(i);
    } else {
        holes[i] = Hole {
            start: first.start + n,
            len: first.len - n,
        };
    }
    Some(first.start)
}

// How many holes end before the place.
fn passed(holes: &[Hole], start: usize, top: usize) -> usize
    requires { Rise 0 top holes.now }
    ensures { result ≡ passed_by start holes.now }
{
    for i in 0..holes.len() {
        if holes[i].start + holes[i].len >= start {
            return i;
        }
    }
    holes.len()
}

// Whether the hole with this number ends at the place.
fn ends_at(holes: &[Hole], i: usize, start: usize, top: usize) -> bool
    requires { Rise 0 top holes.now }
    ensures { result ≡ is_met start (drop i holes.now) }
{
    i < holes.len() && holes[i].start + holes[i].len == start
}

// Puts a hole before those from i on, as one with the first of them where it touches it.
fn join_at(holes: &mut Vec<Hole>, i: usize, first: Hole, top: usize)
    requires rise { Rise 0 top holes.old.items }
    requires inside { i ≤ length holes.old.items }
    requires low { end_of first ≤ top }
    requires room { length (take i holes.old.items ++ joined first (drop i holes.old.items)) ≤ vec_capacity holes.old }
    ensures holes { holes.new.items ≡ take i holes.old.items ++ joined first (drop i holes.old.items) }
    ensures capacity { vec_capacity holes.old ≤ vec_capacity holes.new }
{
    if i < holes.len() {
        let next = holes[i];
        if first.start + first.len == next.start {
            holes[i] = Hole {
                start: first.start,
                len: first.len + next.len,
            };
            return;
        }
    }
    if holes.insert(i, first).is_err() {
        unreachable!()
    }
}

/// Adds free places, as one hole with those that they touch.
pub fn give_back(holes: &mut Vec<Hole>, start: usize, len: usize, top: usize)
    requires rise { Rise 0 top holes.old.items }
    requires low { start + len ≤ top }
    requires room { length (returned (hole start len) holes.old.items) ≤ vec_capacity holes.old }
    ensures holes { holes.new.items ≡ returned (hole start len) holes.old.items }
    ensures capacity { vec_capacity holes.old ≤ vec_capacity holes.new }
{
    let i = passed(holes, start, top);
    if ends_at(holes, i, start, top) {
        let before = holes.remove(i);
        let both = Hole {
            start: before.start,
            len: before.len + len,
        };
        join_at(holes, i, both, top);
    } else {
        join_at(holes, i, Hole { start, len }, top);
    }
}

/// Drops the hole that ends at the top, and says where the top is then.
pub fn drop_top(holes: &mut Vec<Hole>, top: usize) -> usize
    requires { Rise 0 top holes.old.items }
    ensures top { result ≡ lowered top holes.old.items }
    ensures holes { holes.new.items ≡ below top holes.old.items }
    ensures capacity { vec_capacity holes.new ≡ vec_capacity holes.old }
{
    let n = holes.len();
    if n > 0 {
        let last = holes[n - 1];
        if last.start + last.len == top {
            holes.truncate(n - 1);
            return last.start;
        }
    }
    top
}
