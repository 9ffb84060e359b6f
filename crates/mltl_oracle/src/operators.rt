//! Kleene values of temporal operators at a time, over lists of known verdicts.

ghost use Rattle.mltl_base.specs.Kleene.{k_every_in};
ghost use Rattle.mltl_base.specs.Meaning.{within as lies_within};
ghost use Rattle.mltl_base.specs.Verdicts.{k_finally, k_globally, k_historically, k_once, k_since, k_until};
ghost use Rattle.mltl_oracle.specs.Computing.{known_verdict as seen_at};
ghost use Rattle.std.specs.Prelude.{◌≡◌, suc, ◌+◌, ◌^◌, ◌<◌, slice_get};

use crate::kleene::{and, not, or};
use mltl_base::Interval;

/// Returns the known verdict at time `t + k`, negated if `turned`.
pub fn seen(turned: bool, ps: &[bool], t: usize, k: usize) -> Option<bool>
    ensures { result ≡ seen_at turned ps.now (t + k) }
{
    let known = later(ps, t, k);
    if turned { not(known) } else { known }
}

/// Returns the known verdict at time `t + k`.
fn later(ps: &[bool], t: usize, k: usize) -> Option<bool>
    ensures { result ≡ slice_get ps.now (t + k) }
{
    if t < ps.len() && k < ps.len() - t {
        Some(ps[t + k])
    } else {
        None
    }
}

/// Returns the known verdict at a time.
pub fn known(ps: &[bool], t: usize) -> Option<bool>
    ensures { result ≡ slice_get ps.now t }
{
    if t < ps.len() { Some(ps[t]) } else { None }
}

/// Returns true if a number of rows lies in the interval.
pub fn within(i: Interval, d: usize) -> bool
    ensures { result ≡ lies_within i d }
{
    i.lo as usize <= d && d <= i.hi as usize
}

/// Returns true if all times from `t + lo` on and before `t + end` are true.
fn every_before(turned: bool, ps: &[bool], t: usize, lo: usize, end: usize) -> Option<bool>
    ensures { result ≡ k_every_in lo end (λ j. seen_at turned ps.now (t + j)) }
{
    let mut every = Some(true);
    for j in lo..end {
        every = and(every, seen(turned, ps, t, j));
    }
    every
}

/// Returns true if all times after `m` and up to `t` are true.
fn every_after(ps: &[bool], m: usize, t: usize) -> Option<bool>
    requires room { t + 1 < 2 ^ 64 }
    requires order { m < t + 1 }
    ensures { result ≡ k_every_in (suc m) (suc t) (slice_get ps.now) }
{
    let mut every = Some(true);
    for k in m + 1..t + 1 {
        every = and(every, known(ps, k));
    }
    every
}

/// Returns the value of until at time `t`. The range of the left operand starts at the interval's
/// lower end.
pub fn until(turned: bool, i: Interval, ps: &[bool], qs: &[bool], t: usize) -> Option<bool>
    ensures { result ≡ k_until i (seen_at turned ps.now) (seen_at turned qs.now) t }
{
    let lo = i.lo as usize;
    let mut some = Some(false);
    for k in lo..i.hi as usize + 1 {
        some = or(
            some,
            and(seen(turned, qs, t, k), every_before(turned, ps, t, lo, k)),
        );
    }
    some
}

/// Returns the value of since at time `t`.
pub fn since(i: Interval, ps: &[bool], qs: &[bool], t: usize) -> Option<bool>
    requires room { t + 1 < 2 ^ 64 }
    ensures { result ≡ k_since i (slice_get ps.now) (slice_get qs.now) t }
{
    let mut some = Some(false);
    for m in 0..t + 1 {
        some = or(
            some,
            and(
                Some(within(i, t - m)),
                and(known(qs, m), every_after(ps, m, t)),
            ),
        );
    }
    some
}

/// Returns the value of finally at time `t`.
pub fn finally(i: Interval, ps: &[bool], t: usize) -> Option<bool>
    ensures { result ≡ k_finally i (slice_get ps.now) t }
{
    let mut some = Some(false);
    for k in i.lo as usize..i.hi as usize + 1 {
        some = or(some, later(ps, t, k));
    }
    some
}

/// Returns the value of globally at time `t`.
pub fn globally(i: Interval, ps: &[bool], t: usize) -> Option<bool>
    ensures { result ≡ k_globally i (slice_get ps.now) t }
{
    let mut every = Some(true);
    for k in i.lo as usize..i.hi as usize + 1 {
        every = and(every, later(ps, t, k));
    }
    every
}

/// Returns the value of once at time `t`. There are no times before 0.
pub fn once(i: Interval, ps: &[bool], t: usize) -> Option<bool>
    requires room { t + 1 < 2 ^ 64 }
    ensures { result ≡ k_once i (slice_get ps.now) t }
{
    let mut some = Some(false);
    for m in 0..t + 1 {
        some = or(some, and(Some(within(i, t - m)), known(ps, m)));
    }
    some
}

/// Returns the value of historically at time `t`.
pub fn historically(i: Interval, ps: &[bool], t: usize) -> Option<bool>
    requires room { t + 1 < 2 ^ 64 }
    ensures { result ≡ k_historically i (slice_get ps.now) t }
{
    let mut every = Some(true);
    for m in 0..t + 1 {
        every = and(every, or(Some(!within(i, t - m)), known(ps, m)));
    }
    every
}
