//! Fractions in lowest terms or not, and the one of least denominator between two.

use crate::vectors::floor_div;
use std::cmp::Ordering;

/// The most steps that the greatest numbers take.
const STEPS: usize = 256;

/// The fraction n/d. Where d is 0 it is above all others, else d is above 0.
#[derive(Clone, Copy, Debug)]
pub(crate) struct Fraction {
    pub(crate) n: i128,
    pub(crate) d: i128,
}

/// The fraction of two numbers, of which the second is not 0.
pub(crate) fn quotient(n: i128, d: i128) -> Fraction {
    if d < 0 {
        Fraction {
            n: n.wrapping_neg(),
            d: d.wrapping_neg(),
        }
    } else {
        Fraction { n, d }
    }
}

/// What is left of a fraction without its whole part, times its denominator.
fn rest_of(fraction: Fraction, whole: i128) -> i128 {
    fraction.n.wrapping_sub(whole.wrapping_mul(fraction.d))
}

/// The order of two fractions, neither above all others: no product of their numbers is taken.
pub(crate) fn compare(first: Fraction, second: Fraction) -> Ordering {
    let (mut x, mut y) = (first, second);
    for _ in 0..STEPS {
        let whole = floor_div(x.n, x.d);
        let order = whole.cmp(&floor_div(y.n, y.d));
        if order != Ordering::Equal {
            return order;
        }
        let (r, s) = (rest_of(x, whole), rest_of(y, whole));
        if r == 0 || s == 0 {
            return r.cmp(&s);
        }
        (x, y) = (Fraction { n: y.d, d: s }, Fraction { n: x.d, d: r });
    }
    Ordering::Equal
}

/// The lesser of two fractions.
pub(crate) fn lesser(first: Fraction, second: Fraction) -> Fraction {
    match compare(first, second) {
        Ordering::Greater => second,
        _ => first,
    }
}

/// The greater of two fractions.
pub(crate) fn greater(first: Fraction, second: Fraction) -> Fraction {
    match compare(first, second) {
        Ordering::Less => second,
        _ => first,
    }
}

/// Whether a fraction is above a whole number.
fn is_above(fraction: Fraction, whole: i128) -> bool {
    if fraction.d == 0 {
        return true;
    }
    let floor = floor_div(fraction.n, fraction.d);
    whole < floor || whole == floor && rest_of(fraction, floor) > 0
}

/// The value of a continued fraction whose last two convergents are these and whose next term is
/// that.
fn next_convergent(before: Fraction, last: Fraction, term: i128) -> Option<Fraction> {
    Some(Fraction {
        n: last.n.checked_mul(term)?.checked_add(before.n)?,
        d: last.d.checked_mul(term)?.checked_add(before.d)?,
    })
}

/// The fraction of least denominator strictly between two, where that denominator is no greater
/// than `most`; the numbers are taken as they come, and `None` is answered where they grow too
/// large.
pub(crate) fn simplest_between(low: Fraction, high: Fraction, most: i128) -> Option<Fraction> {
    let (mut before, mut last) = (Fraction { n: 0, d: 1 }, Fraction { n: 1, d: 0 });
    let (mut low, mut high) = (low, high);
    for _ in 0..STEPS {
        let whole = floor_div(low.n, low.d);
        let above = whole.checked_add(1)?;
        let is_found = is_above(high, above);
        let next = next_convergent(before, last, if is_found { above } else { whole })?;
        if next.d > most {
            return None;
        }
        if is_found {
            return Some(next);
        }
        (before, last) = (last, next);
        (low, high) = (
            Fraction {
                n: high.d,
                d: rest_of(high, whole),
            },
            Fraction {
                n: low.d,
                d: rest_of(low, whole),
            },
        );
    }
    None
}
