// Places on a scale, in per cent with three decimals, each as a floating-point number of 64 bits would be printed.
#![tactic(auto)]

use tool_out::Out;

fn float(n: usize) -> f64 {
    std::num::nearest_u64_to_f64(n as u64)
}

// n of `of` in per cent.
fn per_cent(n: usize, of: usize) -> f64 {
    float(hundred(n)) / float(of)
}

fn hundred(n: usize) -> usize {
    if 0x1_0000_0000 < n {
        return 0;
    }
    100 * n
}

// How far odd / 2000 stands above the floating-point number before it, in 2000ths of the step to the next one: the fraction of its 53 bits.
fn above_float(odd: usize) -> usize {
    if 200000 < odd {
        return 0;
    }
    let mut high = odd * 2048 / 2000;
    let mut above = odd % 2000;
    for _ in 0..63 {
        if 1 < high {
            high = high / 2;
        } else {
            above = above.saturating_add(above) % 2000;
        }
    }
    above
}

// Half way between `whole` thousandths and one more: what the floating-point number is nearer to, and the even one where it is the half itself.
fn at_half(whole: usize, value: f64) -> usize {
    let next = whole.saturating_add(1);
    let odd = whole.saturating_add(next);
    let half = float(odd) / 2000.0;
    if value < half {
        return whole;
    }
    if half < value {
        return next;
    }
    let above = above_float(odd);
    if 1000 < above {
        return next;
    }
    if 0 < above || whole % 2 == 0 {
        return whole;
    }
    next
}

// n of `of` in thousandths of a per cent, whose floating-point number is `value`.
fn thousandths(n: usize, of: usize, value: f64) -> usize {
    if of == 0 {
        return 0;
    }
    if 0x1_0000_0000 < n {
        return 0;
    }
    let all = 100000 * n;
    let whole = all / of;
    let below = all % of;
    let above = of.saturating_sub(below);
    if below < above {
        return whole;
    }
    if above < below {
        return whole.saturating_add(1);
    }
    at_half(whole, value)
}

fn put_digit(out: &mut Out, n: usize) {
    let digit = (n % 10) as u8;
    out.byte(b'0' + digit);
}

fn put_thousandths(out: &mut Out, n: usize) {
    out.number(n / 1000);
    out.byte(b'.');
    put_digit(out, n / 100);
    put_digit(out, n / 10);
    put_digit(out, n);
    out.byte(b'%');
}

// n of `of`: `12.500%`.
pub fn put_share(out: &mut Out, n: usize, of: usize) {
    put_thousandths(out, thousandths(n, of, per_cent(n, of)));
}

// The middle of what begins at `place` and is `length` long.
pub fn put_middle(out: &mut Out, place: usize, length: usize, of: usize) {
    let value = per_cent(place, of) + per_cent(length, of) / 2.0;
    let twice = place.saturating_add(place).saturating_add(length);
    put_thousandths(out, thousandths(twice, of.saturating_add(of), value));
}
