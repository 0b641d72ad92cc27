// The time of a line.
ghost use Rattle.std.specs.Prelude.{◌≡◌};
ghost use Rattle.rt_emulate.specs.Diaries.{IsStamp, month_digits, stamp_of};

use httpdate::HttpDate;

// The last second that has a stamp: that of the year 9999.
const LAST: u64 = 253_402_300_799;

/// A time, as `1994-11-06T08:49:37Z`.
pub(crate) type Stamp = [u8; 20];

// The number of a month by its first three letters, in two digits.
fn month_digits(name: [u8; 3]) -> [u8; 2]
    ensures { result ≡ month_digits name }
{
    match name {
        [b'J', b'a', b'n'] => [b'0', b'1'],
        [b'F', b'e', b'b'] => [b'0', b'2'],
        [b'M', b'a', b'r'] => [b'0', b'3'],
        [b'A', b'p', b'r'] => [b'0', b'4'],
        [b'M', b'a', b'y'] => [b'0', b'5'],
        [b'J', b'u', b'n'] => [b'0', b'6'],
        [b'J', b'u', b'l'] => [b'0', b'7'],
        [b'A', b'u', b'g'] => [b'0', b'8'],
        [b'S', b'e', b'p'] => [b'0', b'9'],
        [b'O', b'c', b't'] => [b'1', b'0'],
        [b'N', b'o', b'v'] => [b'1', b'1'],
        _ => [b'1', b'2'],
    }
}

// A date of HTTP in the order of RFC 3339.
fn stamp_of(date: [u8; 29]) -> Stamp
    ensures { result ≡ stamp_of date }
{
    let [
        _,
        _,
        _,
        _,
        _,
        d1,
        d0,
        _,
        m0,
        m1,
        m2,
        _,
        y3,
        y2,
        y1,
        y0,
        _,
        h1,
        h0,
        _,
        i1,
        i0,
        _,
        s1,
        s0,
        _,
        _,
        _,
        _,
    ] = date;
    let [n1, n0] = month_digits([m0, m1, m2]);
    [
        y3, y2, y1, y0, b'-', n1, n0, b'-', d1, d0, b'T', h1, h0, b':', i1, i0, b':', s1, s0, b'Z',
    ]
}

/// The time of so many seconds since 1970.
pub(crate) fn stamp(secs: u64) -> Stamp
    ensures { IsStamp secs result }
{
    match HttpDate::from_unix_secs(secs.min(LAST)) {
        Ok(date) => stamp_of(date.to_bytes()),
        Err(_) => unreachable!(),
    }
}
