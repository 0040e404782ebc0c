// Decimal numbers, first digit first.
ghost use Rattle.std.specs.Prelude.{◌≡◌, ◌+◌, ◌<◌, ◌≤◌, ◌^◌, length, decimal};
ghost use Rattle.rx_text.specs.Places.{IsPlaced, eight_digits, four_digits, two_digits};

/// The two digits of each number below 100.
static PAIRS: [u8; 200] =
    *b"00010203040506070809101112131415161718192021222324252627282930313233343536373839404142434445464748495051525354555657585960616263646566676869707172737475767778798081828384858687888990919293949596979899";

/// Writes a number of one digit.
#[inline(always)]
fn place_one(bytes: &mut [u8], at: usize, n: u32) -> usize
    requires digit { n < 10 }
    requires room { at < length bytes.old }
    ensures { IsPlaced bytes.old bytes.new at (decimal n) result }
{
    bytes[at] = b'0' + n as u8;
    at + 1
}

/// Writes the two digits of a number below 100.
#[inline(always)]
fn place_two(bytes: &mut [u8], at: usize, n: u32) -> usize
    requires digits { n < 100 }
    requires room { at + 2 ≤ length bytes.old }
    ensures { IsPlaced bytes.old bytes.new at (two_digits n) result }
{
    let from = n as usize * 2;
    let (ten, one) = (PAIRS[from], PAIRS[from + 1]);
    bytes[at] = ten;
    bytes[at + 1] = one;
    at + 2
}

/// Writes the four digits of a number below 10,000, the leading zeros among them, behind the first `at` bytes, and answers
/// the place behind them. What stood there is open. Takes constant time.
#[inline(always)]
pub fn place_four(bytes: &mut [u8], at: usize, n: u32) -> usize
    requires digits { n < 10000 }
    requires room { at + 4 ≤ length bytes.old }
    ensures { IsPlaced bytes.old bytes.new at (four_digits n) result }
{
    let high = n / 100;
    let next = place_two(bytes, at, high);
    place_two(bytes, next, n % 100)
}

/// Writes a number below 100.
#[inline(always)]
fn place_below_100(bytes: &mut [u8], at: usize, n: u32) -> usize
    requires few { n < 100 }
    requires room { at + length (decimal n) ≤ length bytes.old }
    ensures { IsPlaced bytes.old bytes.new at (decimal n) result }
{
    if n < 10 {
        place_one(bytes, at, n)
    } else {
        place_two(bytes, at, n)
    }
}

/// Writes a number below 10,000.
#[inline(always)]
fn place_short(bytes: &mut [u8], at: usize, n: u32) -> usize
    requires few { n < 10000 }
    requires room { at + length (decimal n) ≤ length bytes.old }
    ensures { IsPlaced bytes.old bytes.new at (decimal n) result }
{
    if n < 100 {
        return place_below_100(bytes, at, n);
    }
    let next = place_below_100(bytes, at, n / 100);
    place_two(bytes, next, n % 100)
}

/// Writes a number below 100,000,000.
#[inline(always)]
fn place_middle(bytes: &mut [u8], at: usize, n: u32) -> usize
    requires few { n < 100000000 }
    requires room { at + length (decimal n) ≤ length bytes.old }
    ensures { IsPlaced bytes.old bytes.new at (decimal n) result }
{
    if n < 10_000 {
        return place_short(bytes, at, n);
    }
    let next = place_short(bytes, at, n / 10_000);
    place_four(bytes, next, n % 10_000)
}

/// Writes the eight digits of a number below 100,000,000, the leading zeros among them.
#[inline(always)]
fn place_eight(bytes: &mut [u8], at: usize, n: u32) -> usize
    requires digits { n < 100000000 }
    requires room { at + 8 ≤ length bytes.old }
    ensures { IsPlaced bytes.old bytes.new at (eight_digits n) result }
{
    let next = place_four(bytes, at, n / 10_000);
    place_four(bytes, next, n % 10_000)
}

/// Writes a number below 10^12.
fn place_long(bytes: &mut [u8], at: usize, n: u64) -> usize
    requires few { n < 1000000000000 }
    requires room { at + length (decimal n) ≤ length bytes.old }
    ensures { IsPlaced bytes.old bytes.new at (decimal n) result }
{
    if n < 100_000_000 {
        return place_middle(bytes, at, n as u32);
    }
    let next = place_short(bytes, at, (n / 100_000_000) as u32);
    place_eight(bytes, next, (n % 100_000_000) as u32)
}

/// Writes a number of 100,000,000 or more.
#[cold]
#[inline(never)]
fn place_wide(bytes: &mut [u8], at: usize, n: u64) -> usize
    requires many { 100000000 ≤ n }
    requires room { at + length (decimal n) ≤ length bytes.old }
    ensures { IsPlaced bytes.old bytes.new at (decimal n) result }
{
    let next = place_long(bytes, at, n / 100_000_000);
    place_eight(bytes, next, (n % 100_000_000) as u32)
}

/// Writes a number of 10,000 or more.
#[inline(never)]
fn place_large(bytes: &mut [u8], at: usize, n: u64) -> usize
    requires many { 10000 ≤ n }
    requires room { at + length (decimal n) ≤ length bytes.old }
    ensures { IsPlaced bytes.old bytes.new at (decimal n) result }
{
    if n < 100_000_000 {
        return place_middle(bytes, at, n as u32);
    }
    place_wide(bytes, at, n)
}

/// Writes a number behind the first `at` bytes, in decimal digits without leading zeros, and answers the place behind it.
/// What stood behind `at` is open from there on. A number has at most 20 digits, and one of 32 bits at most 10. Takes no memory, and time that grows with its
/// digits.
#[inline(always)]
pub fn place_number(bytes: &mut [u8], at: usize, n: u64) -> usize
    requires { at + 20 ≤ length bytes.old }
    ensures placed { IsPlaced bytes.old bytes.new at (decimal n) result }
    ensures few { result ≤ at + 20 }
    ensures short { n < 2 ^ 32 → result ≤ at + 10 }
{
    if n < 10_000 {
        return place_short(bytes, at, n as u32);
    }
    place_large(bytes, at, n)
}
