// Numbers in decimal.
ghost use Rattle.std.specs.Prelude.{◌≡◌, ◌++◌, ◌≤◌, length, drop};
ghost use Rattle.lines.specs.Decimal.{decimal};

// The least number with two digits.
const TWO_DIGITS: u64 = 10;

// Writes the digits of a number at the start of a buffer, and answers how many there are: at most 20,
// so that the function calls itself at most 19 times.
pub fn put_decimal(buffer: &mut [u8], n: u64) -> usize
    requires { 20 ≤ length buffer.old }
    ensures buffer_after { buffer.new ≡ decimal n ++ drop (length (decimal n)) buffer.old }
    ensures value { result ≡ length (decimal n) }
{
    if n < TWO_DIGITS {
        buffer[0] = b'0' + n as u8;
        return 1;
    }
    let k = put_decimal(buffer, n / 10);
    buffer[k] = b'0' + (n % 10) as u8;
    k + 1
}
