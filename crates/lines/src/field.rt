// Texts with a number behind each.
ghost use Rattle.std.specs.Prelude.{◌≡◌, length};
ghost use Rattle.lines.specs.Reading.{number, field};
ghost use Rattle.lines.specs.Found.{IsDigit, found, texts_in, ReadsAs};

// The digit that bytes begin with, and the bytes behind it.
fn digit(bytes: &[u8]) -> Option<(u64, &[u8])>
    ensures { IsDigit bytes.now result }
{
    let (b, rest) = bytes.split_first()?;
    if b.is_ascii_digit() {
        Some((u64::from(*b - b'0'), rest))
    } else {
        None
    }
}

// A number that no digit may follow.
const LEADING_ZERO: u64 = 0;

// The number that bytes begin with, and the bytes behind it. No digit may stand behind a leading zero, nor one that makes it too
// large.
fn number(bytes: &[u8]) -> Option<(u64, &[u8])>
    ensures { found result ≡ number bytes.now }
{
    let (mut value, mut rest) = digit(bytes)?;
    while let Some((d, behind)) = digit(rest) {
        if value == LEADING_ZERO {
            return None;
        }
        value = value.checked_mul(10)?.checked_add(d)?;
        rest = behind;
    }
    Some((value, rest))
}

// The number behind a text that bytes begin with, and the bytes behind it.
fn field<'a>(bytes: &'a [u8], text: &[u8]) -> Option<(u64, &'a [u8])>
    ensures { found result ≡ field text.now bytes.now }
{
    number(bytes.strip_prefix(text)?)
}

// The numbers behind some texts, each behind its own; nothing stands behind the last.
pub fn read_fields<const N: usize>(line: &[u8], texts: &[&[u8]]) -> Option<[u64; N]>
    requires { length texts.now ≡ N }
    ensures { ReadsAs (texts_in texts.now) line.now result }
{
    let mut numbers = [0; N];
    let mut rest = line;
    for (i, text) in texts.iter().enumerate() {
        let (n, behind) = field(rest, text)?;
        numbers[i] = n;
        rest = behind;
    }
    rest.is_empty().then_some(numbers)
}
