// What the programs read: standard input, or any other reader, into a buffer until that is full.
#![tactic(auto)]

ghost use Rattle.std.specs.Prelude.{◌≡◌, ◌+◌, ◌-◌, ◌*◌, ◌%◌, ◌^◌, ◌<◌, ◌≤◌, length, take, IfOk};
ghost use Rattle.std.specs.Io.{ReadsAtMost};
ghost use Rattle.std.specs.Io.KnownBytes.{Consumes, IsAtEnd};

use std::io;
use std::io::Read;

// Reads until the buffer is full or the input ends: how many bytes it put at the buffer's start. On an empty buffer it makes no call.
pub fn read_full<R: Read>(input: &mut R, buffer: &mut [u8]) -> io::Result<usize>
    ensures in_bounds { ReadsAtMost result buffer.new }
    ensures bytes { IfOk result (λ n. Consumes (R.remaining input.old) (R.remaining input.new) (take n buffer.new)) }
    ensures end { IfOk result (λ n. n < length buffer.new → IsAtEnd (R.remaining input.new)) }
{
    let mut done: usize = 0;
    while done < buffer.len() {
        let n = input.read(&mut buffer[done..])?;
        if n == 0 {
            break;
        }
        done += n;
    }
    Ok(done)
}

// The number behind one more byte of decimal text; a byte that is no digit is passed over.
pub fn with_digit(n: u64, b: u8) -> u64
    ensures digit { 48 ≤ b → b ≤ 57 → n * 10 + (b - 48) < 2 ^ 64 → result ≡ n * 10 + (b - 48) }
    ensures below { b < 48 → result ≡ n }
    ensures above { 57 < b → result ≡ n }
{
    match b {
        b'0'..=b'9' => (n % 1_844_674_407_370_955_162 * 10).wrapping_add(u64::from(b - b'0')),
        _ => n,
    }
}

// A number modulo two to the power of thirty-two.
pub fn word(n: u64) -> u32
    ensures { result ≡ n % 2 ^ 32 }
{
    (n % 4_294_967_296) as u32
}

// A number modulo two to the power of eight.
pub fn byte(n: u64) -> u8
    ensures { result ≡ n % 2 ^ 8 }
{
    (n % 256) as u8
}
