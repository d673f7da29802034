//! Writes texts, as far as their writer takes them.
ghost use Rattle.std.specs.Prelude.{◌≡◌, ◌++◌, ◌∷◌, [], true};
ghost use Rattle.std.specs.Io.KnownBytes.{Appends};
ghost use Rattle.ctl_text.specs.Writing.{IsBegun};

use std::io::{ErrorKind, Write};

/// How many writes a writer has to take octets within.
const WRITES: u32 = 16_777_216;

/// Writes octets as far as the writer takes them, and says whether it took all: it didn't where a write failed or took none, or where
/// 16,777,216 writes weren't enough. A write that was interrupted is made again. Where there are no octets, none is made.
pub fn write_octets<W: Write>(output: &mut W, octets: &[u8]) -> bool
    ensures whole { result ≡ true → Appends (W.contents output.old) (W.contents output.new) octets.now }
    ensures part { IsBegun (W.contents output.old) (W.contents output.new) octets.now }
    ensures none { octets.now ≡ [] → (result ≡ true) × (output.new ≡ output.old) }
{
    if octets.is_empty() {
        return true;
    }
    let mut left = octets;
    for _ in 0..WRITES {
        match output.write(left) {
            Ok(0) => return false,
            Ok(count) => (_, left) = left.split_at(count),
            Err(error) if error.kind() == ErrorKind::Interrupted => {}
            Err(_) => return false,
        }
        if left.is_empty() {
            return true;
        }
    }
    false
}

/// Writes octets and flushes, and says whether the writer took all.
pub fn put_octets<W: Write>(output: &mut W, octets: &[u8]) -> bool
    ensures whole { result ≡ true → Appends (W.contents output.old) (W.contents output.new) octets.now }
    ensures part { IsBegun (W.contents output.old) (W.contents output.new) octets.now }
{
    if !write_octets(output, octets) {
        return false;
    }
    output.flush().is_ok()
}

/// Writes a text as far as the writer takes it, and says whether it took the whole.
fn write_text<W: Write>(output: &mut W, text: &str) -> bool
    ensures whole { result ≡ true → Appends (W.contents output.old) (W.contents output.new) text.now }
    ensures part { IsBegun (W.contents output.old) (W.contents output.new) text.now }
{
    write_octets(output, text.as_bytes())
}

/// Writes a line of three parts as far as the writer takes it, and says whether it took the whole.
pub fn put_line<W: Write>(faults: &mut W, first: &str, second: &str, third: &str) -> bool
    ensures whole { result ≡ true → Appends (W.contents faults.old) (W.contents faults.new)
        (first.now ++ second.now ++ third.now ++ 10 ∷ []) }
    ensures part { IsBegun (W.contents faults.old) (W.contents faults.new)
        (first.now ++ second.now ++ third.now ++ 10 ∷ []) }
{
    if !write_text(faults, first) {
        return false;
    }
    if !write_text(faults, second) {
        return false;
    }
    if !write_text(faults, third) {
        return false;
    }
    write_text(faults, "\n")
}

/// Writes a line of three parts, as far as the writer takes it.
pub fn say_line<W: Write>(faults: &mut W, first: &str, second: &str, third: &str)
    ensures { IsBegun (W.contents faults.old) (W.contents faults.new)
        (first.now ++ second.now ++ third.now ++ 10 ∷ []) }
{
    let _ = put_line(faults, first, second, third);
}
