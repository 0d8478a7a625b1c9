//! Asking a source once.

ghost use Rattle.std.specs.Prelude.{◌≡◌, ◌<◌, ◌≤◌, ◌-◌};
ghost use Rattle.std.specs.Prelude.{length, take, drop, IfOk, IfSome, IsTrue};
ghost use Rattle.std.specs.Io.KnownBytes.{IsAtEnd, ReadConsumes};
ghost use Rattle.amqp_base.specs.Faults.{Counts, Remembers};
ghost use Rattle.amqp_read.specs.Asking.{told};

use amqp_base::Source;
use std::io::ErrorKind;

/// Asks a source once for bytes behind the first `from`, which stay.
pub(crate) fn read_behind<S: Source>(
    source: &mut S,
    bytes: &mut [u8],
    from: usize,
) -> Result<usize, ErrorKind>
    requires { from ≤ length bytes.old }
    ensures len { length bytes.new ≡ length bytes.old }
    ensures front { take from bytes.new ≡ take from bytes.old }
    ensures bound { IfOk result (λ n. n ≤ length bytes.old - from) }
    ensures read { ReadConsumes (S.remaining source.old) (S.remaining source.new) result
        (drop from bytes.new) }
    ensures counts { Counts (S.grows source.old) (S.faults source.old) (S.faults source.new)
        result }
    ensures kind { Remembers (S.faults source.old) (S.faults source.new)
        (S.last_fault source.old) (S.last_fault source.new) result }
    ensures end { IsTrue (S.is_honest source.old) → IfOk result (λ n.
        n ≡ 0 → from < length bytes.old → IsAtEnd (S.remaining source.old)) }
    ensures honest { S.is_honest source.new ≡ S.is_honest source.old }
    ensures origin { S.origin source.new ≡ S.origin source.old }
{
    source.read_some(&mut bytes[from..])
}

/// Asks a source once for a block of bytes: how many it gave. Where it failed, `fault` is the kind:
/// an answer of two parts comes in registers.
#[inline(never)]
pub(crate) fn read_block<S: Source>(
    source: &mut S,
    block: &mut [u8],
    fault: &mut ErrorKind,
) -> Option<usize>
    ensures len { length block.new ≡ length block.old }
    ensures bound { IfSome result (λ n. n ≤ length block.old) }
    ensures read { ReadConsumes (S.remaining source.old) (S.remaining source.new)
        (told result fault.new) block.new }
    ensures counts { Counts (S.grows source.old) (S.faults source.old) (S.faults source.new)
        (told result fault.new) }
    ensures kind { Remembers (S.faults source.old) (S.faults source.new)
        (S.last_fault source.old) (S.last_fault source.new) (told result fault.new) }
    ensures honest { S.is_honest source.new ≡ S.is_honest source.old }
    ensures origin { S.origin source.new ≡ S.origin source.old }
{
    match source.read_some(block) {
        Ok(n) => Some(n),
        Err(kind) => {
            *fault = kind;
            None
        }
    }
}
