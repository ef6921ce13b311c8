//! Whole writes.

ghost use Rattle.std.specs.Prelude.{◌≡◌, false, IfErr, OnErr, OnOk};
ghost use Rattle.std.specs.Io.KnownBytes.{Appends};
ghost use Rattle.starlark_script.specs.Device.{AppendsFront, Breaks};

use crate::device::Sink;
use crate::fault::RunFault;

/// Writes all the bytes, by as many writes as it takes. Where it answers `RunFault::Write` a front of them was written:
/// a write failed, or took 0 bytes of some.
pub fn write_all<W: Sink>(writer: &mut W, bytes: &[u8]) -> Result<(), RunFault>
    requires { W.has_failed writer.old ≡ false }
    ensures ok { OnOk result (Appends (W.contents writer.old) (W.contents writer.new) bytes.now) }
    ensures sound { OnOk result ((W.has_failed writer.new ≡ false) × (W.stalls writer.new ≡ W.stalls writer.old)) }
    ensures front { OnErr result (AppendsFront (W.contents writer.old) (W.contents writer.new) bytes.now) }
    ensures err { IfErr result (λ e. (e ≡ RunFault.Write) × Breaks (W.has_failed writer.new) (W.stalls writer.old) (W.stalls writer.new)) }
{
    let mut at = 0;
    while at < bytes.len() {
        match writer.put(&bytes[at..]) {
            Ok(n) => {
                if n == 0 {
                    return Err(RunFault::Write);
                }
                at += n;
            }
            Err(_) => return Err(RunFault::Write),
        }
    }
    Ok(())
}
