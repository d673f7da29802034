//! Writes octets, as far as their writer takes them.
ghost use Rattle.std.specs.Prelude.{IsOkUnless, OnErr, OnOk};
ghost use Rattle.std.specs.Io.KnownBytes.{Appends};
ghost use Rattle.ctl_sim.specs.declared.fault.ServeFault.TheVariants.{Output};
ghost use Rattle.ctl_text.specs.Writing.{IsBegun};

use crate::fault::ServeFault;
use ctl_text::put_octets;
use std::io::Write;

/// Writes octets whole. Refused where the writer doesn't take all; it then took a beginning of them, and nothing else.
pub(crate) fn put<W: Write>(output: &mut W, octets: &[u8]) -> Result<(), ServeFault>
    ensures whole { OnOk result (Appends (W.contents output.old) (W.contents output.new) octets.now) }
    ensures part { OnErr result (IsBegun (W.contents output.old) (W.contents output.new) octets.now) }
    ensures fault { IsOkUnless result Output }
{
    if put_octets(output, octets) {
        Ok(())
    } else {
        Err(ServeFault::Output)
    }
}
