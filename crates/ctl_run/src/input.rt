//! Reads an input whole.
ghost use Rattle.std.specs.Prelude.{◌≡◌, ◌⊎◌, IfOk, IfErr, IfSome};
ghost use Rattle.ctl_run.specs.declared.stop.Stop.TheVariants as Stop;

use crate::stop::Stop;
use std::alloc::Global;
use std::io::{ErrorKind, Read};

/// How many reads a reader has to give its end within.
const READS: u32 = 16_777_216;

/// All octets of the reader, to its end. A read that was interrupted is made again.
#[tactic(auto, using(crate::proofs::inputs::ReadOctets::consumed_none, crate::proofs::inputs::ReadOctets::consumed_more, crate::proofs::inputs::ReadOctets::consumed_same, crate::proofs::inputs::ReadOctets::consumed_all))]
pub fn read_whole<R: Read>(alloc: Global, input: &mut R) -> Result<Vec<u8>, Stop>
    ensures whole { IfOk result (λ octets. IfSome (R.remaining input.old) (λ all. octets.items ≡ all)) }
    ensures err { IfErr result (λ stop. (stop ≡ Stop.NoMemory) ⊎ (stop ≡ Stop.Input)) }
{
    let mut octets = Vec::new(alloc);
    let mut piece = [0u8; 4096];
    for _ in 0..READS {
        match input.read(&mut piece) {
            Ok(0) => return Ok(octets),
            Ok(count) => octets.extend_from_slice(&piece[..count])?,
            Err(error) if error.kind() == ErrorKind::Interrupted => {}
            Err(_) => return Err(Stop::Input),
        }
    }
    Err(Stop::Input)
}
