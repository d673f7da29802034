//! How the files beside connections that carry data end: what came for them is written.
ghost use Rattle.std.specs.Prelude.{◌≡◌, All, true};
ghost use Rattle.data_files.specs.Moves.{HadTurns};
ghost use Rattle.file_threads.specs.FileEnds.{IsWritten};

use data_files::{DataFile, FiledLine};
use serial_line::SerialLine;
use std::rt::Clock;
use std::thread;
use std::time::Duration;

/// How often a wait looks whether all is written. `PAUSE` milliseconds lie between two looks: ten seconds in all.
pub const LOOKS: u32 = 1000;

pub const PAUSE: u64 = 10;

/// Whether all that was read of the connections went to these files.
fn are_written<P: SerialLine>(files: &[DataFile<P>]) -> bool
    ensures { result ≡ true → All IsWritten files.now }
{
    let mut place = 0;
    while place < files.len() {
        if files[place].unwritten() > 0 {
            return false;
        }
        place += 1;
    }
    true
}

/// Moves octets between connections and files until all that was read of the connections went to the files, for ten seconds at most; and
/// says whether it did.
#[tactic(auto, using(data_files::proofs::Turns::turns_then))]
pub fn write_out<L: SerialLine, P: SerialLine, K: Clock>(
    clock: &K,
    line: &mut FiledLine<L, P>,
) -> bool
    ensures turns { HadTurns L.seen P.seen line.old line.new.files }
    ensures written { result ≡ true → All IsWritten line.new.files }
{
    line.move_all();
    for _ in 0..LOOKS {
        if are_written(line.files()) {
            return true;
        }
        thread::sleep(clock, Duration::from_millis(PAUSE));
        line.move_all();
    }
    are_written(line.files())
}
