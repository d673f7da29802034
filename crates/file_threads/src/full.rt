//! Whether the threads of files beside connections that carry data are through, once no more comes for them.
ghost use Rattle.std.specs.Prelude.{◌≡◌};
ghost use Rattle.file_threads.specs.FileEnds.{SaysFull};

use crate::data_path::DataPath;
use crate::device::DeviceThreads;
use crate::ending::{LOOKS, PAUSE};
use crate::saying::say_of;
use std::io::Write;
use std::rt::Clock;
use std::thread;
use std::time::Duration;

/// What is said of a thread that has more to write: its ring has room for 65,536 octets, and it takes 512 of them at once.
const FULL: &str = ": its file hasn't taken the last of what came, 66048 octets at most";

/// Whether all these threads are through.
fn are_through(threads: &[DeviceThreads]) -> bool {
    let mut all = true;
    for one in threads {
        all &= one.are_through();
    }
    all
}

/// Waits until all these threads are through, for ten seconds at most.
fn wait_through<K: Clock>(clock: &K, threads: &[DeviceThreads]) {
    for _ in 0..LOOKS {
        if are_through(threads) {
            return;
        }
        thread::sleep(clock, Duration::from_millis(PAUSE));
    }
}

/// Waits until these threads are through, for ten seconds at most. Says of the connections of which of these they aren't, and whether all
/// are.
#[tactic(auto, using(crate::proofs::FileEnds::full_none))]
pub fn say_full<K: Clock, E: Write>(
    clock: &K,
    faults: &mut E,
    of: &[DataPath<'_>],
    threads: &[DeviceThreads],
) -> bool
    ensures { SaysFull result (E.contents faults.old) (E.contents faults.new) }
{
    wait_through(clock, threads);
    let mut all = true;
    let mut place = 0;
    while place < threads.len() && place < of.len() {
        if !threads[place].are_through() {
            say_of(faults, of[place].dlci, FULL);
            all = false;
        }
        place += 1;
    }
    all
}
