//! A modem on an input and a writer, with files beside connections.
ghost use Rattle.std.specs.Prelude.{◌≡◌, ◌≤◌, All, [], IfOk, IfSome, IsOk, OnOk, false, length, map, true};
ghost use Rattle.serial_line.specs.StreamLine.{StreamState, stream_view};
ghost use Rattle.data_files.specs.Files.{FileFits, FileState, FiledState, dlcis};
ghost use Rattle.file_threads.specs.DataPaths.{opened_files};
ghost use Rattle.ctl_sim.specs.DataEnds.{EndsByDataFault, EndsFiles, HasServedOpened, SaysEndings, SaysFiles, SaysOpened, SaysUnsent, ServedTo};
ghost use Rattle.ctl_sim.specs.HeldLine.{HeldState};
ghost use Rattle.ctl_sim.specs.Leaving.{SaysBad};
ghost use Rattle.ctl_sim.specs.Serving.{HasBadOption};

use crate::data_client::{Client, Going};
use crate::data_fault::DataFault;
use crate::data_line::{ModemLine, Unsent, begun_line};
use crate::data_saying::{end_data, say_data_fault, say_unopened};
use crate::fault::ServeFault;
use crate::held_line::HeldLine;
use crate::server::Setup;
use crate::serving::{SimOptions, begin, refuse};
use crate::watching::{Nobody, Recorder, Watcher};
use crate::writing::put;
use bell::Bell;
use data_files::{DataFile, FiledLine};
use device_line::DeviceLine;
use file_threads::{DataPath, DeviceThreads, read_beside, say_full, say_unsent, start_files};
use modem_data::DataError;
use modem_sim::Modem;
use mux_capture::Capture;
use results::beside;
use serial_line::{SerialLine, ZeroRead};
use std::alloc::{AllocGlobal, Global};
use std::fs::File;
use std::io::{ErrorKind, Read, Write};
use std::rt::{Clock, Files};
use std::sync::Wait;
use std::thread::Threads;
use std::time::Duration;

/// How many octets are read at once.
const PIECE: usize = 4096;

/// Seconds after which all is looked at without any ring of the bell.
const LOOK: u64 = 1;

/// Reads what is there, and gives how many octets: none where nothing is there yet, and 0 at the input's end.
fn read_there<I: Read>(input: &mut I, piece: &mut [u8]) -> Result<Option<usize>, ServeFault>
    ensures { IfOk result (λ came. IfSome came (λ count. count ≤ length piece.old)) }
{
    match input.read(piece) {
        Ok(count) => Ok(Some(count)),
        Err(error)
            if matches!(
                error.kind(),
                ErrorKind::Interrupted | ErrorKind::WouldBlock | ErrorKind::TimedOut
            ) => Ok(None),
        Err(_) => Err(ServeFault::Input),
    }
}

/// Says of which files not all was sent.
#[tactic(auto, using(crate::proofs::DataEnding::unsent_none))]
fn say_each<E: Write>(faults: &mut E, unsent: &[Unsent])
    ensures { SaysUnsent (E.contents faults.old) (E.contents faults.new) }
{
    let mut place = 0;
    while place < unsent.len() {
        say_unsent(faults, unsent[place].dlci, unsent[place].count);
        place += 1;
    }
}

/// Says of which files not all was sent, and writes what goes out. Says whether anything does.
fn put_out<W: Write, E: Write>(
    output: &mut W,
    faults: &mut E,
    going: &mut Going,
) -> Result<bool, ServeFault>
    ensures { SaysUnsent (E.contents faults.old) (E.contents faults.new) }
{
    say_each(faults, going.unsent.as_slice());
    going.unsent.clear();
    put(output, going.out.as_slice())?;
    let goes = !going.out.is_empty();
    going.out.clear();
    Ok(goes)
}

/// Has a client's modem take what came, and gives how many octets: none where nothing did, and 0 at the input's end.
fn take_in<L: ModemLine, V: Watcher, I: Read>(
    setup: &Setup,
    client: &mut Client<L>,
    watcher: &mut V,
    input: &mut I,
) -> Result<Option<usize>, ServeFault>
    ensures { L.named client.new.line ≡ L.named client.old.line }
{
    let mut piece = [0u8; PIECE];
    let came = read_there(input, &mut piece)?;
    if let Some(count) = came {
        client.take(setup, watcher, &piece[..count])?;
    }
    Ok(came)
}

/// One round: takes what came, moves data, and writes what goes out. Says whether the input has ended, and waits for the bell where
/// nothing came and nothing went.
#[tactic(auto, using(crate::proofs::DataEnding::unsent_none))]
fn round<L, V, R, I, W, E>(
    rt: &R,
    bell: &Bell,
    setup: &Setup,
    client: &mut Client<L>,
    watcher: &mut V,
    input: &mut I,
    output: &mut W,
    faults: &mut E,
) -> Result<bool, ServeFault>
where
    L: ModemLine,
    V: Watcher,
    R: Wait,
    I: Read,
    W: Write,
    E: Write,
    ensures named { L.named client.new.line ≡ L.named client.old.line }
    ensures said { SaysUnsent (E.contents faults.old) (E.contents faults.new) }
{
    let came = take_in(setup, client, watcher, input)?;
    client.move_on(watcher)?;
    let goes = put_out(output, faults, &mut client.going)?;
    if came.is_none() && !goes {
        bell.wait(rt, Duration::from_secs(LOOK));
    }
    Ok(came == Some(0))
}

/// Serves a client until its input ends.
fn serve_rounds<L, V, R, I, W, E>(
    rt: &R,
    bell: &Bell,
    setup: &Setup,
    client: &mut Client<L>,
    watcher: &mut V,
    input: &mut I,
    output: &mut W,
    faults: &mut E,
) -> Result<(), ServeFault>
where
    L: ModemLine,
    V: Watcher,
    R: Wait,
    I: Read,
    W: Write,
    E: Write,
    ensures named { L.named client.new.line ≡ L.named client.old.line }
    ensures said { SaysUnsent (E.contents faults.old) (E.contents faults.new) }
{
    for _ in 0..u64::MAX {
        if round(rt, bell, setup, client, watcher, input, output, faults)? {
            client.tell_rest(watcher);
            return Ok(());
        }
    }
    Err(ServeFault::EndlessInput)
}

/// The first fault of two.
fn both(first: Result<(), ServeFault>, other: Result<(), ServeFault>) -> Result<(), ServeFault>
    ensures { OnOk result (IsOk first × IsOk other) }
{
    first?;
    other
}

/// What came of a client that was served so, behind whom octets may be unwritten.
fn judge(ended: Result<(), ServeFault>, is_written: bool) -> Result<(), DataFault>
    ensures { OnOk result (IsOk ended × (is_written ≡ true)) }
{
    ended?;
    if is_written {
        Ok(())
    } else {
        Err(DataFault::Unwritten)
    }
}

/// Once a client was served so: has what came on the connections written to the files, for ten seconds at most, says what came of each,
/// and writes what goes out then.
fn end_client<L, V, R, W, E>(
    rt: &R,
    client: &mut Client<L>,
    watcher: &mut V,
    output: &mut W,
    faults: &mut E,
    ended: Result<(), ServeFault>,
) -> Result<(), DataFault>
where
    L: ModemLine,
    V: Watcher,
    R: Clock,
    W: Write,
    E: Write,
    ensures named { L.named client.new.line ≡ L.named client.old.line }
    ensures ends { OnOk result (L.ends client.new.line (E.contents faults.old) (E.contents faults.new)) }
    ensures said { SaysEndings (E.contents faults.old) (E.contents faults.new) }
{
    let Ok(is_written) = client.finish(rt, watcher, faults) else {
        return Err(DataFault::Served(ServeFault::NoMemory));
    };
    let written = put(output, client.going.out.as_slice());
    judge(both(ended, written), is_written)
}

/// Serves a client, at first at plain lines, with these files beside the line of no multiplexer yet.
fn serve_and_write<L, V, R, I, W, E>(
    rt: &R,
    bell: &Bell,
    setup: &Setup,
    modem: Modem,
    line: L,
    watcher: &mut V,
    input: &mut I,
    output: &mut W,
    faults: &mut E,
) -> Result<(), DataFault>
where
    L: ModemLine,
    V: Watcher,
    R: Wait + Clock,
    I: Read,
    W: Write,
    E: Write,
    ensures served { OnOk result (ServedTo L.named L.ends (L.named line) (E.contents faults.old) (E.contents faults.new)) }
    ensures said { SaysFiles (E.contents faults.old) (E.contents faults.new) }
{
    let mut client = Client::new(setup, modem, line);
    let ended = serve_rounds(rt, bell, setup, &mut client, watcher, input, output, faults);
    end_client(rt, &mut client, watcher, output, faults, ended)
}

/// What a capture came to beside a client that was served.
fn with_capture(ended: Result<(), DataFault>, failed: bool) -> Result<(), DataFault>
    ensures { OnOk result (IsOk ended × (failed ≡ false)) }
{
    ended?;
    if failed {
        return Err(DataFault::Served(ServeFault::Capture));
    }
    Ok(())
}

/// The same with a capture.
fn serve_recorded<L, R, C, I, W, E>(
    rt: &R,
    bell: &Bell,
    setup: &Setup,
    modem: Modem,
    line: L,
    capture: Capture<C>,
    input: &mut I,
    output: &mut W,
    faults: &mut E,
) -> Result<(), DataFault>
where
    L: ModemLine,
    R: Wait + Clock,
    C: Write + Drop,
    I: Read,
    W: Write,
    E: Write,
    ensures served { OnOk result (ServedTo L.named L.ends (L.named line) (E.contents faults.old) (E.contents faults.new)) }
    ensures said { SaysFiles (E.contents faults.old) (E.contents faults.new) }
{
    let mut recorder = Recorder::new(rt, capture);
    let ended = serve_and_write(
        rt,
        bell,
        setup,
        modem,
        line,
        &mut recorder,
        input,
        output,
        faults,
    );
    with_capture(ended, recorder.finish().has_failed())
}

/// Has a thread read the input, and serves a client so, with a capture where there is one.
#[tactic(auto, using(crate::proofs::DataEnding::files_none))]
fn serve_captured<R, L, C, I, W, E>(
    rt: &R,
    bell: &Bell,
    setup: &Setup,
    modem: Modem,
    line: L,
    capture: Option<Capture<C>>,
    input: I,
    output: &mut W,
    faults: &mut E,
) -> Result<(), DataFault>
where
    R: Threads + Wait + Clock + AllocGlobal + Copy + Send + Drop + 'static,
    L: ModemLine,
    C: Write + Drop,
    I: Read + Send + Drop + 'static,
    W: Write,
    E: Write,
    ensures served { OnOk result (ServedTo L.named L.ends (L.named line) (E.contents faults.old) (E.contents faults.new)) }
    ensures said { SaysFiles (E.contents faults.old) (E.contents faults.new) }
{
    let read = read_beside(rt, input, bell, ZeroRead::Ended);
    let ((input, _stop), (line, (modem, capture))) = beside(read, (line, (modem, capture)))?;
    let mut input = input;
    match capture {
        Some(capture) => serve_recorded(
            rt, bell, setup, modem, line, capture, &mut input, output, faults,
        ),
        None => serve_and_write(
            rt,
            bell,
            setup,
            modem,
            line,
            &mut Nobody,
            &mut input,
            output,
            faults,
        ),
    }
}

/// The line at which the files are before the first multiplexer.
fn first_line<P: SerialLine + Drop>(
    alloc: Global,
    setup: &Setup,
    files: Vec<DataFile<P>>,
) -> Result<FiledLine<HeldLine, P>, DataFault>
    requires { All (FileFits P.seen []) files.items }
    ensures { IfOk result (λ line. dlcis line.files ≡ dlcis files.items) }
{
    match begun_line(alloc, setup.n1, files) {
        Ok(line) => Ok(line),
        Err(DataError::NoMemory) => Err(DataFault::Served(ServeFault::NoMemory)),
        Err(_) => Err(DataFault::Connections),
    }
}

/// Serves a client so with these files, which are beside the line of no multiplexer yet.
#[tactic(auto, using(crate::proofs::DataEnding::files_none))]
fn serve_beside<R, I, W, E>(
    rt: &R,
    bell: &Bell,
    setup: &Setup,
    modem: Modem,
    files: Vec<DataFile<DeviceLine>>,
    capture: Option<Capture<File>>,
    input: I,
    output: &mut W,
    faults: &mut E,
) -> Result<(), DataFault>
where
    R: Threads + Wait + Clock + AllocGlobal + Copy + Send + Drop + 'static,
    I: Read + Send + Drop + 'static,
    W: Write,
    E: Write,
    requires fits { All (FileFits stream_view []) files.items }
    ensures served { OnOk result (ServedTo (λ (last : FiledState HeldState StreamState). dlcis last.files)
        (EndsFiles stream_view) (dlcis files.items) (E.contents faults.old)
        (E.contents faults.new)) }
    ensures said { SaysFiles (E.contents faults.old) (E.contents faults.new) }
{
    let made = first_line(rt.alloc(), setup, files);
    let (line, (modem, (capture, input))) = beside(made, (modem, (capture, input)))?;
    serve_captured(rt, bell, setup, modem, line, capture, input, output, faults)
}

/// What came of a client, behind whom threads may have more to write.
fn through(ended: Result<(), DataFault>, is_through: bool) -> Result<(), DataFault>
    ensures { OnOk result (IsOk ended × (is_through ≡ true)) }
{
    ended?;
    if is_through {
        Ok(())
    } else {
        Err(DataFault::Unwritten)
    }
}

/// Serves a client with the files of these paths. Once it has ended the threads of the files have ten seconds to be through, and it is
/// said which aren't.
fn serve_opened<R, I, W, E>(
    rt: &R,
    bell: &Bell,
    setup: &Setup,
    modem: Modem,
    data_paths: &[DataPath<'_>],
    opened: (Vec<DataFile<DeviceLine>>, Vec<DeviceThreads>),
    capture: Option<Capture<File>>,
    input: I,
    output: &mut W,
    faults: &mut E,
) -> Result<(), DataFault>
where
    R: Threads + Wait + Clock + AllocGlobal + Copy + Send + Drop + 'static,
    I: Read + Send + Drop + 'static,
    W: Write,
    E: Write,
    requires files { opened.0.items ≡ opened_files true data_paths.now }
    ensures served { OnOk result (HasServedOpened data_paths.now (E.contents faults.old) (E.contents faults.new)) }
    ensures said { SaysOpened (E.contents faults.old) (E.contents faults.new) }
{
    let (files, threads) = opened;
    let ended = serve_beside(
        rt, bell, setup, modem, files, capture, input, output, faults,
    );
    let is_through = say_full(rt, faults, data_paths, threads.as_slice());
    through(ended, is_through)
}

/// Serves a client with the files of these paths, which are opened first.
fn serve_paths<R, I, W, E>(
    rt: &R,
    setup: &Setup,
    modem: Modem,
    data_paths: &[DataPath<'_>],
    capture: Option<Capture<File>>,
    input: I,
    output: &mut W,
    faults: &mut E,
) -> u8
where
    R: Files<File = File> + Threads + Wait + Clock + AllocGlobal + Copy + Send + Drop + 'static,
    I: Read + Send + Drop + 'static,
    W: Write,
    E: Write,
    ensures status { result ≤ 1 }
    ensures served { result ≡ 0 → HasServedOpened data_paths.now (E.contents faults.old) (E.contents faults.new) }
    ensures fault { result ≡ 1 → EndsByDataFault data_paths.now (E.contents faults.old) (E.contents faults.new) }
{
    let Ok(bell) = Bell::new(rt.alloc()) else {
        return say_data_fault(faults, DataFault::Served(ServeFault::NoMemory));
    };
    match start_files(rt, &bell, data_paths, true) {
        Ok(opened) => {
            let ended = serve_opened(
                rt, &bell, setup, modem, data_paths, opened, capture, input, output, faults,
            );
            end_data(faults, ended)
        }
        Err(unopened) => say_unopened(rt.alloc(), faults, unopened.path, unopened.why),
    }
}

/// As `sim_run`, and beside each connection of `data_paths` there is a file: a call on such a connection, from where its data begins to
/// its end, carries octets. What the client sends there goes to the file of the connection's path, and what the file gives goes to the
/// client. The next call on the connection goes on with the same file. The files are opened first, and a FIFO's opening waits for its
/// other end. Two threads read and write each file, and one reads the input.
///
/// Once the input has ended, what came on the connections is written to their files, for ten seconds at most. The threads then have ten
/// more seconds to be through. `faults` says of each file whether it gives or takes no more, and what is left; and, where the next
/// multiplexer begins, how much of what a file gave calls took and didn't send. The status is 1 where octets that came are left, at a
/// fault, and where a file can't be opened; it is 2 as that of `sim_run`, before any file is opened.
pub fn sim_data_run<R, I, W, E>(
    rt: &R,
    data_paths: &[DataPath<'_>],
    input: I,
    output: &mut W,
    faults: &mut E,
    options: SimOptions,
    capture: Option<Capture<File>>,
) -> u8
where
    R: Files<File = File> + Threads + Wait + Clock + AllocGlobal + Copy + Send + Drop + 'static,
    I: Read + Send + Drop + 'static,
    W: Write,
    E: Write,
    ensures status { result ≤ 2 }
    ensures served { result ≡ 0 → HasServedOpened data_paths.now (E.contents faults.old) (E.contents faults.new) }
    ensures fault { result ≡ 1 → EndsByDataFault data_paths.now (E.contents faults.old) (E.contents faults.new) }
    ensures refused { result ≡ 2 → HasBadOption options }
    ensures bad { HasBadOption options → (result ≡ 2) × (output.new ≡ output.old) }
    ensures told { result ≡ 2 → SaysBad options (E.contents faults.old) (E.contents faults.new) }
{
    match begin(rt.alloc(), options) {
        Ok((setup, modem)) => serve_paths(
            rt, &setup, modem, data_paths, capture, input, output, faults,
        ),
        Err(why) => refuse(faults, why),
    }
}
