//! Shows a capture, over a reader and two writers.
ghost use Rattle.std.specs.Prelude.{◌≡◌, ◌≤◌, ◌≢◌, ◌⊎◌, [], Err, OnOk, IfOk, false};
ghost use Rattle.ctl_text.specs.Writing.{IsBegun};
ghost use Rattle.show_texts.specs.Captures.{HasShown, IsShown, IsToldWhole, SaysFault, ShowsOctets, TellsOctets, fault_line, fault_status};
ghost use Rattle.show_texts.specs.Options.{setting_by};
ghost use Rattle.show_texts.specs.Progress.{CountsAll, CountsPart, TellsRead};
ghost use Rattle.show_texts.specs.Telling.{TellerFits, setting_of};
ghost use Rattle.show_texts.specs.declared.fault.ShowFault.TheVariants as ShowFault;

use crate::fault::ShowFault;
use crate::progress::Progress;
use crate::reading::{read_head, read_octets};
use crate::teller::Teller;
use at_text::Dialect;
use ctl_text::say_line;
use mux_capture::read_packet;
use mux_frame::Dlci;
use std::alloc::Global;
use std::io::{Read, Write};

/// How a capture is shown.
#[derive(Drop)]
pub struct ShowOptions {
    /// The most octets of information that a frame may have.
    pub n1: u16,
    /// The codes by which lines are read.
    pub dialect: Dialect,
    /// The connections whose octets are data and no lines.
    pub data_channels: Vec<Dlci>,
    /// Whether a complaint gives a status of its own.
    pub strict: bool,
}

#[tactic(auto, using(crate::proofs::Shown::octets_told))]
/// Takes a packet by its octets in the file.
fn take_octets(teller: &mut Teller, octets: &[u8]) -> Result<(), ShowFault>
    ensures tells { OnOk result (TellsOctets teller.old teller.new octets.now) }
    ensures others { result ≢ Err ShowFault.NoCapture }
{
    let Some(packet) = read_packet(octets) else {
        return Err(ShowFault::BadPacket);
    };
    if !packet.rest.is_empty() {
        return Err(ShowFault::BadPacket);
    }
    teller.take_packet(packet.kind, packet.stamp, packet.direction, packet.octets)?;
    Ok(())
}

#[tactic(auto, using(crate::proofs::Shown::octets_shown))]
/// Takes a packet by its octets in the file, and writes the text where there is much.
fn show_octets<W: Write>(
    teller: &mut Teller,
    octets: &[u8],
    output: &mut W,
) -> Result<(), ShowFault>
    ensures shows { OnOk result (ShowsOctets teller.old teller.new octets.now (W.contents output.old) (W.contents output.new)) }
    ensures others { result ≢ Err ShowFault.NoCapture }
{
    take_octets(teller, octets)?;
    teller.write_much(output)
}

#[tactic(auto, using(crate::proofs::Shown::no_packet_so_far, crate::proofs::Shown::packet_so_far, crate::proofs::Shown::whole_told, crate::proofs::Progressing::part_read, crate::proofs::Progressing::all_read, crate::proofs::Progressing::read_none_counted))]
/// Tells all packets of the input, writes the text as it grows, and tells how much was read.
fn show_packets<I: Read, W: Write, P: Write>(
    alloc: Global,
    teller: &mut Teller,
    input: &mut I,
    output: &mut W,
    progress: &mut Progress<P>,
) -> Result<(), ShowFault>
    ensures told { OnOk result (IsToldWhole teller.old teller.new (I.remaining input.old) (W.contents output.old) (W.contents output.new)) }
    ensures others { result ≢ Err ShowFault.NoCapture }
    ensures part { CountsPart (I.remaining input.old) progress.old progress.new }
    ensures all { OnOk result (CountsAll (I.remaining input.old) progress.old progress.new) }
    ensures off { progress.old.is_on ≡ false → progress.new ≡ progress.old }
{
    let mut octets = Vec::new(alloc);
    for _ in 0..u64::MAX {
        if !read_octets(input, &mut octets)? {
            return Ok(());
        }
        show_octets(teller, octets.as_slice(), output)?;
        progress.add(octets.len());
    }
    Err(ShowFault::Endless)
}

#[tactic(auto, using(crate::proofs::Shown::shown_whole, crate::proofs::Progressing::part_none, crate::proofs::Progressing::part_behind, crate::proofs::Progressing::all_behind))]
/// Shows the packets of the input and what is said at its end, from its beginning on.
fn show_by<I: Read, W: Write, P: Write>(
    alloc: Global,
    teller: &mut Teller,
    input: &mut I,
    output: &mut W,
    progress: &mut Progress<P>,
) -> Result<(), ShowFault>
    ensures shown { OnOk result (TellerFits [] teller.old [] → IsShown (setting_of teller.old) teller.new.is_wrong
        (I.remaining input.old) (W.contents output.old) (W.contents output.new)) }
    ensures bad { result ≡ Err ShowFault.NoCapture → output.new ≡ output.old }
    ensures part { CountsPart (I.remaining input.old) progress.old progress.new }
    ensures all { OnOk result (CountsAll (I.remaining input.old) progress.old progress.new) }
    ensures off { progress.old.is_on ≡ false → progress.new ≡ progress.old }
{
    let mut head = Vec::new(alloc);
    read_head(input, &mut head)?;
    progress.add(head.len());
    if let Err(fault) = show_packets(alloc, teller, input, output, progress) {
        let _ = teller.write(output);
        return Err(fault);
    }
    teller.close()?;
    teller.write(output)
}

#[tactic(auto, using(crate::proofs::Progressing::part_none, crate::proofs::Progressing::part_all))]
/// Shows a capture, and says whether there is a complaint.
fn show<I: Read, W: Write, P: Write>(
    alloc: Global,
    options: ShowOptions,
    input: &mut I,
    output: &mut W,
    progress: &mut Progress<P>,
) -> Result<bool, ShowFault>
    ensures shown { IfOk result (λ wrong. IsShown (setting_by options) wrong
        (I.remaining input.old) (W.contents output.old) (W.contents output.new)) }
    ensures bad { result ≡ Err ShowFault.NoCapture → output.new ≡ output.old }
    ensures part { CountsPart (I.remaining input.old) progress.old progress.new }
    ensures all { OnOk result (CountsAll (I.remaining input.old) progress.old progress.new) }
    ensures off { progress.old.is_on ≡ false → progress.new ≡ progress.old }
{
    let mut teller = Teller::new(alloc, options.n1, options.dialect, options.data_channels)?;
    show_by(alloc, &mut teller, input, output, progress)?;
    Ok(teller.is_wrong())
}

/// Says why a capture isn't shown to its end, and gives the status.
pub(crate) fn give_up<E: Write>(faults: &mut E, fault: ShowFault) -> u8
    ensures status { result ≡ fault_status fault }
    ensures said { IsBegun (E.contents faults.old) (E.contents faults.new) (fault_line fault) }
{
    say_line(faults, fault.words(), "", "");
    fault.status()
}

#[tactic(auto, using(crate::proofs::Progressing::tells_part, crate::proofs::Progressing::tells_all))]
/// Shows the capture that the input has: writes a line for each event and each complaint, and at the end what was counted of each
/// connection. It goes over the input once.
///
/// The status is 0, or 3 where there is a complaint and the options are strict. It is 2 where the input doesn't begin with a header of a
/// capture, and then nothing is written. It is 1 where the reader or the writer fails, memory is refused, or a packet is cut short or of
/// another form; then a part may be written. At 1 and 2 it says on `faults` why.
///
/// On `progress` it tells how much was read, and clears that at the end, before it says anything on `faults`.
pub fn show_run<I: Read, W: Write, E: Write, P: Write>(
    alloc: Global,
    input: &mut I,
    output: &mut W,
    faults: &mut E,
    progress: &mut Progress<P>,
    options: ShowOptions,
) -> u8
    ensures status { result ≤ 3 }
    ensures shown { (result ≡ 0) ⊎ (result ≡ 3) → HasShown (setting_by options) options.strict
        (I.remaining input.old) (W.contents output.old) (W.contents output.new) result }
    ensures bad { result ≡ 2 → output.new ≡ output.old }
    ensures said { (result ≡ 1) ⊎ (result ≡ 2) → SaysFault (E.contents faults.old) (E.contents faults.new) result }
    ensures silent { (result ≡ 0) ⊎ (result ≡ 3) → faults.new ≡ faults.old }
    ensures read { TellsRead (I.remaining input.old) progress.old.shown progress.new result }
    ensures untold { progress.old.is_on ≡ false → progress.new ≡ progress.old }
{
    let strict = options.strict;
    progress.begin();
    let shown = show(alloc, options, input, output, progress);
    progress.end();
    match shown {
        Ok(wrong) => { if strict && wrong { 3 } else { 0 } }
        Err(fault) => give_up(faults, fault),
    }
}
