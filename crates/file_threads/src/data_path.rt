//! Files beside connections that carry data, by their paths.
use modem_data::Begin;
use mux_frame::Dlci;

/// A connection that carries data, and the file beside it.
#[derive(Clone, Copy)]
pub struct DataPath<'a> {
    pub dlci: Dlci,
    /// How its data begins.
    pub begin: Begin,
    /// The path of a terminal, set up as a modem's is, of a device or of a FIFO, which is read and written. Where data begins by a
    /// prompt it is the path of any file with the text and its end, 1A, which is read to its end.
    pub path: &'a str,
}
