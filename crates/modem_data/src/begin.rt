//! How a lane begins, and until when it lasts.
ghost use Rattle.std.specs.Prelude.{◌≡◌};
ghost use Rattle.modem_data.specs.Passing.{is_by_carrier};

/// How a lane of data begins.
#[derive(Clone, Copy)]
pub enum Begin {
    /// All that comes is data, and data may leave at once.
    AtOnce,
    /// Lines come, as far as the end of the next CONNECT line. Data comes and leaves behind it.
    ByConnect,
    /// Lines come. What is given leaves behind the first prompt: `>` and a blank, 3E 20, at the beginning of a line (27.005,
    /// 3.3.1, 3.5.1). The prompt goes nowhere, and all else that comes are lines.
    ByPrompt,
    /// Lines come and go, as far as the end of the next CONNECT line that the driver writes on the connection, an echo too: this is the
    /// modem's end. From that octet on what comes is data, and octets may be given. They leave behind the line's end: behind a CR they
    /// wait for the next octet that the driver writes, its LF. All that the driver writes goes on, behind its CONNECT among the data;
    /// no line of it ends the lane.
    ByOwnConnect,
}

/// Until when a lane lasts. Each ends where the connection's opening ends, the line is lost, or a call ends it.
#[derive(Clone, Copy)]
pub enum Until {
    /// Nothing else ends it.
    Close,
    /// The loss of the carrier ends it too (27.010, 5.4.6.3.7): the other end says by an MSC that DV is 0, and the last one before it, of
    /// this opening, said that DV is 1. It counts only while data is under way: DV may fall while a modem dials.
    CarrierLoss,
}

/// Whether the loss of the carrier ends it.
pub(crate) fn is_by_carrier(until: Until) -> bool
    ensures { result ≡ is_by_carrier until }
{
    match until {
        Until::Close => false,
        Until::CarrierLoss => true,
    }
}
