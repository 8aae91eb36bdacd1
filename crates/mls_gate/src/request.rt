//! The requests of records.

ghost use Rattle.std.specs.Prelude.{◌≡◌};
ghost use Rattle.mls_gate.specs.Requests.{request_of, time_of};

/// The request of a record of the gate's input.
#[derive(Clone, Copy, Debug, PartialEq, Eq)]
pub enum Request {
    /// To learn that signatures are good, by their receipts.
    Learn,
    /// To start the follower.
    Begin,
    /// Which signatures of a message are not known to be good.
    Query,
    /// To process a message.
    Process,
    /// To judge messages at this time from now on, in seconds since 1970.
    Time(u64),
    /// The file of the follower's state.
    Store,
}

/// The number of bytes of a receipt.
const RECEIPT_SIZE: usize = 32;

/// The number of bytes of a time.
const SECONDS_SIZE: usize = 8;

/// Returns the request to judge messages at a time, which these bytes are, the first the highest; `None` if they are not
/// eight.
fn time_of(seconds: &[u8]) -> Option<Request>
    ensures { result ≡ time_of seconds.now }
{
    if seconds.len() != SECONDS_SIZE {
        return None;
    }
    let seconds = seconds.first_chunk()?;
    Some(Request::Time(u64::from_be_bytes(*seconds)))
}

/// Returns the request of a record with this body; `None` if it has none.
pub(crate) fn request_of(body: &[u8]) -> Option<Request>
    ensures { result ≡ request_of body.now }
{
    let (letter, rest) = body.split_first()?;
    match *letter {
        b'r' if rest.len() % RECEIPT_SIZE == 0 => Some(Request::Learn),
        b'b' if rest.is_empty() => Some(Request::Begin),
        b'q' => Some(Request::Query),
        b'm' => Some(Request::Process),
        b't' => time_of(rest),
        b's' if rest.is_empty() => Some(Request::Store),
        _ => None,
    }
}
