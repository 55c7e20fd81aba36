// A message, as the lines show it.
use in_place::Message;
use std::fmt;

// Its numbers, how long its payload is, and the first four bytes of it.
#[derive(Clone, Copy)]
pub struct Shown<'a> {
    pub message: Message,
    pub payload: &'a [u8],
}

impl fmt::Display for Shown<'_> {
    fn fmt<W: fmt::Write>(&self, f: &mut fmt::Formatter<W>) -> fmt::Result {
        let message = self.message;
        let (type_id, stream_id) = (message.type_id, message.stream_id);
        let time = message.timestamp.value;
        write!(f, "message {type_id} on stream {stream_id} at {time}")?;
        write!(f, ", {} bytes: ", self.payload.len())?;
        for byte in self.payload.iter().take(4) {
            write!(f, "{byte:02x}")?;
        }
        Ok(())
    }
}
