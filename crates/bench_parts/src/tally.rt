// What a run answers: counts, and a checksum that the original must reach too.
ghost use Rattle.std.specs.Prelude.{◌≡◌, ℕ, ◌+◌, ◌%◌, ◌^◌, [], ◌∷◌};

use crate::checksum::Checksum;
use in_place::Answer;
use test_calls::used_of;
use test_parts::part;

#[derive(Clone, Copy, Debug, Default)]
pub struct Tally {
    messages: u64,
    calls: u64,
    bytes: u64,
    sum: Checksum,
}

impl Tally {
    // One call more, which took or wrote so many bytes.
    fn call(&mut self, bytes: usize)
        ensures { (self.new.calls ≡ (self.old.calls + 1) % 2 ^ 64) × (self.new.messages ≡ self.old.messages) }
    {
        self.calls = self.calls.wrapping_add(1);
        self.bytes = self.bytes.wrapping_add(bytes as u64);
    }

    fn message(&mut self)
        ensures { (self.new.calls ≡ self.old.calls) × (self.new.messages ≡ (self.old.messages + 1) % 2 ^ 64) }
    {
        self.messages = self.messages.wrapping_add(1);
    }

    // Counts what a call of the decoder answered. A refusal is counted as a message.
    pub fn answer(&mut self, answer: Answer, payload: &[u8], every: usize)
        ensures calls { self.new.calls ≡ (self.old.calls + 1) % 2 ^ 64 }
        ensures more { (used : ℕ) → answer ≡ Answer.More used → self.new.messages ≡ self.old.messages }
    {
        self.call(used_of(answer));
        match answer {
            Answer::Message { message, .. } => {
                self.sum.mix(message.type_id);
                self.sum.mix(message.stream_id);
                self.sum.mix(message.timestamp.value);
                self.sum.mix(message.length);
                self.sum
                    .probe(part(payload, 0, message.length as usize), every);
                self.message();
            }
            Answer::More { .. } => {}
            Answer::Refused { number, .. } => {
                self.sum.mix(number);
                self.message();
            }
        }
    }

    // Counts a packet that a call of the encoder wrote.
    pub fn packet(&mut self, packet: &[u8], every: usize)
        ensures { (self.new.calls ≡ (self.old.calls + 1) % 2 ^ 64) × (self.new.messages ≡ (self.old.messages + 1) % 2 ^ 64) }
    {
        self.call(packet.len());
        self.sum.probe(packet, every);
        self.message();
    }

    // Messages, calls, bytes taken or written, and the checksum.
    pub fn report(self) -> [u64; 4]
        ensures { result ≡ self.messages ∷ self.calls ∷ self.bytes ∷ self.sum.0 ∷ [] }
    {
        [self.messages, self.calls, self.bytes, self.sum.0]
    }
}
