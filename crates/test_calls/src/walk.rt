// The way of a decoder through an input, piece by piece: what a call left unread is offered again.
ghost use Rattle.std.specs.Prelude.{◌≡◌, ◌≤◌, ◌+◌, ◌%◌, ◌^◌, length};

use crate::cut::Cut;
use crate::decoder::Decoder;
use crate::stop::Stop;
use crate::used::used_of;
use in_place::{Answer, Message};
use test_parts::part;

// How far it is.
#[derive(Clone, Copy)]
pub struct Walk<'a> {
    input: &'a [u8],
    cut: Cut,
    // how many bytes are used, and where the piece ends that they are in
    pub used: usize,
    end: usize,
    // how many calls were made
    pub calls: u64,
    ghost in_piece: { used ≤ end },
    ghost in_input: { end ≤ length input.now },
}

impl<'a> Walk<'a> {
    // Before the first piece.
    pub fn new(input: &'a [u8], cut: Cut) -> Self
        ensures { (result.used ≡ 0) × (result.calls ≡ 0) × (result.input.now ≡ input.now) }
    {
        Walk {
            input,
            cut,
            used: 0,
            end: 0,
            calls: 0,
        }
    }

    // Whether nothing is left to offer.
    fn is_over(&self) -> bool {
        self.used == self.input.len()
    }

    // What is unread of the piece; the next one, where all of it is used.
    fn piece(&mut self) -> &'a [u8]
        ensures { (self.new.used ≡ self.old.used) × (self.new.calls ≡ self.old.calls) × (self.new.input.now ≡ self.old.input.now) }
    {
        if self.used == self.end {
            self.end += self.cut.next_length().min(self.input.len() - self.end);
        }
        &self.input[self.used..self.end]
    }

    // Goes on by what a call used.
    fn forward(&mut self, used: usize) -> Result<(), Stop>
        ensures { (self.old.used ≤ self.new.used) × (self.new.input.now ≡ self.old.input.now) }
    {
        self.calls = self.calls.wrapping_add(1);
        if self.end - self.used < used {
            return Err(Stop::TooFar);
        }
        self.used += used;
        Ok(())
    }

    // Offers pieces up to the next message, or to the end of the input. A call that is offered a byte uses one, so there are no
    // more calls than bytes; where there would be, something is wrong, and bytes are left.
    pub fn next_message(
        &mut self,
        decoder: &mut Decoder,
        payload: &mut [u8],
    ) -> Result<Option<Message>, Stop>
        ensures { (self.old.used ≤ self.new.used) × (self.new.input.now ≡ self.old.input.now) }
    {
        for _ in 0..=self.input.len() {
            let answer = decoder.next_message(self.piece(), payload);
            self.forward(used_of(answer))?;
            match answer {
                Answer::Message { message, .. } => return Ok(Some(message)),
                Answer::Refused { number, .. } => return Err(Stop::Refused(number)),
                Answer::More { .. } if self.is_over() => break,
                Answer::More { .. } => {}
            }
        }
        Ok(None)
    }

    // Hands each message over with its payload, until all is used or something stops it.
    pub fn each_message<F: FnMut(&mut Decoder, Message, &[u8]) -> Result<(), Stop>>(
        &mut self,
        decoder: &mut Decoder,
        payload: &mut [u8],
        mut take: F,
    ) -> Result<(), Stop>
        requires { F.IsAlwaysCallable take }
        ensures { (self.old.used ≤ self.new.used) × (self.new.input.now ≡ self.old.input.now) }
    {
        for _ in 0..=self.input.len() {
            let Some(message) = self.next_message(decoder, payload)? else {
                break;
            };
            take(decoder, message, part(payload, 0, message.length as usize))?;
            if self.is_over() {
                break;
            }
        }
        Ok(())
    }
}
