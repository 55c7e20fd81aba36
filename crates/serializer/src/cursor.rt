// An output, and the place in it where the next byte goes.
ghost use Rattle.std.specs.Prelude.{◌≡◌, ◌+◌, ◌≤◌, length};
ghost use Rattle.fields.specs.Endian.{big_endian};
ghost use Rattle.fields.specs.Output.{stored};
ghost use Rattle.serializer.specs.Cursor.{Added, HasRoom};

use fields::{put_bytes, put_number};

#[derive(Drop)]
pub struct Cursor<'a> {
    pub output: &'a mut [u8],
    pub at: usize,
}

// Puts a payload from `at` on. A long one goes in two parts, so that most of it is stored at multiples of 16, counted from the
// output's start: stores that reach into two lines of the cache take longer.
fn put_payload(payload: &[u8], output: &mut [u8], at: usize)
    requires { at + length payload.now ≤ length output.old }
    ensures { output.new ≡ stored output.old at payload.now }
{
    if payload.len() < 512 {
        put_bytes(payload, output, at);
    } else {
        let short = 16 - at % 16;
        put_bytes(&payload[..short], output, at);
        put_bytes(&payload[short..], output, at + short);
    }
}

impl Cursor<'_> {
    // Adds the last bytes of a number.
    #[tactic(auto, using(fields::proofs::Endian::length_big))]
    pub fn number(&mut self, value: u32, width: usize)
        requires { HasRoom self.old width }
        ensures { Added self.old (big_endian width value) self.new }
    {
        put_number(value, width, self.output, self.at);
        self.at += width;
    }

    pub fn payload(&mut self, payload: &[u8])
        requires { HasRoom self.old (length payload.now) }
        ensures { Added self.old payload.now self.new }
    {
        put_payload(payload, self.output, self.at);
        self.at += payload.len();
    }
}
